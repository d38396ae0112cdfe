//! Watches a run of the source for its first end, undefined step or race.
//!
//! Definitions: `specs/Watching.antt`, over the source machine and the races of `src_meaning`; what a watch keeps under way
//! (`Tables.antt`, `Watchers.antt`). `race` tells the first pair of threads that race in a state; `watch` runs a module over a
//! schedule. A watch keeps the next access of each thread: after a step it asks anew for the thread that moved, and compares
//! that one with the others.
#![tactic(auto)]

mod laws;
mod outcome;
mod pairs;
mod table;
mod watching;

pub use laws::watched_runs_are_source_runs;
pub use outcome::{SrcStop, WatchResult};
pub use pairs::race;
pub use watching::watch;
