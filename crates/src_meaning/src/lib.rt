//! What a program means: threads that take turns, one instruction a turn.
//!
//! Definitions: the state (`specs/State.antt`), what frames can do and a step (`Step.antt`), runs (`Runs.antt`), next accesses, races and
//! good programs (`Races.antt`). Contracts see a `Source` as its program and its state. The instructions' actions are those of
//! `inst_meaning`, and `process` does them; the hardened machine takes both too.
//!
//! The code is plain where the definition is: an instruction is decoded each time that it is done, and a `switch` and a phi look through
//! their cases and arms. Registers stand by number, labels are found by a table, and no step copies memory or frames.
#![tactic(auto)]

mod frames;
mod labels;
mod programs;
mod sources;
mod state;

pub use inst_meaning::{Access, Cause};
pub use process::Step;
pub use sources::Source;
pub use state::Frame;
