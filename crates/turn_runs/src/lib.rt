//! Turns of threads, kept as maximal runs.
//!
//! Definitions: turns as runs, and runs as turns (`specs/Runs.antt`). Contracts see a `TurnLog` as the list of its turns'
//! threads. What is known of runs and turns stands in `proofs/Grouping.antt`, and of the last turn in `proofs/Shortening.antt`.
#![tactic(auto)]

mod logs;

pub use logs::TurnLog;
