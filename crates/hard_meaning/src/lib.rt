//! The machine of hardened programs with transactions, lock elision and upsets, as definitions.
//!
//! The state (`specs/State.antt`), aborts (`Aborts.antt`), effects of an action (`Effects.antt`), the runtime (`Runtime.antt`), mutexes
//! inside transactions (`Locks.antt`), checks (`Checks.antt`), a turn (`Turns.antt`); windows (`Windows.antt`), strikes (`Strikes.antt`) and
//! records of upsets (`Records.antt`), over those of `upset_model`; runs over the events of a schedule (`Runs.antt`). Nothing of it is code yet but runs of samples, which
//! are computed. docs/MACHINE.md goes through the machine rule by rule.
#![tactic(auto)]

mod samples;

pub use samples::{runs_of_a_branch, runs_of_a_sum, runs_with_memory, runs_with_mutexes};
