//! The hardened machine: threads that take turns, one hardened instruction a turn.
//!
//! Definitions: the state (`specs/State.antt`), a turn (`Step.antt`), runs and what they come to (`Runs.antt`), over the frames of
//! `hard_frames`. Contracts see a `Machine` as its program and its state.
//!
//! The code is plain where the definition is: an instruction is decoded each time that it is done. Registers stand by number, labels
//! are found by a table, and no turn copies memory or frames.
#![tactic(auto)]

mod machines;
mod outcome;

pub use hard_frames::{Aborts, Frame, Shadows, Stop};
pub use machines::{Flow, Machine};
pub use outcome::RunResult;
