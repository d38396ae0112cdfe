//! What a run comes to.
use hard_frames::{Aborts, Stop};
use ir_core::{Outs, Turns};

/// What a run comes to. A place is the names of function and block and the index of a hardened
/// instruction in the block, joined by `/`.
#[derive(Drop)]
pub struct RunResult {
    /// The outputs in order.
    pub outs: Outs,
    pub aborts: Aborts,
    pub stop: Stop,
    /// The turns of the source run that the run stands for.
    pub turns: Turns,
}
