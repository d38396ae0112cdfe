//! Frames.
use inst_meaning::Registers;
use ir_core::Loc;

/// A function at work: its place, its registers, the stack mark at its start, and the register that waits for the function that it
/// called. A place is the numbers of a function and of a block, and an index among the block's instructions.
#[derive(Drop)]
pub struct Frame {
    pub function: usize,
    pub block: usize,
    pub index: usize,
    pub registers: Registers,
    pub mark: u64,
    pub waiting: Option<Loc>,
}
