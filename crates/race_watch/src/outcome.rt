//! What a watched run comes to.
use inst_meaning::Cause;
use ir_core::{Outs, Tid, Turns};

/// How a watched run stopped.
#[derive(Clone, Copy, PartialEq, Eq)]
pub enum SrcStop {
    /// The program ended with this code.
    End(u32),
    /// The turns ended first.
    Bound,
    /// Behind so many turns the next step, of this thread, is undefined.
    Undefined { n: u64, tid: Tid, cause: Cause },
    /// Behind so many turns two threads race.
    Race { n: u64, t: Tid, u: Tid },
}

/// What a watched run comes to.
#[derive(Drop)]
pub struct WatchResult {
    /// The outputs in order.
    pub outs: Outs,
    pub stop: SrcStop,
    /// The turns that went or ended, as maximal runs.
    pub turns: Turns,
}
