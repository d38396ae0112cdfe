//! How runs stop, and what is counted in them.
use ir_core::{Name, Tid};

/// How a run stopped.
#[derive(Drop)]
pub enum Stop {
    /// The program ended with this code.
    End(u32),
    /// The events ended first.
    Bound,
    /// A check of the thread failed outside a transaction, at this place.
    Fail { tid: Tid, at: Name },
    /// The thread came to an undefined action outside a transaction, at this place.
    Trap { tid: Tid, at: Name },
}

/// How many transactions were aborted, by cause.
#[derive(Clone, Copy, PartialEq, Eq)]
pub struct Aborts {
    /// By a check that failed.
    pub explicit: u64,
    /// By an access of another thread.
    pub conflict: u64,
    /// Because a set of lines was full.
    pub overflow: u64,
    /// By anything else.
    pub other: u64,
}
