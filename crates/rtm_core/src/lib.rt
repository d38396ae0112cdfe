//! Memory under transactions: what 64 threads read and write inside transactions and outside, and which transactions that aborts.
//!
//! Definitions: what a transaction has read and written, conflicts and room (`specs/Footprint.antt`); memory with the transactions of all
//! threads, and what each call comes to (`Transactions.antt`); what the calls answer (`Calls.antt`). The machine goes through `Rtm` for
//! each access to memory.
#![tactic(auto)]

mod buffers;
mod conflicts;
mod machine;
mod slots;

use ir_core::Tid;
pub use machine::Rtm;
use mem_image::Size;

/// What an access gives.
#[derive(Clone, Copy, PartialEq, Eq)]
pub enum Got {
    /// It was done. This is the word that was read, or for a write the word that was written.
    Value(u64),
    /// It isn't valid.
    Trap,
    /// The thread's transaction has no room for its line.
    Overflow,
}

/// A transaction that was aborted: its thread, the abort status, and what was kept when it began.
#[derive(Drop)]
pub struct Aborted<C> {
    pub tid: Tid,
    pub status: u32,
    pub keep: C,
}

/// An access to memory.
#[derive(Clone, Copy)]
pub(crate) struct Access {
    addr: u64,
    size: Size,
    reads: bool,
    writes: bool,
}
