//! The entries of a schedule, and its events.
use ir_core::{Name, Side, Tid};

/// An upset: bits of one register's word are flipped.
#[derive(Drop)]
pub struct UpsetSpec {
    /// The thread that it strikes.
    pub tid: Tid,
    /// The frame, counted from the running one, which is 0.
    pub depth: u32,
    /// The flow of the register.
    pub side: Side,
    /// The name of the register, without `%m.` or `%s.`.
    pub name: Name,
    /// The bits that are flipped; at least one.
    pub mask: u128,
}

/// What one line of a schedule asks for.
#[derive(Drop)]
pub enum Line {
    /// `turn T N`: so many turns of one thread.
    Turn(Tid, u64),
    /// `round K N`: so many times a turn of each of the threads from 0 to K - 1, in order.
    Round(u32, u64),
    /// `mix K SEED N`: so many turns of threads below K, as numbers that begin behind SEED say.
    Mix(u32, u64, u64),
    /// `abort T`: the transaction of a thread aborts.
    Abort(Tid),
    /// `upset T D R MASK`: a register is upset.
    Upset(UpsetSpec),
}

/// One event of a schedule.
#[derive(Drop)]
pub enum Event<'a> {
    /// A thread has the turn.
    Turn(Tid),
    /// The transaction of a thread aborts.
    Abort(Tid),
    /// A register is upset.
    Upset(&'a UpsetSpec),
}
