//! Threads and answers.
use crate::Callers;
use inst_meaning::Cause;

/// How far a thread's stack region is taken, the frame that runs, and those that wait for it, the last first.
#[derive(Clone, Drop)]
pub struct CallStack<F> {
    pub mark: u64,
    pub frame: F,
    pub callers: Callers<F>,
}

/// A thread that was made.
#[derive(Drop)]
pub enum Thread<F> {
    /// It runs.
    Running(CallStack<F>),
    /// Its function returned this word, and it ends at its next turn.
    Exiting(u64),
    /// It has ended.
    Ended,
}

/// What a step answers.
#[derive(Clone, Copy, PartialEq, Eq)]
pub enum Step {
    /// An instruction was done, or a thread has ended.
    Went,
    /// The call at the thread's place must wait.
    Waits,
    /// The thread was never made or has ended, or the program has.
    Idle,
    /// The step is undefined.
    Undefined(Cause),
    /// The program has ended with this code.
    Ended(u32),
}
