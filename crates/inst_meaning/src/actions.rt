//! What an instruction asks for, as data.
use ir_calls::External;
use ir_core::{Loc, RmwOp, Seq, Width};
use mem_image::Size;

/// What an `@` name stands for where it is called.
#[derive(Clone, Copy)]
pub enum Callee {
    /// The function of the module with this number.
    Defined(usize),
    /// A function outside the module.
    Outside(External),
    /// Nothing that can be called.
    Unknown,
}

/// Why a step is undefined.
#[derive(Clone, Copy, PartialEq, Eq)]
pub enum Cause {
    /// A division by 0, or a signed quotient past the greatest signed value.
    Divide,
    /// A result is poison.
    Poison,
    /// An access isn't valid.
    Access,
    /// An `alloca` leaves the thread's stack region.
    Stack,
    /// A call with 256 frames.
    Depth,
    /// A lock is given back that the caller doesn't hold.
    Unlock,
    /// A thread is waited for that was never made.
    Join,
    /// `unreachable`; also an instruction that reads a register without a word, or that no accepted module has.
    Unreachable,
}

/// The bytes of an access.
#[derive(Clone, Copy, PartialEq, Eq)]
pub struct Place {
    pub address: u64,
    pub size: Size,
}

/// What becomes of a word in memory in one step.
#[derive(Clone, Copy, PartialEq, Eq)]
pub enum Update {
    /// It is combined with an argument, and what it was is the result.
    Combine {
        op: RmwOp,
        width: Width,
        argument: u64,
    },
    /// Where it is the expected one, it becomes the desired one. What it was is the result, and one bit more whether it became so.
    Exchange {
        width: Width,
        expected: u64,
        desired: u64,
    },
}

/// What an external asks of the world.
#[derive(Clone, Copy, PartialEq, Eq)]
pub enum Request {
    /// To own the lock at an address.
    Lock(u64),
    /// To own it no more.
    Unlock(u64),
    /// To give out a byte.
    Put(u64),
    /// To give out a number.
    Output(u64),
    /// For so many bytes of the heap.
    Allocate(u64),
    /// For nothing.
    Free,
    /// For the argument with this number.
    Argument(u64),
}

/// What the world answers.
#[derive(Clone, Copy, PartialEq, Eq)]
pub enum Reply {
    /// The call is done, and its result is this word; 0 where it has none.
    Answers(u64),
    /// The call must wait.
    Waits,
    /// The call is undefined.
    Refuses(Cause),
}

/// What an instruction asks for, once its operands have words.
#[derive(Drop)]
pub enum Action {
    /// Its result is a word.
    Assign(u128),
    /// Its result is the address of so many bytes of the stack.
    Reserve(u64),
    /// Its result is the word at a place.
    Read {
        place: Place,
        atomic: bool,
    },
    /// A word goes to a place.
    Write {
        place: Place,
        word: u64,
        atomic: bool,
    },
    /// The word at a place is changed in one step.
    Update {
        place: Place,
        update: Update,
    },
    /// Nothing.
    Pass,
    /// To go on at a label.
    Jump(Loc),
    /// To call the function of the module with this number.
    Call {
        function: usize,
        words: Seq<u64>,
    },
    /// Something of the world.
    Ask(Request),
    /// A new thread that runs a function with one argument. Its number goes to an address.
    Create {
        address: u64,
        function: usize,
        argument: u64,
    },
    /// To wait for a thread's end.
    Join(u64),
    /// The end of the program.
    Exit(u64),
    /// To return a word; 0 where the function returns nothing.
    Return(u64),
    /// Nothing that can be done.
    Fault(Cause),
}

/// An access to memory that a step would make.
#[derive(Clone, Copy, PartialEq, Eq)]
pub struct Access {
    pub addr: u64,
    pub size: Size,
    pub writes: bool,
    pub atomic: bool,
}
