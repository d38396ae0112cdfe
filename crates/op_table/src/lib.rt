//! Operators, predicates, casts and atomic operations on words of 1, 8, 16, 32 and 64 bits.
//!
//! Each gives exactly the arithmetic of `specs/Operators.antt` on whole numbers, reduced modulo 2^w, and its
//! undefined arguments are told by their cause. The machines above call `bin`, `cmp`, `cast` and `rmw`, and
//! cite `binary`, `compares`, `converted` and `updated`. Nothing takes memory.
#![tactic(auto)]

mod arithmetic;
mod predicates;
mod tables;
mod words;

pub use tables::{bin, bit_count, cast, cmp, low_word, rmw};
pub use words::Word;

/// Why an operator has no result on two words (LLVM Language Reference, 'Binary Operations').
#[derive(Clone, Copy, PartialEq, Eq)]
pub enum OpCause {
    /// A division by 0, or a signed quotient past the greatest signed value: undefined behaviour.
    Divide,
    /// A poison value: a flag's promise is broken, or a shift is by as many bits as the word has.
    Poison,
}
