//! Where a fault stands, and the name that it tells.
use ir_core::{Loc, Sym, TypeId};

/// A line of a module. Functions, blocks and instructions are told by their numbers, phis counted.
#[derive(Clone, Copy)]
pub enum Site {
    /// The line of a named type.
    Type(TypeId),
    /// The line of a global or of a declare, or the head of a function.
    Global(Sym),
    /// The beginning of a block.
    Block {
        func: usize,
        block: usize,
    },
    /// An instruction.
    Inst {
        func: usize,
        block: usize,
        inst: usize,
    },
    /// The module as a whole.
    Module,
}

/// A name of a module.
#[derive(Clone, Copy)]
pub enum Named {
    /// A named type.
    Type(TypeId),
    /// An `@` name.
    Sym(Sym),
    /// A register or a label of the function with this number.
    Loc { func: usize, at: Loc },
}
