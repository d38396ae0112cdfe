//! The vocabulary of the tool: modules of the subset of LLVM IR, as plain data.
//!
//! Contracts see a list type as a list, a `Name` as its bytes, a module as lists of types, globals,
//! declares and functions (`specs/Module.antt`), and a name table as a list of names without repeats.
//! Every crate above stands on these types.
#![tactic(auto)]

mod copying;
mod instruction;
mod lists;
mod modules;
mod tables;
mod text;
mod types;
mod values;

pub use copying::Copied;
pub use instruction::{
    Arms, BinOp, Block, Cases, CastOp, Flags, GepIdx, Inst, Insts, Outs, Pred, RmwOp, Turns, Vals,
};
pub use lists::{Name, Seq};
pub use modules::{Func, Module};
pub use text::{LinePlace, TokKind, Token};
pub use types::{Boxed, Loc, Sym, Tid, Ty, TypeId, Tys, Width};
pub use values::{ConstGep, Declare, GlobalVar, Indices, Init, Inits, Out, Side, Val};
