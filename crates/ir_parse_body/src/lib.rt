//! Instruction lines, read from their tokens.
//!
//! `parse_inst` gives exactly the instruction that the tokens stand for, or tells exactly the first that doesn't
//! fit: `IsInstruction` of `ir_grammar` says which one that is, `specs/Instruction.antt` how its names are
//! numbered. `read_inst` is the same without the numbering. The reader of whole texts calls them line by line.
#![tactic(auto)]

mod lines;
mod lists;
mod operands;
mod parse;
mod plain;
mod results;

/// Why a line is no instruction: its first unfit token, or want of memory.
pub use ir_parse_parts::LineError as InstError;
pub use lines::instruction;
pub use parse::{parse_inst, read_inst};
