//! A text of a module as lines, and a line cut into tokens, or dropped.
//!
//! `split_line` gives the lines of a text (`lines_of` of `ir_core`'s `specs/Lines.antt`), and
//! `is_dropped` says which of them are dropped. What the tokens of a line are and which column is bad says
//! `ir_core`'s `specs/Tokens.antt`, and its `proofs/TokenLaws.antt` that each line has one list of tokens or
//! one bad column, and not both. So the clauses of `lex_line` leave it one answer beside `NoMemory`.
//! `string_bytes` gives what a `c"..."` stands for (`specs/Strings.antt`), and `name_from` a name inside a text.
#![tactic(auto)]

mod dropped;
mod lengths;
mod lex;
mod lines;
mod names;
mod strings;

pub use dropped::is_dropped;
pub use ir_core::{LinePlace, TokKind, Token};
pub use lex::{LexError, lex_line};
pub use lines::{lines_law, split_line};
pub use names::name_from;
pub use strings::{string_bytes, string_len};
