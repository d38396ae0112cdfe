//! The named parts of a line, read from its tokens.
//!
//! A `Reader` goes over the tokens of one line. Each method reads one part of the grammar (`specs/` of `ir_grammar`):
//! its clause says that what it gave, the tokens that it left or the token at which it stopped are what that part makes
//! of the tokens before (`specs/Reads.antt`). Contracts see a reader as the list of the tokens left. At the start these are the
//! tokens before the first bracket too many; `answered` says what follows for the whole line.
#![tactic(auto)]

mod numbers;
mod reader;
mod stops;
mod tables;
mod tails;
mod tokens;
mod types;
mod values;
mod words;

pub use reader::Reader;
pub use stops::{LineError, Stop, answered};
pub use tokens::Tok;
pub use types::ANY_DEPTH;
pub use values::constant_head;
pub use words::linkage_word;
