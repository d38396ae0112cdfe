//! Laws of what instructions ask for (`inst_meaning`), which proofs over both machines stand on. The functions do nothing; their clauses
//! are the laws.
#![tactic(auto)]

mod laws;

pub use laws::{actions_depend_on_words, operators_without_flags};
