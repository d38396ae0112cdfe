//! Laws of the source machine (`src_meaning`), which proofs over it stand on. The functions do nothing; their clauses are the laws.
#![tactic(auto)]

mod laws;

pub use laws::{steps_that_do_nothing, what_is_read_is_assigned};
