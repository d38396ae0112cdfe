//! That a module does the same under other numbers of its names. The function does nothing; its clauses are the laws.
#![tactic(auto)]

mod laws;

pub use laws::names_alone_count;
