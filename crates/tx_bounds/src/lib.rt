//! Where transactions of hardened programs commit, and how often they are tried. The functions do nothing; their clauses are the laws.
#![tactic(auto)]

mod laws;

pub use laws::{attempts_stay_few, commits_come_where_they_may, little_is_done_outside};
