//! That a run of a hardened program stands for a run of its source. The functions do nothing; their clauses are the laws.
#![tactic(auto)]

mod laws;
mod samples;

pub use laws::hardened_runs_stand_for_the_source;
pub use samples::a_check_of_differing_sides_fails;
