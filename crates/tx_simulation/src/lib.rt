//! That a run of a hardened program stands for a run of its source, over transactions and upsets. The functions do nothing; their clauses are
//! the laws.
#![tactic(auto)]

mod laws;
mod samples;

pub use laws::hardened_runs_stand_for_the_source;
pub use samples::{good_programs_exist, runs_of_two_threads};
