//! Tests of the top call and of runs: what no clause says, each public call once with memory enough, and the
//! devices' faults at every place.
#![tactic(auto)]

#[cfg(test)]
mod calls;
#[cfg(test)]
mod faults;
#[cfg(test)]
mod operator_runs;
#[cfg(test)]
mod pieces;
#[cfg(test)]
mod runs;
#[cfg(test)]
mod texts;
