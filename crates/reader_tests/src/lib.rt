//! Tests of the readers of lines and of schedules, of names, copies and operators: what no clause says, and each public call
//! once with memory enough.
#![tactic(auto)]

#[cfg(test)]
mod errors;
#[cfg(test)]
mod instruction_lines;
#[cfg(test)]
mod lines;
#[cfg(test)]
mod names;
#[cfg(test)]
mod parts;
#[cfg(test)]
mod schedules;
#[cfg(test)]
mod shown;
#[cfg(test)]
mod top_lines;
#[cfg(test)]
mod words;
