//! The pass of ticks: before what leaves a block or its function, or calls, stands a tick, whose number is how much work was done since the last
//! one.
//!
//! The column is `split_table` of `hard_ir/specs/Image.antt`; the numbers are those of `ticked` there. With it the table is whole.
#![tactic(auto)]

mod blocks;
mod numbers;
mod pass;
mod rows;

pub use pass::split;
