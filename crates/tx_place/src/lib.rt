//! The pass of transactions: at the entry of a function, at loop heads and after calls a transaction may be cut or begins, and one ends before a
//! call of an external that isn't done inside.
//!
//! The column is `place_table` of `hard_ir/specs/Image.antt`.
#![tactic(auto)]

mod calls;
mod pass;
mod rows;

pub use pass::place;
pub use rows::{add_cut_point, add_placed};
