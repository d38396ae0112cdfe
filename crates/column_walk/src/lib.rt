//! A walker over hardened modules: each block's list is made again, by one column of the image table, out of the instructions that it
//! retires.
//!
//! What a column makes is a `ColumnParts` of `specs/Columns.antt`; a pass above is a `Column`, the functions of its one column. That the module
//! made of an earlier column's is the table's is `proofs/Made.antt`.
#![tactic(auto)]

mod column;
mod outlines;
mod walk;

pub use column::Column;
pub use walk::column_funcs;
