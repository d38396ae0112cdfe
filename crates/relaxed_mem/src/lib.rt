//! The pass of double loads and late checks: a plain load is done on each side, the shadow's at its own address; the operands of a plain store are
//! checked before it only outside a transaction, and inside one after it, with what stands in memory.
//!
//! The column is `relaxed` of `hard_ir/specs/Image.antt`. Its parts are calls of their own, since further columns add between them.
#![tactic(auto)]

mod pass;
mod rows;

pub use pass::relax;
pub use rows::{add_checks_after, add_checks_before, add_core};
