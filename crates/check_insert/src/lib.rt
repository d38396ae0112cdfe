//! The pass of checks: before an instruction that is done once, the registers among its checked operands are compared, master with shadow.
//!
//! What is made of each item of a list is defined in `specs/Checks.antt`; the columns of the image table in `hard_ir`.
#![tactic(auto)]

mod blocks;
mod items;
mod pass;

pub use items::add_operands;
pub use pass::checks;
