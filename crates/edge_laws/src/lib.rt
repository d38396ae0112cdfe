//! Laws of checks on edges (`hard_ir/specs/EdgeChecks.antt`). The functions do nothing; their clauses are the laws.
#![tactic(auto)]

mod laws;

pub use laws::{edged_modules_are_images, edged_modules_fit};
