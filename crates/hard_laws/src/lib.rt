//! Laws of hardened modules (`hard_ir`), which the passes above it stand on. The functions do nothing; their clauses are the laws.
#![tactic(auto)]

mod laws;

pub use laws::{accepted_modules_fit, hardened_modules_are_images};
