//! That all that stands in the blocks of a hardened module has a line of hardened text (`hard_ir/specs/Lines.antt`, `Standing.antt`),
//! which the passes stand on. The function does nothing; its clauses are the law.
#![tactic(auto)]

mod laws;

pub use laws::hardened_modules_have_lines;
