//! The lines of a module in the order of their places, as the checker goes over them.
//!
//! Definitions: lines, their order, and what the first one tells that breaks a rule (`specs/Lines.antt`); when types are the
//! same (`SameTypes.antt`). A row of the checker's table is a `Rule`; `first_break` goes over a module by it.
#![tactic(auto)]

mod rules;
mod sameness;
mod site;

pub use rules::{Rule, first_break};
pub use sameness::{same_ty, same_types, same_width};
pub use site::{Named, Site};
