//! The checker: which modules are accepted, and the first fault of those that aren't.
//!
//! Definitions: faults, acceptance and their order (`specs/Faults.antt`); how places and names are written (`Places.antt`);
//! limits of declares and functions (`CodeLimits.antt`), blocks (`Blocks.antt`), `main` (`Functions.antt`), phis and uses
//! (`Flows.antt`). The other kinds stand in the crates below: names in `ir_names`, calls in `ir_calls`, types in `ir_types`, limits
//! of types and globals in `ir_layout`. Everything above takes an `Accepted`.
#![tactic(auto)]

mod accepted;
mod blocks;
mod code_limits;
mod fault;
mod flows;
mod functions;
mod laws;
mod line_rules;
mod places;

pub use accepted::{Accepted, accept};
pub use fault::{CheckError, Kind};
pub use laws::one_fault_or_none;
