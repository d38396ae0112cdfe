//! Control flow: the edges of a function, its loop heads, and which registers are assigned on every path.
//!
//! Definitions: edges and loop heads (`specs/Edges.antt`), paths and assignment (`Paths.antt`), what instructions read
//! (`Uses.antt`), phis and the answers of a check (`Phis.antt`); how the code keeps them (`Labels.antt`, `Searches.antt`,
//! `Faults.antt`). The checker and the pass that places transactions stand on it.
#![tactic(auto)]

mod assigned;
mod climb;
mod control;
mod edge_list;
mod flow;
mod guide;
mod phis;
mod same;
mod search;
mod targets;
mod told;
mod uses;

pub use assigned::assigned_at;
pub use control::{edges, loop_heads};
pub use edge_list::Edges;
pub use flow::{FlowError, flow_check};
