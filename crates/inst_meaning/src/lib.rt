//! What instructions mean, for every machine that does them.
//!
//! An instruction asks for an action (`specs/Action.antt`): a function of the words of one register file, of the layout and of what
//! names stand for where they are called. An action knows no memory, no threads and no copies of registers, so that a machine
//! with one copy of each register and a machine with two do the same by it. Operands are read as words of their types
//! (`Operands.antt`); what an action reads and writes stands in `Accesses.antt`; what phis take, and how words go to registers, in
//! `Phis.antt`. What is neither a register nor memory nor a thread is the world, and an external is a request to it
//! (`World.antt`).
#![tactic(auto)]

mod accesses;
mod actions;
mod calls;
mod decoding;
mod files;
mod operands;
mod phis;
mod requests;

pub use actions::{Access, Action, Callee, Cause, Place, Reply, Request, Update};
pub use calls::callees_of;
pub use decoding::destination;
pub use files::Registers;
pub use operands::{Operands, memory_width, size_of_width};
pub use phis::phi_count;
pub use requests::World;
