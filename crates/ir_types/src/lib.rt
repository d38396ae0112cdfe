//! Whether the types of a module's lines fit, and the widths of its registers.
//!
//! Definitions: what the `%` names of a function stand for, and how wide registers are (`specs/Meanings.antt`, `Tables.antt`);
//! when the types of a line fit (`Types.antt`); which entry of a name counts (`Firsts.antt`). `Types` is a row of the checker's
//! table; what runs a module takes the widths of its registers from `Widths`.
#![tactic(auto)]

mod firsts;
mod forms;
mod initialisers;
mod labels;
mod meaning;
mod operands;
mod register_widths;
mod rule;
mod type_kinds;

pub use register_widths::Widths;
pub use rule::Types;
