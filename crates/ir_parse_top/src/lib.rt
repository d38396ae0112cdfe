//! Texts of modules, from bytes to a numbered module.
//!
//! `parse_module` gives the module that a text stands for, or tells its first line that fits no form at its place:
//! `specs/Text.antt` says what both are, and `specs/Sheet.antt` what has been read behind a line. Lines are read one after
//! another into a tree in which a name is the place where it begins; at the end all names are numbered.
#![tactic(auto)]

mod bodies;
mod cursor;
mod errors;
mod inside;
mod laws;
mod outside;
mod passing;
mod switches;
mod whole;

pub use errors::ParseError;
pub use laws::{functions_have_blocks, module_is_small, numerals_are_names, text_or_unfit};
pub use whole::parse_module;
