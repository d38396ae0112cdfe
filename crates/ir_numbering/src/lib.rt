//! From places to numbers: how the names of a tree that was read from text get their numbers.
//!
//! A reader of text makes trees of `ir_core`'s types in which a name is told by the place where it begins: `Loc(p)`,
//! `TypeId(p)` and `Sym(p)` hold the place p, behind the `%` or `@`. This crate takes it from there. `specs/Places.antt`
//! says which places a tree has, in the order in which its line writes them; `specs/Renaming.antt` what the tree is with
//! other numbers; `specs/Numbers.antt` what the name tables are once they have the names at places, each numbered by its
//! first sight, and what number a place becomes then.
//!
//! `numbered` does both for one line inside a function, `numbered_outside` for a line outside, `numbered_func` for a whole
//! function. The laws of `specs/Laws.antt` say what callers may rely on afterwards.
#![tactic(auto)]

mod functions;
mod instructions;
mod laws;
mod numbering;
mod numbers;
mod places;
mod tables;
mod trees;
mod values;
mod whole;

pub use functions::numbered_func;
pub use laws::{numbers_stay, only_tables_change, places_are_numbered};
pub use numbering::{add_names, numbered, numbered_outside, places_of};
pub use numbers::{Numbers, name_at};
pub use places::{Place, Places};
pub use tables::{
    add_module_names_of, add_names_of, has_local_room, has_room, number_in_func, number_in_module,
};
pub use trees::Numbered;
pub use whole::numbered_module;
