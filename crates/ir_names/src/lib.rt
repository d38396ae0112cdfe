//! The names of a module: the first that is defined twice, and the first that is used and nowhere defined.
//!
//! Definitions: what each line defines and mentions, and what is told of it (`specs/Names.antt`); how the code keeps sets of
//! names (`Sets.antt`, `Locals.antt`). The checker asks both before it looks at anything else of a module.
#![tactic(auto)]

mod collected;
mod duplicates;
mod loc_set;
mod mentions;
mod name_set;

pub use duplicates::duplicate;
pub use mentions::unknown;
