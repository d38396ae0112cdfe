//! Calls: the functions outside a module that it may call, and whether each line of a module keeps what is asked of calls.
//!
//! Definitions: externals with their names and signatures (`specs/Externals.antt`); what an `@` name stands for, and what
//! calls, values, initialisers, declares and heads must keep (`Calls.antt`); how the code keeps them (`Scalars.antt`,
//! `Standings.antt`). `Calls` is the row on calls of the checker's table. The machines, too, take `External` and its
//! signatures.
#![tactic(auto)]

mod arguments;
mod externals;
mod row;
mod scalars;
mod signatures;
mod table;
mod values;

pub use externals::External;
pub use row::Calls;
