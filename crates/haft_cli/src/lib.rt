//! The top call, over devices: what the words ask for is read, done and written.
//!
//! A command is a row of one table: in which form it reads each of its files, and its answer to what stands in them. `specs/Table.antt` has
//! the table, and `specs/Answers.antt` says what any row answers to files, with its refusals in their order; `table.rt` does the work of each
//! row, and `files.rt` reads the files of any.
//!
//! `haft` is the call that the program makes, and its contract carries what the tool promises of bytes. Its clauses cite besides
//! `specs/Command.antt` (command lines), `specs/Refusals.antt` (the lines of refusals) and `specs/Outcome.antt` (what became of the files,
//! and what was written); `specs/Work.antt` is for private contracts.
#![tactic(auto)]

mod command;
mod counts;
mod files;
mod refusal;
mod table;
mod texts;
mod top;

pub use command::Command;
pub use refusal::Refusal;
pub use top::{Status, haft};
