//! The runtime's words of a thread: whether it is in a transaction, how often one was tried, and how much work was counted. They
//! say when a transaction begins and when it ends (`specs/Words.antt`); the machine does so.
#![tactic(auto)]

mod words;

pub use words::{Act, Mode, Words};
