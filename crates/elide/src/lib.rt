//! Lock elision: for each thread the mutexes that its transaction watches in place of locking them, and those that it holds so
//! (`specs/Watches.antt`). The machine asks here at each call that locks or unlocks inside a transaction.
#![tactic(auto)]

mod elisions;
mod watches;

pub use elisions::Elision;
