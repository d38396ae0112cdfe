//! Laws of processes (`process`), which proofs over both machines stand on.
//!
//! What an action comes to in a process of one kind of frames, it comes to in a process of another kind whose frames are alike
//! (`proofs/Likeness.antt`, for the proofs above). The function does nothing; its clauses are laws.
#![tactic(auto)]

mod laws;

pub use laws::actions_are_local;
