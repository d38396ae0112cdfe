//! Processes: threads of frames, memory and the environment, and what actions come to there.
//!
//! Both machines are processes: one keeps one copy of each register in a frame, the other two. So all is said and done once, over
//! what a kind of frames can do (`specs/Frames.antt`). What an action comes to is a value (`Outcome.antt`); a process does it to its
//! memory at once (`Process.antt`). How the code goes about it stands in `specs/code/`.
//!
//! A machine implements `Code` for its program, and lets a `Process` act. Where a thread sees other memory than the process has, that memory
//! is a `View`, and `CallStack::act` does what a thread does alone.
#![tactic(auto)]

mod callers;
mod code;
mod moves;
mod processes;
mod state;
mod view;

pub use callers::Callers;
pub use code::{Code, stack_start};
pub use moves::Local;
pub use processes::Process;
pub use state::{CallStack, Step, Thread};
pub use view::View;
