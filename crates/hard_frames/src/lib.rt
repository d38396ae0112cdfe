//! The frames of a hardened program: two copies of each register, and what hardened instructions ask for in them.
//!
//! Definitions: code by place (`specs/Code.antt`), frames and what they can do (`Frames.antt`), places as text (`Places.antt`), what the
//! code decodes (`Orders.antt`). The instructions' actions are those of `inst_meaning`, which the source machine takes too. Contracts
//! see a `Program` as its hardened module, and `Shadows` as registers.
#![tactic(auto)]

mod code;
mod labels;
mod orders;
mod outcome;
mod places;
mod programs;
mod shadows;
mod state;

pub use code::Words;
pub use orders::Order;
pub use outcome::{Aborts, Stop};
pub use places::place_text;
pub use programs::Program;
pub use shadows::Shadows;
pub use state::Frame;
