//! The machine of hardened programs, with transactions, lock elision and upsets, one event of a schedule after another.
//!
//! Its definitions are those of `hard_meaning`: a `Machine` is seen as a hardened module and a state there (`specs/Machined.antt`). How the code
//! keeps threads stands in `specs/Own.antt`; what each step does to all that runs, part by part, in `Core.antt`, `Turned.antt` and `Upsets.antt`; which
//! state the parts stand for in `Meant.antt`. That they come to the definitions is shown in `proofs/Meant*.antt`.
#![tactic(auto)]

mod conflicts;
mod creation;
mod machine;
mod marks;
mod outcome;
mod parts;
mod records;
mod results;
mod strikes;
mod turns;
mod upsets;
mod workers;

pub use hard_frames::{Aborts, Stop};
pub use machine::{Flow, Machine};
pub use outcome::RunResult;
pub use upset_model::{Record, Records};
