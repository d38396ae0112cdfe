//! The grammar of lines: what the tokens of a line stand for.
//!
//! `specs/Lines.antt` has one form for each instruction, `specs/Top.antt` one for each other line, made of the
//! named parts of `Words`, `Numbers`, `Types`, `Values` and `Tails`. A part says what tokens mean, and how they
//! are read from the left (`specs/Parts.antt`); that both say the same is proved here, once for each way to
//! make a part (`proofs/Reading.antt`). Readers of lines prove that they read a part, and tell what it means.
#![tactic(auto)]

mod heads;
mod laws;
mod trees;

pub use heads::{
    AttributeHead, Bracket, Flag, FlagSet, PlainOpcode, ResultHead, ResultOpcode, TypeHead,
    ValueHead,
};
pub use laws::{body_line_or_unfit, instruction_or_unfit, top_line_or_unfit};
pub use trees::{BodyLine, Head, InitHead, Params, TailHead, TopLine, TopWord};
