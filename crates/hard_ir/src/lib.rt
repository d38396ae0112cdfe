//! Hardened modules: the master and the shadow flow of a program, the checks between them, and the
//! marks of its transactions, as plain data.
//!
//! What is hardened out of an instruction, its image, and the hardened module of a table are defined in `specs/Image.antt` and
//! `specs/Hardened.antt`; the passes and the machine above this crate cite them. `Hardened` is a hardened module with its layout and
//! the widths of its registers; what holds of each one, and how wide its registers are, is in `specs/Facts.antt`. Lines of hardened text
//! are defined in `specs/Lines.antt`, and which items have one in `specs/Standing.antt`.
#![tactic(auto)]

mod copying;
mod hardened;
mod instruction;
mod widths;

pub use hardened::Hardened;
pub use instruction::{
    HBlock, HBlocks, HFuncs, HInst, HInsts, HPhis, HReg, HVal, LIST_LIMIT, When,
};
pub use widths::register_bits;
