//! The first pass: out of an accepted module its two flows. What only computes is done for masters and for shadows; all else is done
//! once, on the masters' side, and its result is copied.
//!
//! The hardened module is that of `flow_table` of `hard_ir/specs/Image.antt`. Instructions are copied here (`images.rt`), the heads of
//! the module too (`heads.rt`).
#![tactic(auto)]

mod blocks;
mod heads;
mod images;
mod pass;

pub use images::add_image;
pub use pass::shadow;
