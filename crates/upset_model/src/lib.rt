//! Upsets: what an upset does to a word, the records of upsets, and the windows in which one can't be found.
//!
//! Definitions: an upset of a word (`specs/Strikes.antt`); windows, and branches that their targets check (`Windows.antt`); the windows of a
//! block as intervals (`Intervals.antt`), and those of a module as a table (`Table.antt`). The machine strikes by them and asks the table.
#![tactic(auto)]

mod blocks;
mod edges;
mod instructions;
mod labels;
mod records;
mod strikes;
mod table;
mod windows;

pub use blocks::Interval;
pub use edges::edge_checked;
pub use records::{Record, Records};
pub use strikes::strike;
pub use table::WindowTable;
pub use windows::in_window;
