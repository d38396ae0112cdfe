//! Programs, hardened and run.
//!
//! `harden` gives the hardened module of an accepted one, through the passes in crates of their own. `run_hardened` runs a hardened module
//! over a schedule on the machine of `tx_machine`, with transactions, lock elision and upsets, and `run` the hardened module of an accepted
//! one. `report` writes a result as bytes (`specs/Report.antt`), and `src_report` what a watched run of the source comes to
//! (`specs/SourceReport.antt`).
#![tactic(auto)]

mod hardened;
mod printing;
mod runs;
mod source_report;

pub use hardened::harden;
pub use printing::report;
pub use runs::{run, run_hardened};
pub use source_report::src_report;
pub use tx_machine::{Aborts, Record, Records, RunResult, Stop};
