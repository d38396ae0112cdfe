//! Where the tool's bytes come from and go to: two files to read (`Inputs`) and one output
//! (`Sink`), as traits, so that the top call runs over real files and over devices in memory.
//!
//! A device counts its faults, and code that is generic over it can change that count by a call
//! alone, so an error that needs a risen count is never made up. The contracts cite
//! `specs/Device.antt`: `Takes` and `Puts` say which bytes a call read or wrote, and `Rose` that a
//! count rose. `specs/Memory.antt` says how contracts see the devices in memory. The crates above
//! call `read_whole` and `write_whole`.
//!
//! The files and the standard output of `host` are trusted: no contract says which bytes the system
//! gives or takes.
#![tactic(auto)]

mod clean;
mod device;
mod host;
mod memory;
mod whole;

pub use clean::{CleanInputs, CleanSink};
pub use device::{Failed, Inputs, Sink, Which};
pub use host::{FileInputs, StdSink};
pub use memory::{MemInputs, MemSink};
pub use whole::{ReadFail, read_whole, write_whole};
