//! The memory of a program: bytes by address, as a program's machines read and write them.
//!
//! Definitions: the bytes of an access (`specs/Accesses.antt`); memory, what an access reads and what it leaves
//! (`Bytes.antt`); the memory that a run begins with (`Opening.antt`). Contracts see an `Image` as the places of the globals
//! and the bytes of three areas. Which accesses are valid is said by `ir_layout`. What machines need to know of reads and
//! writes are laws (`specs/Laws.antt`), the clauses of `writes_are_kept`.
#![tactic(auto)]

mod areas;
mod images;
mod memory_laws;
mod opening;
mod sizes;

pub use images::{Image, LINE_SIZE};
pub use memory_laws::writes_are_kept;
pub use opening::{address_in, inner_address, size_in};
pub use sizes::{Size, overlap};
