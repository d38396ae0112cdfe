//! The map of addresses, and how many threads and frames there may be (`specs/Memory.antt`). The crates above count with these numbers too.

/// The address of the first byte of the globals.
pub const GLOBALS_START: u64 = 0x1_0000;

/// How many bytes each of the three areas has: the globals, the stacks together, and the heap.
pub const AREA_SIZE: u64 = 0x10_0000;

/// The address of the first thread's stack region. Those of the others stand after it, side by side.
pub const STACKS_START: u64 = 0x100_0000;

/// How many bytes a thread's stack region has.
pub const STACK_SIZE: u64 = 0x4000;

/// The address of the first byte of the heap.
pub const HEAP_START: u64 = 0x400_0000;

/// How many threads there may be, the first one among them.
pub const THREAD_LIMIT: usize = 64;

/// How many frames a thread may have.
pub const FRAME_LIMIT: usize = 256;
