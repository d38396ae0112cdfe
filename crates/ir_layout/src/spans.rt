//! The places of globals, and which accesses are valid.
ghost use Rattle.std.specs.Prelude.{◌≡◌, ◌+◌, ◌<◌, ◌≤◌};
ghost use Rattle.ir_layout.specs.Memory.{lies_in, lies_in_global, lies_in_stack, is_valid, AreApart, IsStarted};

use crate::address_map::{AREA_SIZE, HEAP_START, STACK_SIZE, STACKS_START, THREAD_LIMIT};
use ir_core::Sym;

/// Where a global stands: so many bytes from its start on.
#[derive(Clone, Copy)]
pub(crate) struct Span {
    pub sym: Sym,
    pub start: u64,
    pub size: u64,
}

// Whether the bytes from `address` on lie among those from `start` on.
fn lies_in(start: u64, length: u64, address: u64, size: u64) -> bool
    ensures { result ≡ lies_in start length address size }
{
    start <= address && size <= length && address - start <= length - size
}

// How many globals start at an address or before it.
fn started(globals: &[Span], address: u64) -> usize
    requires { AreApart globals.now }
    ensures { IsStarted globals.now address result }
{
    let mut low = 0;
    let mut high = globals.len();
    while low < high {
        let middle = low + (high - low) / 2;
        if globals[middle].start <= address {
            low = middle + 1;
        } else {
            high = middle;
        }
    }
    low
}

// Whether an access lies in one global: in the last one that starts before it.
fn lies_in_global(globals: &[Span], address: u64, size: u64) -> bool
    requires apart { AreApart globals.now }
    requires some { 0 < size }
    ensures { result ≡ lies_in_global globals.now address size }
{
    let count = started(globals, address);
    if count == 0 {
        return false;
    }
    let last = globals[count - 1];
    lies_in(last.start, last.size, address, size)
}

// Whether an access lies in the stack region of one thread.
fn lies_in_stack(address: u64, size: u64) -> bool
    ensures { result ≡ lies_in_stack address size }
{
    let thread = address.saturating_sub(STACKS_START) / STACK_SIZE;
    thread < THREAD_LIMIT as u64
        && lies_in(
            STACKS_START + thread * STACK_SIZE,
            STACK_SIZE,
            address,
            size,
        )
}

/// Whether an access is valid.
pub(crate) fn is_valid(globals: &[Span], address: u64, size: u64) -> bool
    requires { AreApart globals.now }
    ensures { result ≡ is_valid globals.now address size }
{
    let sized = size == 1 || size == 2 || size == 4 || size == 8;
    sized
        && address % size == 0
        && (lies_in_global(globals, address, size)
            || lies_in_stack(address, size)
            || lies_in(HEAP_START, AREA_SIZE, address, size))
}
