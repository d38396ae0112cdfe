//! The areas of memory, and words in them.
ghost use Rattle.std.specs.Prelude.{◌≡◌, ◌+◌, ◌*◌, ◌^◌, ◌<◌, ◌≤◌, length};
ghost use Rattle.mem_image.specs.Accesses.{bytes};
ghost use Rattle.mem_image.specs.Bytes.{area_of, start_of, word_at, with_word};

use crate::Size;
use byteorder::{ByteOrder, LittleEndian};
use ir_layout::{GLOBALS_START, HEAP_START, STACKS_START};

/// Where the bytes of a valid access lie.
#[derive(Clone, Copy)]
pub(crate) enum Area {
    Globals,
    Stacks,
    Heap,
}

impl Area {
    /// The area that a valid address lies in.
    pub(crate) fn of(address: u64) -> Area
        ensures { result ≡ area_of address }
    {
        if address < STACKS_START {
            Area::Globals
        } else if address < HEAP_START {
            Area::Stacks
        } else {
            Area::Heap
        }
    }

    /// The address of the area's first byte.
    pub(crate) fn start(self) -> u64
        ensures { result ≡ start_of self }
    {
        match self {
            Area::Globals => GLOBALS_START,
            Area::Stacks => STACKS_START,
            Area::Heap => HEAP_START,
        }
    }
}

/// The word that stands in the bytes from a place on.
pub(crate) fn word_at(area: &[u8], at: usize, size: Size) -> u64
    requires { at + bytes size ≤ length area.now }
    ensures word { result ≡ word_at area.now at (bytes size) }
    ensures below { result < 2 ^ (8 * bytes size) }
{
    LittleEndian::read_uint(&area[at..], size.bytes() as usize)
}

/// Puts a word into the bytes from a place on.
pub(crate) fn put_word(area: &mut [u8], at: usize, size: Size, v: u64)
    requires within { at + bytes size ≤ length area.old }
    requires fits { v < 2 ^ (8 * bytes size) }
    ensures { area.new ≡ with_word area.old at (bytes size) v }
{
    LittleEndian::write_uint(&mut area[at..], v, size.bytes() as usize);
}
