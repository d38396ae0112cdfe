//! An image of memory, read and written.
ghost use Rattle.std.specs.Prelude.{◌≡◌, ◌+◌, ◌*◌, ◌^◌, ◌<◌, ◌≤◌, None, IfOk, IfSome, length, unwrap_or};
ghost use Rattle.std.specs.Option.{is_some, option_copied};
ghost use Rattle.ir_layout.specs.Memory.{area_size, is_valid, layout_of};
ghost use Rattle.ir_layout.specs.Limits.{first_limit};
ghost use Rattle.mem_image.specs.Accesses.{bytes};
ghost use Rattle.mem_image.specs.Bytes.{IsWhole, byte_place, bytes_in, bytes_of, place_of_access, read_of, written};
ghost use Rattle.mem_image.specs.Lines.{line_size};
ghost use Rattle.mem_image.specs.Opening.{opening};
ghost use Rattle.mem_image.specs.Views.{one_byte, view};

use crate::areas::{Area, put_word, word_at};
use crate::{Size, opening};
use ir_core::Module;
use ir_layout::{AREA_SIZE, GlobalPlaces, Layout};
use std::alloc::{AllocError, Global};
use std::marker::Model;

/// How many bytes a line of memory has.
pub const LINE_SIZE: u64 = 64;

/// The memory of a program. Contracts see the places of its globals and the bytes of its areas.
#[derive(Drop)]
pub struct Image {
    places: GlobalPlaces,
    globals: Vec<u8>,
    stacks: Vec<u8>,
    heap: Vec<u8>,
}

impl Model for Image {
    ghost use Rattle.mem_image.specs.Bytes.{Memory, IsWhole};

    ghost Value = { Memory };

    ghost view = { λ i. record {
      places = i.places;
      globals = i.globals.items;
      stacks = i.stacks.items;
      heap = i.heap.items;
    } };

    ghost invariant = { λ i. IsWhole (record {
      places = i.places;
      globals = i.globals.items;
      stacks = i.stacks.items;
      heap = i.heap.items;
    }) };
}

impl Image {
    /// The memory that a run of the module begins with, at its layout. It takes three areas of memory.
    pub fn new(alloc: Global, m: &Module, l: &Layout) -> Result<Image, AllocError>
        requires layout { l.now ≡ layout_of m.now }
        requires fits { first_limit m.now ≡ None }
        ensures { IfOk result (λ image. image ≡ opening l.now m.now.globals) }
    {
        let places = l.global_places(alloc)?;
        let mut globals = opening::global_bytes(alloc, l, m)?;
        opening::fit(&mut globals, AREA_SIZE)?;
        let stacks = opening::zeroes(alloc, AREA_SIZE as usize)?;
        let heap = opening::zeroes(alloc, AREA_SIZE as usize)?;
        Ok(Image {
            places,
            globals,
            stacks,
            heap,
        })
    }

    /// The same memory once more. It takes three areas of memory.
    pub fn copy(&self, alloc: Global) -> Result<Image, AllocError>
        ensures { IfOk result (λ image. image ≡ self.now) }
    {
        let places = self.places.copy(alloc)?;
        let globals = Vec::from_slice(alloc, self.globals.as_slice())?;
        let stacks = Vec::from_slice(alloc, self.stacks.as_slice())?;
        let heap = Vec::from_slice(alloc, self.heap.as_slice())?;
        Ok(Image {
            places,
            globals,
            stacks,
            heap,
        })
    }

    // The bytes of an area.
    fn area(&self, area: Area) -> &[u8]
        ensures bytes { result.now ≡ bytes_in self.now area }
        ensures length { length result.now ≡ area_size }
    {
        match area {
            Area::Globals => self.globals.as_slice(),
            Area::Stacks => self.stacks.as_slice(),
            Area::Heap => self.heap.as_slice(),
        }
    }

    // The area of a valid access, and how far behind its start the access stands.
    #[tactic(auto, using(crate::proofs::Inside::valid_inside))]
    fn place(&self, addr: u64, size: Size) -> Option<(Area, usize)>
        ensures place { result ≡ place_of_access self.now.places addr (bytes size) }
        ensures within { IfSome result (λ place. place.1 + bytes size ≤ area_size) }
    {
        if !self.places.valid(addr, size.bytes()) {
            return None;
        }
        let area = Area::of(addr);
        let at = (addr - area.start()) as usize;
        Some((area, at))
    }

    /// Whether an access is valid. Memory is whole, whatever the answer.
    pub fn valid(&self, addr: u64, size: Size) -> bool
        ensures valid { result ≡ is_valid self.now.places addr (bytes size) }
        ensures whole { IsWhole self.now }
    {
        self.places.valid(addr, size.bytes())
    }

    /// The bytes of an access, or `None` exactly where the access isn't valid.
    pub fn bytes(&self, addr: u64, size: Size) -> Option<&[u8]>
        ensures { option_copied result ≡ bytes_of self.now addr (bytes size) }
    {
        let (area, at) = self.place(addr, size)?;
        Some(&self.area(area)[at..at + size.bytes() as usize])
    }

    // The area of a byte of a line, and how far behind the area's start it stands, if the area has it.
    fn byte_place(&self, line: u64, offset: u64) -> Option<(Area, usize)>
        requires { offset < line_size }
        ensures place { result ≡ byte_place (line * line_size + offset) }
        ensures within { IfSome result (λ place. place.1 < area_size) }
        ensures whole { IsWhole self.now }
    {
        let size = self.globals.len();
        let addr = line.checked_mul(LINE_SIZE)? + offset;
        let area = Area::of(addr);
        let at = addr.checked_sub(area.start())? as usize;
        if at >= size {
            return None;
        }
        Some((area, at))
    }

    /// Puts a byte where it stands in a line of 64 bytes, if an area of memory has that place.
    pub fn put_byte(&mut self, line: u64, offset: u64, byte: u8)
        requires { offset < line_size }
        ensures { self.new ≡ view self.old (one_byte (line * line_size + offset) byte) }
    {
        match self.byte_place(line, offset) {
            Some((Area::Globals, at)) => self.globals[at] = byte,
            Some((Area::Stacks, at)) => self.stacks[at] = byte,
            Some((Area::Heap, at)) => self.heap[at] = byte,
            None => {}
        }
    }

    /// The word of an access, its lowest byte first, or `None` exactly where the access isn't valid.
    pub fn read(&self, addr: u64, size: Size) -> Option<u64>
        ensures word { result ≡ read_of self.now addr (bytes size) }
        ensures below { IfSome result (λ word. word < 2 ^ (8 * bytes size)) }
    {
        let (area, at) = self.place(addr, size)?;
        Some(word_at(self.area(area), at, size))
    }

    /// Puts a word where an access goes, its lowest byte first. Where the access isn't valid the answer is `false`, and nothing
    /// changes.
    pub fn write(&mut self, addr: u64, size: Size, v: u64) -> bool
        requires { v < 2 ^ (8 * bytes size) }
        ensures valid { result ≡ is_some (written self.old addr (bytes size) v) }
        ensures memory { self.new ≡ unwrap_or (written self.old addr (bytes size) v) self.old }
    {
        let Some((area, at)) = self.place(addr, size) else {
            return false;
        };
        match area {
            Area::Globals => put_word(&mut self.globals, at, size, v),
            Area::Stacks => put_word(&mut self.stacks, at, size, v),
            Area::Heap => put_word(&mut self.heap, at, size, v),
        }
        true
    }
}
