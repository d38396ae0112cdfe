//! Buffers of written bytes, a line each.
ghost use Rattle.std.specs.Prelude.{◌≡◌, ◌+◌, ◌*◌, ◌^◌, ◌<◌, ◌≤◌, None, [], ◌∷◌, length, replicate};
ghost use Rattle.byteorder.specs.Endian.{little_number};
ghost use Rattle.mem_image.specs.Accesses.{bytes};
ghost use Rattle.mem_image.specs.Lines.{line_size, marked_with, written_in};
ghost use Rattle.mem_image.specs.Views.{overlaid, view};
ghost use Rattle.rtm_core.specs.code.Slots.{held_in};

use byteorder::{ByteOrder, LittleEndian};
use mem_image::{Image, Size};
use std::marker::Model;

const BYTES: usize = 64;

/// The bytes of a line that were written. Contracts see a list of 64 bytes that are there or not.
#[derive(Drop)]
pub(crate) struct Buffer {
    bytes: [Option<u8>; 64],
}

impl Model for Buffer {
    ghost use Rattle.std.specs.Prelude.{ℕ, ◌≡◌, List, Option, length};
    ghost use Rattle.mem_image.specs.Lines.{line_size};

    ghost Value = { List (Option ℕ) };

    ghost view = { λ b. b.bytes };

    ghost invariant = { λ b. length b.bytes ≡ line_size };
}

impl Buffer {
    /// A buffer in which nothing is written.
    pub(crate) fn new() -> Buffer
        ensures { result ≡ replicate line_size None }
    {
        Buffer {
            bytes: [None; BYTES],
        }
    }

    /// Forgets what is written.
    pub(crate) fn clear(&mut self)
        ensures { self.new ≡ replicate line_size None }
    {
        self.bytes = [None; BYTES];
    }

    /// Writes a word from a place on, its lowest byte first.
    pub(crate) fn store(&mut self, at: usize, size: Size, word: u64)
        requires { at + bytes size ≤ line_size }
        ensures { self.new ≡ marked_with self.old at (bytes size) word }
    {
        let word = word.to_le_bytes();
        for k in 0..size.bytes() as usize {
            self.bytes[at + k] = Some(word[k]);
        }
    }

    /// The word of some bytes from a place of the line on, with those that are written in place of the old ones.
    pub(crate) fn word(&self, at: usize, old: &[u8]) -> u64
        requires within { at + length old.now ≤ line_size }
        requires few { length old.now ≤ 8 }
        requires some { 1 ≤ length old.now }
        ensures word { result ≡ little_number (length old.now) (overlaid (held_in self.now) at old.now) }
        ensures below { result < 2 ^ (8 * length old.now) }
    {
        let mut word = [0u8; 8];
        for k in 0..old.len() {
            word[k] = self.bytes[at + k].unwrap_or(old[k]);
        }
        LittleEndian::read_uint(&word, old.len())
    }

    /// Puts what is written in a line into memory.
    pub(crate) fn commit(&self, image: &mut Image, line: u64)
        ensures { image.new ≡ view image.old (written_in (record { number = line; bytes = self.now } ∷ [])) }
    {
        for k in 0..BYTES {
            if let Some(byte) = self.bytes[k] {
                image.put_byte(line, k as u64, byte);
            }
        }
    }
}
