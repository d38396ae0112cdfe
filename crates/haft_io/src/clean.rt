//! Devices in memory that never fail.
ghost use Rattle.std.specs.Prelude.{◌≡◌, ◌≤◌, ◌<◌, [], Ok, Some, length, take, drop, min, IfOk};
ghost use Rattle.haft_io.specs.Memory.{left_in, read_on, told_after};

use crate::{Failed, Inputs, Sink, Which};
use std::alloc::{AllocError, Global};
use std::marker::Model;

// The bytes of a file, and how many of them were read. Contracts see those that are left.
#[derive(Drop)]
struct Unread {
    bytes: Vec<u8>,
    done: usize,
}

impl Model for Unread {
    ghost use Rattle.std.specs.Prelude.{ℕ, List, ◌≤◌, drop, vec_len};

    ghost Value = { List ℕ };

    ghost view = { λ u. drop u.done u.bytes.items };

    ghost invariant = { λ u. u.done ≤ vec_len u.bytes };
}

impl Unread {
    fn new(bytes: Vec<u8>) -> Unread
        ensures { result ≡ bytes.items }
    {
        Unread { bytes, done: 0 }
    }

    // Gives as many bytes as are left and the buffer holds.
    fn read(&mut self, buf: &mut [u8]) -> usize
        ensures count { result ≡ min (length self.old) (length buf.old) }
        ensures bytes { take result buf.new ≡ take result self.old }
        ensures rest { self.new ≡ drop result self.old }
    {
        let left = &self.bytes[self.done..];
        let count = left.len().min(buf.len());
        buf[..count].copy_from_slice(&left[..count]);
        self.done += count;
        count
    }
}

/// Two files in memory whose reads never fail.
#[derive(Drop)]
pub struct CleanInputs {
    first: Unread,
    second: Unread,
}

impl Model for CleanInputs {
    ghost use Rattle.haft_io.specs.Memory.{CleanFiles};

    ghost Value = { CleanFiles };

    ghost view = { λ c. record { first = c.first; second = c.second } };
}

impl CleanInputs {
    /// Two files with these bytes. Each vector keeps its own allocator.
    pub fn new(_alloc: Global, first: Vec<u8>, second: Vec<u8>) -> CleanInputs
        ensures { result ≡ record { first = first.items; second = second.items } }
    {
        CleanInputs {
            first: Unread::new(first),
            second: Unread::new(second),
        }
    }
}

impl Inputs for CleanInputs {
    ghost use Rattle.std.specs.Prelude.{Some};
    ghost use Rattle.haft_io.specs.Memory.{left_in};

    ghost left = { λ c which. Some (left_in c which) };

    ghost faults = { λ _ _. 0 };

    /// Gives as many bytes as are left and the buffer holds. It never fails.
    fn read(&mut self, which: Which, buf: &mut [u8]) -> Result<usize, Failed>
        requires { 0 < length buf.old }
        ensures answer { result ≡ Ok (min (length (left_in self.old which)) (length buf.old)) }
        ensures after { IfOk result (λ n. self.new ≡ read_on self.old which n) }
        ensures front { IfOk result (λ n. take n buf.new ≡ take n (left_in self.old which)) }
    {
        match which {
            Which::First => Ok(self.first.read(buf)),
            Which::Second => Ok(self.second.read(buf)),
        }
    }
}

/// A sink in memory whose writes never fail. Bytes that don't fit its room are lost, and from then
/// on it doesn't tell what was written.
#[derive(Drop)]
pub struct CleanSink {
    bytes: Vec<u8>,
    room: usize,
    step: usize,
    lost: bool,
}

impl Model for CleanSink {
    ghost use Rattle.std.specs.Prelude.{◌≤◌, Some, None, vec_len, vec_capacity, if◌then◌else◌};
    ghost use Rattle.haft_io.specs.Memory.{CleanWritten};

    ghost Value = { CleanWritten };

    ghost view = { λ s. record {
      told = (if s.lost then None else Some s.bytes.items);
      room = s.room;
      step = s.step;
    } };

    ghost invariant = { λ s.
        (1 ≤ s.step) × (vec_len s.bytes ≤ s.room) × (s.room ≤ vec_capacity s.bytes) };
}

impl CleanSink {
    /// An empty sink with room for this many bytes, which it reserves. A write takes at most `step`
    /// bytes.
    pub fn new(alloc: Global, step: usize, room: usize) -> Result<CleanSink, AllocError>
        requires { 1 ≤ step }
        ensures { IfOk result (λ sink. sink ≡ record { told = Some []; room = room; step = step }) }
    {
        Ok(CleanSink {
            bytes: Vec::with_capacity(alloc, room)?,
            room,
            step,
            lost: false,
        })
    }
}

impl Sink for CleanSink {
    ghost written = { λ s. s.told };

    ghost faults = { λ _. 0 };

    /// Takes the lesser of the step and the bytes' length. It never fails.
    fn write(&mut self, bytes: &[u8]) -> Result<usize, Failed>
        requires { 0 < length bytes.now }
        ensures some { IfOk result (λ n. 1 ≤ n) }
        ensures answer { result ≡ Ok (min self.old.step (length bytes.now)) }
        ensures after { IfOk result (λ n. self.new ≡ record self.old {
          told = told_after self.old.room self.old.told (take n bytes.now);
        }) }
    {
        let taken = self.step.min(bytes.len());
        if taken > self.room - self.bytes.len() {
            self.lost = true;
        }
        if !self.lost {
            self.bytes.extend_from_slice(&bytes[..taken]).unwrap();
        }
        Ok(taken)
    }
}
