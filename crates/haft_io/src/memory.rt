//! Devices in memory whose calls fail as a list says.
ghost use Rattle.std.specs.Prelude.{◌≡◌, ◌≤◌, ◌<◌, ◌-◌, ◌||◌, [], ◌++◌, length, take, min, is_err, nat_le, IfOk, OnErr};
ghost use Rattle.haft_io.specs.Device.{counted};
ghost use Rattle.haft_io.specs.Memory.{is_listed, left_in, faults_in, read_on, fault_in};

use crate::clean::CleanInputs;
use crate::{Failed, Inputs, Sink, Which};
use std::alloc::{AllocError, Global};
use std::marker::Model;

// Numbers the calls of a device from 1, and knows which of them fail.
#[derive(Drop)]
struct Plan {
    fail: Vec<u32>,
    calls: u64,
}

impl Plan {
    fn new(fail: Vec<u32>) -> Plan
        ensures fail { result.fail.items ≡ fail.items }
        ensures calls { result.calls ≡ 0 }
    {
        Plan { fail, calls: 0 }
    }

    // Whether the next call, which it counts, is one that fails.
    fn next_fails(&mut self) -> bool
        ensures answer { result ≡ is_listed self.old.fail.items (counted self.old.calls) }
        ensures calls { self.new.calls ≡ counted self.old.calls }
        ensures fail { self.new.fail.items ≡ self.old.fail.items }
    {
        self.calls = self.calls.saturating_add(1);
        let number = self.calls;
        self.fail.iter().any(|&n| n as u64 == number)
    }
}

/// Two files in memory, and the numbers of the reads that fail.
#[derive(Drop)]
pub struct MemInputs {
    files: CleanInputs,
    plan: Plan,
    first_faults: u64,
    second_faults: u64,
}

impl Model for MemInputs {
    ghost use Rattle.haft_io.specs.Memory.{FaultyFiles};

    ghost Value = { FaultyFiles };

    ghost view = { λ m. record {
      files = m.files;
      fail = m.plan.fail.items;
      reads = m.plan.calls;
      first_faults = m.first_faults;
      second_faults = m.second_faults;
    } };
}

impl MemInputs {
    /// Two files with these bytes. `fail` names by number, from 1, the reads that fail, those of both
    /// files numbered together. Each vector keeps its own allocator.
    pub fn new(alloc: Global, first: Vec<u8>, second: Vec<u8>, fail: Vec<u32>) -> MemInputs
        ensures { result ≡ record {
          files = record { first = first.items; second = second.items };
          fail = fail.items;
          reads = 0;
          first_faults = 0;
          second_faults = 0;
        } }
    {
        MemInputs {
            files: CleanInputs::new(alloc, first, second),
            plan: Plan::new(fail),
            first_faults: 0,
            second_faults: 0,
        }
    }

    fn count_fault(&mut self, which: Which)
        ensures counted { self.new ≡ fault_in self.old which }
        ensures never_falls { faults_in self.old which ≤ faults_in self.new which }
    {
        match which {
            Which::First => self.first_faults = self.first_faults.saturating_add(1),
            Which::Second => self.second_faults = self.second_faults.saturating_add(1),
        }
    }
}

impl Inputs for MemInputs {
    ghost use Rattle.std.specs.Prelude.{Some};
    ghost use Rattle.haft_io.specs.Memory.{left_in, faults_in};

    ghost left = { λ m which. Some (left_in m.files which) };

    ghost faults = { faults_in };

    /// Gives as many bytes as are left and the buffer holds. It fails, and is counted, exactly where
    /// the list says so.
    fn read(&mut self, which: Which, buf: &mut [u8]) -> Result<usize, Failed>
        requires { 0 < length buf.old }
        ensures fails { is_err result ≡ is_listed self.old.fail (counted self.old.reads) }
        ensures count { IfOk result (λ n.
            n ≡ min (length (left_in self.old.files which)) (length buf.old)) }
        ensures ok { IfOk result (λ n. self.new ≡ record self.old {
          files = read_on self.old.files which n;
          reads = counted self.old.reads;
        }) }
        ensures err { OnErr result (self.new ≡ record (fault_in self.old which) {
          reads = counted self.old.reads;
        }) }
        ensures front { IfOk result (λ n. take n buf.new ≡ take n (left_in self.old.files which)) }
        ensures never_falls { faults_in self.old which ≤ faults_in self.new which }
    {
        if self.plan.next_fails() {
            self.count_fault(which);
            return Err(Failed);
        }
        self.files.read(which, buf)
    }
}

/// A sink in memory, and the numbers of the writes that fail. It never grows.
#[derive(Drop)]
pub struct MemSink {
    bytes: Vec<u8>,
    room: usize,
    step: usize,
    plan: Plan,
    faults: u64,
}

impl Model for MemSink {
    ghost use Rattle.std.specs.Prelude.{◌≤◌, vec_len, vec_capacity};
    ghost use Rattle.haft_io.specs.Memory.{FaultyWritten};

    ghost Value = { FaultyWritten };

    ghost view = { λ s. record {
      bytes = s.bytes.items;
      room = s.room;
      step = s.step;
      fail = s.plan.fail.items;
      writes = s.plan.calls;
      faults = s.faults;
    } };

    ghost invariant = { λ s.
        (1 ≤ s.step) × (vec_len s.bytes ≤ s.room) × (s.room ≤ vec_capacity s.bytes) };
}

impl MemSink {
    /// An empty sink with room for this many bytes, which it reserves. A write takes at most `step`
    /// bytes. `fail` names by number, from 1, the writes that fail.
    pub fn new(
        alloc: Global,
        step: usize,
        fail: Vec<u32>,
        room: usize,
    ) -> Result<MemSink, AllocError>
        requires { 1 ≤ step }
        ensures { IfOk result (λ sink. sink ≡ record {
          bytes = [];
          room = room;
          step = step;
          fail = fail.items;
          writes = 0;
          faults = 0;
        }) }
    {
        Ok(MemSink {
            bytes: Vec::with_capacity(alloc, room)?,
            room,
            step,
            plan: Plan::new(fail),
            faults: 0,
        })
    }

    /// The bytes written. It takes no memory.
    pub fn bytes(&self) -> &[u8]
        ensures { result.now ≡ self.now.bytes }
    {
        self.bytes.as_slice()
    }
}

impl Sink for MemSink {
    ghost use Rattle.std.specs.Prelude.{Some};

    ghost written = { λ s. Some s.bytes };

    ghost faults = { λ s. s.faults };

    /// Takes the least of the step, the bytes' length and the room left. It fails, and is counted,
    /// exactly where the list says so or no room is left.
    fn write(&mut self, bytes: &[u8]) -> Result<usize, Failed>
        requires { 0 < length bytes.now }
        ensures fails { is_err result ≡
            (is_listed self.old.fail (counted self.old.writes)
            || nat_le self.old.room (length self.old.bytes)) }
        ensures count { IfOk result (λ n.
            n ≡ min (min self.old.step (length bytes.now)) (self.old.room - length self.old.bytes)) }
        ensures ok { IfOk result (λ n. self.new ≡ record self.old {
          bytes = self.old.bytes ++ take n bytes.now;
          writes = counted self.old.writes;
        }) }
        ensures err { OnErr result (self.new ≡ record self.old {
          writes = counted self.old.writes;
          faults = counted self.old.faults;
        }) }
        ensures some { IfOk result (λ n. 1 ≤ n) }
        ensures never_falls { self.old.faults ≤ self.new.faults }
    {
        let room = self.room - self.bytes.len();
        if self.plan.next_fails() || room == 0 {
            self.faults = self.faults.saturating_add(1);
            return Err(Failed);
        }
        let taken = self.step.min(bytes.len()).min(room);
        self.bytes.extend_from_slice(&bytes[..taken]).unwrap();
        Ok(taken)
    }
}
