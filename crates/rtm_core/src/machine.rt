//! Memory with the transactions of 64 threads.
ghost use Rattle.std.specs.Prelude.{◌≡◌, ◌+◌, ◌*◌, ◌^◌, ◌<◌, ◌≤◌, ◌++◌, true, false, None, Some, IfOk, IfSome, IsOk, OnErr, is_some, replicate, vec_len, vec_capacity};
ghost use Rattle.ir_layout.specs.Memory.{is_valid, thread_limit};
ghost use Rattle.mem_image.specs.Accesses.{bytes};
ghost use Rattle.mem_image.specs.Bytes.{read_of};
ghost use Rattle.rtm_core.specs.Calls.{touch_of, store_of, store_at, reading, writing, updating, got_of, conflict_aborts, AreThreads};
ghost use Rattle.rtm_core.specs.Transactions.{thread, seen_by, begun, committed, aborted, kept_of, has_room_in, done_in, entry_of, after, aborts_at, word_seen};

use crate::conflicts::strike_others;
use crate::slots::Slot;
use crate::{Aborted, Access, Got};
use ir_core::Tid;
use ir_layout::THREAD_LIMIT;
use mem_image::{Image, Size};
use std::alloc::{AllocError, Global};
use std::marker::Model;

/// Memory with a transaction for each of 64 threads, or none. Contracts see the memory and the transactions.
#[derive(Drop)]
pub struct Rtm<C> {
    image: Image,
    slots: Vec<Slot<C>>,
}

impl<C> Model for Rtm<C> {
    ghost use Rattle.std.specs.Prelude.{length, ◌≡◌};
    ghost use Rattle.ir_layout.specs.Memory.{thread_limit};
    ghost use Rattle.std.specs.Coded.{codes};
    ghost use Rattle.rtm_core.specs.Calls.{rtm_code};
    ghost use Rattle.rtm_core.specs.Transactions.{RtmParts};

    ghost Value = { RtmParts C };

    ghost coded = { rtm_code (Prim.hlevel codes) (Prim.hlevel codes) C.code };

    ghost view = { λ r. record { memory = r.image; threads = r.slots.items } };

    ghost invariant = { λ r. length r.slots.items ≡ thread_limit };
}

impl<C: Drop> Rtm<C> {
    /// This memory, with no transaction open. It takes all memory that transactions ever need.
    pub fn new(alloc: Global, image: Image) -> Result<Self, AllocError>
        ensures { IfOk result (λ rtm. rtm ≡ record { memory = image; threads = replicate thread_limit None }) }
    {
        let mut slots = Vec::with_capacity(alloc, THREAD_LIMIT)?;
        'threads: for _turn in 0..THREAD_LIMIT {
            slots.push(Slot::new(alloc)?)?;
        }
        Ok(Rtm { image, slots })
    }

    /// Begins a transaction of a thread that has none. It always can.
    pub fn xbegin(&mut self, t: Tid, keep: C)
        requires thread { t.0 < thread_limit }
        requires outside { is_some (thread self.old t.0) ≡ false }
        ensures { self.new ≡ begun self.old t.0 keep }
    {
        self.slots[t.0 as usize].begin(keep);
    }

    /// Whether a thread is inside a transaction.
    pub fn xtest(&self, t: Tid) -> bool
        requires { t.0 < thread_limit }
        ensures { result ≡ is_some (thread self.now t.0) }
    {
        self.slots[t.0 as usize].is_open()
    }

    /// The word of an access as a thread sees it, or `None` exactly where the access isn't valid. No line is added.
    pub fn peek(&self, t: Tid, addr: u64, size: Size) -> Option<u64>
        requires { t.0 < thread_limit }
        ensures word { result ≡ read_of (seen_by self.now t.0) addr (bytes size) }
        ensures below { IfSome result (λ word. word < 2 ^ (8 * bytes size)) }
    {
        self.slots[t.0 as usize].read(&self.image, addr, size)
    }

    /// Ends a thread's transaction: what the thread saw is now memory, in one step. Gives what was kept when it began.
    pub fn xend(&mut self, t: Tid) -> C
        requires thread { t.0 < thread_limit }
        requires inside { is_some (thread self.old t.0) ≡ true }
        ensures kept { Some result ≡ kept_of (thread self.old t.0) }
        ensures parts { self.new ≡ committed self.old t.0 }
    {
        self.slots[t.0 as usize].commit(&mut self.image).unwrap()
    }

    /// Aborts a thread's transaction with a status: what it did is forgotten. Gives what was kept when it began.
    pub fn xabort(&mut self, t: Tid, status: u32) -> Aborted<C>
        requires thread { t.0 < thread_limit }
        requires inside { is_some (thread self.old t.0) ≡ true }
        ensures thread { result.tid ≡ t }
        ensures status { result.status ≡ status }
        ensures kept { Some result.keep ≡ kept_of (thread self.old t.0) }
        ensures parts { self.new ≡ aborted self.old t.0 }
    {
        let keep = self.slots[t.0 as usize].abort().unwrap();
        Aborted {
            tid: t,
            status,
            keep,
        }
    }

    // Does a valid access that answers a word, and aborts every other transaction that it conflicts with, unless the thread's own has
    // no room.
    fn access(
        &mut self,
        t: Tid,
        access: &Access,
        store: Option<u64>,
        answer: u64,
        out: &mut Vec<Aborted<C>>,
    ) -> Result<Got, AllocError>
        requires thread { t.0 < thread_limit }
        requires valid { is_valid self.old.memory.places access.now.addr (bytes access.now.size) ≡ true }
        requires writes { IfSome store (λ _. access.now.writes ≡ true) }
        requires fits { IfSome store (λ word. word < 2 ^ (8 * bytes access.now.size)) }
        ensures got { IfOk result (λ got. got ≡ got_of (entry_of self.old t.0 (touch_of access.now)) answer) }
        ensures parts { IfOk result (λ _. self.new ≡ after (entry_of self.old t.0 (touch_of access.now)) self.old t.0 (touch_of access.now) (store_of access.now store)) }
        ensures out { IfOk result (λ _. out.new.items ≡ out.old.items ++ conflict_aborts (aborts_at (entry_of self.old t.0 (touch_of access.now)) self.old t.0 (touch_of access.now))) }
        ensures unchanged { OnErr result ((self.new ≡ self.old) × (out.new.items ≡ out.old.items)) }
        ensures succeeds { vec_len out.old + thread_limit ≤ vec_capacity out.old → IsOk result }
        ensures capacity { vec_capacity out.old ≤ vec_capacity out.new }
        ensures threads { AreThreads out.old.items → AreThreads out.new.items }
    {
        if !self.slots[t.0 as usize].has_room(access) {
            return Ok(Got::Overflow);
        }
        out.reserve(THREAD_LIMIT)?;
        strike_others(&mut self.slots, t, access, out);
        self.done(t, access, store);
        Ok(Got::Value(answer))
    }

    // Does an access in what the thread sees.
    fn done(&mut self, t: Tid, access: &Access, store: Option<u64>)
        requires thread { t.0 < thread_limit }
        requires valid { is_valid self.old.memory.places access.now.addr (bytes access.now.size) ≡ true }
        requires writes { IfSome store (λ _. access.now.writes ≡ true) }
        requires fits { IfSome store (λ word. word < 2 ^ (8 * bytes access.now.size)) }
        requires room { has_room_in (touch_of access.now) (thread self.old t.0) ≡ true }
        ensures { self.new ≡ done_in self.old t.0 (touch_of access.now) (store_of access.now store) (thread self.old t.0) }
    {
        let slot = &mut self.slots[t.0 as usize];
        if slot.is_open() {
            slot.touch(access, store);
        } else if let Some(word) = store {
            self.image.write(access.addr, access.size, word);
        }
    }

    /// Reads a word as a thread sees it. Inside a transaction its line is added to those that were read. Every other transaction that
    /// the access conflicts with is aborted first, and goes to `out` in order of threads. `Trap` comes exactly where the access isn't
    /// valid, `Overflow` exactly where the thread's transaction has no room for its line; then nothing changes. Where `out` has room for 64
    /// more it takes no memory.
    pub fn read(
        &mut self,
        t: Tid,
        addr: u64,
        size: Size,
        out: &mut Vec<Aborted<C>>,
    ) -> Result<Got, AllocError>
        requires { t.0 < thread_limit }
        ensures got { IfOk result (λ got. got ≡ got_of (entry_of self.old t.0 (reading addr (bytes size))) (word_seen self.old t.0 addr (bytes size))) }
        ensures parts { IfOk result (λ _. self.new ≡ after (entry_of self.old t.0 (reading addr (bytes size))) self.old t.0 (reading addr (bytes size)) None) }
        ensures out { IfOk result (λ _. out.new.items ≡ out.old.items ++ conflict_aborts (aborts_at (entry_of self.old t.0 (reading addr (bytes size))) self.old t.0 (reading addr (bytes size)))) }
        ensures unchanged { OnErr result ((self.new ≡ self.old) × (out.new.items ≡ out.old.items)) }
        ensures succeeds { vec_len out.old + thread_limit ≤ vec_capacity out.old → IsOk result }
        ensures capacity { vec_capacity out.old ≤ vec_capacity out.new }
        ensures threads { AreThreads out.old.items → AreThreads out.new.items }
    {
        let Some(word) = self.peek(t, addr, size) else {
            return Ok(Got::Trap);
        };
        let access = Access {
            addr,
            size,
            reads: true,
            writes: false,
        };
        self.access(t, &access, None, word, out)
    }

    /// Writes a word in what a thread sees. Inside a transaction its line is added to those that were written. Else as `read`.
    pub fn write(
        &mut self,
        t: Tid,
        addr: u64,
        size: Size,
        v: u64,
        out: &mut Vec<Aborted<C>>,
    ) -> Result<Got, AllocError>
        requires thread { t.0 < thread_limit }
        requires fits { v < 2 ^ (8 * bytes size) }
        ensures got { IfOk result (λ got. got ≡ got_of (entry_of self.old t.0 (writing addr (bytes size))) v) }
        ensures parts { IfOk result (λ _. self.new ≡ after (entry_of self.old t.0 (writing addr (bytes size))) self.old t.0 (writing addr (bytes size)) (Some (record { address = addr; size = bytes size; word = v }))) }
        ensures out { IfOk result (λ _. out.new.items ≡ out.old.items ++ conflict_aborts (aborts_at (entry_of self.old t.0 (writing addr (bytes size))) self.old t.0 (writing addr (bytes size)))) }
        ensures unchanged { OnErr result ((self.new ≡ self.old) × (out.new.items ≡ out.old.items)) }
        ensures succeeds { vec_len out.old + thread_limit ≤ vec_capacity out.old → IsOk result }
        ensures capacity { vec_capacity out.old ≤ vec_capacity out.new }
        ensures threads { AreThreads out.old.items → AreThreads out.new.items }
    {
        if !self.image.valid(addr, size) {
            return Ok(Got::Trap);
        }
        let access = Access {
            addr,
            size,
            reads: false,
            writes: true,
        };
        self.access(t, &access, Some(v), v, out)
    }

    /// Reads a word as a thread sees it, and puts another one there if it is given. It counts as a read and as a write, whether a word
    /// is given or not. Else as `read`.
    pub fn update(
        &mut self,
        t: Tid,
        addr: u64,
        size: Size,
        v: Option<u64>,
        out: &mut Vec<Aborted<C>>,
    ) -> Result<Got, AllocError>
        requires thread { t.0 < thread_limit }
        requires fits { IfSome v (λ v. v < 2 ^ (8 * bytes size)) }
        ensures got { IfOk result (λ got. got ≡ got_of (entry_of self.old t.0 (updating addr (bytes size))) (word_seen self.old t.0 addr (bytes size))) }
        ensures parts { IfOk result (λ _. self.new ≡ after (entry_of self.old t.0 (updating addr (bytes size))) self.old t.0 (updating addr (bytes size)) (store_at addr (bytes size) v)) }
        ensures out { IfOk result (λ _. out.new.items ≡ out.old.items ++ conflict_aborts (aborts_at (entry_of self.old t.0 (updating addr (bytes size))) self.old t.0 (updating addr (bytes size)))) }
        ensures unchanged { OnErr result ((self.new ≡ self.old) × (out.new.items ≡ out.old.items)) }
        ensures succeeds { vec_len out.old + thread_limit ≤ vec_capacity out.old → IsOk result }
        ensures capacity { vec_capacity out.old ≤ vec_capacity out.new }
        ensures threads { AreThreads out.old.items → AreThreads out.new.items }
    {
        let Some(word) = self.peek(t, addr, size) else {
            return Ok(Got::Trap);
        };
        let access = Access {
            addr,
            size,
            reads: true,
            writes: true,
        };
        self.access(t, &access, v, word, out)
    }
}
