//! The world, and what externals ask of it.
ghost use Rattle.std.specs.Prelude.{◌≡◌, IfOk, OnOk, OnErr, slice_index_or};
ghost use Rattle.std.specs.Option.{is_some};
ghost use Rattle.inst_meaning.specs.declared.actions.Reply.TheVariants.{Answers};
ghost use Rattle.inst_meaning.specs.declared.actions.Request.TheVariants.{Lock, Unlock, Allocate};
ghost use Rattle.inst_meaning.specs.Phis.{assigned};
ghost use Rattle.inst_meaning.specs.World.{opening_world, given_out, heap_next, asked_of, given_to, owner_of};

use crate::{Cause, Registers, Reply, Request};
use ir_core::{Loc, Out, Outs, Seq, Tid};
use ir_layout::{AREA_SIZE, HEAP_START};
use std::alloc::{AllocError, Global};
use std::collections::BTreeMap;
use std::marker::Model;

const HEAP_END: u64 = HEAP_START + AREA_SIZE;

/// Who owns which lock, how far the heap is given out, what the run was given and what it gave out. Contracts see these four.
#[derive(Drop)]
pub struct World {
    owners: BTreeMap<u64, u32>,
    heap_mark: u64,
    arguments: Vec<u64>,
    outputs: Vec<Out>,
}

impl Model for World {
    ghost use Rattle.std.specs.Prelude.{◌+◌, ◌≤◌};
    ghost use Rattle.ir_layout.specs.Memory.{area_size, heap_start};
    ghost use Rattle.inst_meaning.specs.World.{WorldParts};

    ghost Value = { WorldParts };

    ghost view = { λ w. record {
      owners = w.owners.entries;
      heap_mark = w.heap_mark;
      arguments = w.arguments.items;
      outputs = w.outputs.items;
    } };

    ghost invariant = { λ w. w.heap_mark ≤ heap_start + area_size };
}

impl World {
    /// Nobody owns anything, and nothing was given out.
    pub fn new(alloc: Global, arguments: &[u64]) -> Result<World, AllocError>
        ensures { IfOk result (λ world. world ≡ opening_world arguments.now) }
    {
        let arguments = Vec::from_slice(alloc, arguments)?;
        Ok(World {
            owners: BTreeMap::new(alloc),
            heap_mark: HEAP_START,
            arguments,
            outputs: Vec::new(alloc),
        })
    }

    /// Whether a lock has an owner.
    pub fn is_owned(&self, address: u64) -> bool
        ensures { result ≡ is_some (owner_of self.now.owners address) }
    {
        self.owners.contains_key(&address)
    }

    /// What the run gave out so far.
    pub fn outputs(&self) -> &[Out]
        ensures { result.now ≡ self.now.outputs }
    {
        self.outputs.as_slice()
    }

    /// What the run gave out. It takes no memory.
    pub fn into_outputs(self) -> Outs
        ensures { result ≡ self.outputs }
    {
        let World { outputs, .. } = self;
        Seq::from_vec(outputs)
    }

    // Gives something out, and the call's result is a word.
    fn give_out(
        &mut self,
        out: Out,
        word: u64,
        registers: &mut Registers,
        dst: Option<Loc>,
    ) -> Result<Reply, AllocError>
        ensures reply { IfOk result (λ reply. reply ≡ (given_out out word self.old).1) }
        ensures world { OnOk result (self.new ≡ (given_out out word self.old).0) }
        ensures registers { IfOk result (λ reply. registers.new ≡ given_to dst reply registers.old) }
        ensures unchanged { OnErr result ((self.new ≡ self.old) × (registers.new ≡ registers.old)) }
    {
        self.outputs.push(out)?;
        if let Err(error) = registers.assign(dst, u128::from(word)) {
            let _ = self.outputs.pop();
            return Err(error);
        }
        Ok(Reply::Answers(word))
    }

    // The call is done, and its result is a word.
    fn answer(registers: &mut Registers, dst: Option<Loc>, word: u64) -> Result<Reply, AllocError>
        ensures reply { IfOk result (λ reply. reply ≡ Answers word) }
        ensures registers { OnOk result (registers.new ≡ assigned dst word registers.old) }
        ensures unchanged { OnErr result (registers.new ≡ registers.old) }
    {
        registers.assign(dst, u128::from(word))?;
        Ok(Reply::Answers(word))
    }

    // A lock is taken, unless it has an owner.
    fn lock(
        &mut self,
        address: u64,
        thread: Tid,
        registers: &mut Registers,
        dst: Option<Loc>,
    ) -> Result<Reply, AllocError>
        ensures reply { IfOk result (λ reply. reply ≡ (asked_of (Lock address) thread.0 self.old).1) }
        ensures world { OnOk result (self.new ≡ (asked_of (Lock address) thread.0 self.old).0) }
        ensures registers { IfOk result (λ reply. registers.new ≡ given_to dst reply registers.old) }
        ensures unchanged { OnErr result ((self.new ≡ self.old) × (registers.new ≡ registers.old)) }
    {
        if self.owners.contains_key(&address) {
            return Ok(Reply::Waits);
        }
        self.owners.insert(address, thread.0)?;
        if let Err(error) = registers.assign(dst, 0) {
            let _ = self.owners.remove(&address);
            return Err(error);
        }
        Ok(Reply::Answers(0))
    }

    // A lock is given back by its owner.
    fn unlock(
        &mut self,
        address: u64,
        thread: Tid,
        registers: &mut Registers,
        dst: Option<Loc>,
    ) -> Result<Reply, AllocError>
        ensures reply { IfOk result (λ reply. reply ≡ (asked_of (Unlock address) thread.0 self.old).1) }
        ensures world { OnOk result (self.new ≡ (asked_of (Unlock address) thread.0 self.old).0) }
        ensures registers { IfOk result (λ reply. registers.new ≡ given_to dst reply registers.old) }
        ensures unchanged { OnErr result ((self.new ≡ self.old) × (registers.new ≡ registers.old)) }
    {
        let held = match self.owners.get(&address) {
            Some(owner) => *owner == thread.0,
            None => false,
        };
        if !held {
            return Ok(Reply::Refuses(Cause::Unlock));
        }
        registers.assign(dst, 0)?;
        let _ = self.owners.remove(&address);
        Ok(Reply::Answers(0))
    }

    // The heap from its mark on, at a multiple of 16.
    fn heap_next(&self) -> u64
        ensures { result ≡ heap_next self.now }
    {
        self.heap_mark.next_multiple_of(16)
    }

    // So many bytes of the heap are given out, where they fit.
    fn allocate(
        &mut self,
        size: u64,
        registers: &mut Registers,
        dst: Option<Loc>,
    ) -> Result<Reply, AllocError>
        ensures reply { IfOk result (λ reply. reply ≡ (asked_of (Allocate size) 0 self.old).1) }
        ensures world { OnOk result (self.new ≡ (asked_of (Allocate size) 0 self.old).0) }
        ensures registers { IfOk result (λ reply. registers.new ≡ given_to dst reply registers.old) }
        ensures unchanged { OnErr result ((self.new ≡ self.old) × (registers.new ≡ registers.old)) }
    {
        let start = self.heap_next();
        if size > HEAP_END - start {
            return World::answer(registers, dst, 0);
        }
        let reply = World::answer(registers, dst, start)?;
        self.heap_mark = start + size;
        Ok(reply)
    }

    // The argument with this number, and 0 past the last.
    fn argument(&self, n: u64) -> u64
        ensures { result ≡ slice_index_or self.now.arguments n 0 }
    {
        match usize::try_from(n) {
            Ok(place) => self.arguments.get(place).copied().unwrap_or(0),
            Err(_) => 0,
        }
    }

    /// Asks for something in a thread's name. Where that is answered, the answer goes to a register, if there is one for it. A
    /// request that waits or is refused changes nothing, and so does want of memory.
    pub fn ask(
        &mut self,
        request: Request,
        thread: Tid,
        registers: &mut Registers,
        dst: Option<Loc>,
    ) -> Result<Reply, AllocError>
        ensures reply { IfOk result (λ reply. reply ≡ (asked_of request thread.0 self.old).1) }
        ensures world { OnOk result (self.new ≡ (asked_of request thread.0 self.old).0) }
        ensures registers { IfOk result (λ reply. registers.new ≡ given_to dst reply registers.old) }
        ensures unchanged { OnErr result ((self.new ≡ self.old) × (registers.new ≡ registers.old)) }
    {
        match request {
            Request::Lock(address) => self.lock(address, thread, registers, dst),
            Request::Unlock(address) => self.unlock(address, thread, registers, dst),
            Request::Put(n) => {
                let byte = (n % 256) as u8;
                self.give_out(Out::Put(byte), u64::from(byte), registers, dst)
            }
            Request::Output(n) => self.give_out(Out::Num(n), 0, registers, dst),
            Request::Allocate(size) => self.allocate(size, registers, dst),
            Request::Free => World::answer(registers, dst, 0),
            Request::Argument(n) => World::answer(registers, dst, self.argument(n)),
        }
    }
}
