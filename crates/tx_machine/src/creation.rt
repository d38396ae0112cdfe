//! Threads that are made and waited for, and calls that are done.
ghost use Rattle.std.specs.Prelude.{◌≡◌, ◌+◌, ◌-◌, ◌<◌, ◌^◌, length, take, IfSome, OnOk, OnErr};
ghost use Rattle.tx_machine.specs.Core.{CanPassIn, core_untold};
ghost use Rattle.tx_machine.specs.Own.{called_thread};
ghost use Rattle.ir_layout.specs.Memory.{thread_limit};
ghost use Rattle.tx_machine.specs.Turned.{once_called, core_called, core_started, core_unstarted, core_numbered, core_created, ended_at, core_awaited};

use crate::parts::Core;
use crate::workers::{Status, Worker};
use inst_meaning::Place;
use ir_core::{Loc, Side, Tid};
use ir_layout::THREAD_LIMIT;
use mem_image::Size;
use process::Thread;
use rtm_core::Got;
use std::alloc::AllocError;

impl<'a> Core<'a> {
    // A call of a thread is done, with this result. For want of memory nothing changes.
    fn finish_call(
        &mut self,
        t: Tid,
        target: Option<(Side, Loc)>,
        word: u64,
    ) -> Result<(), AllocError>
        requires made { t.0 < length self.old.own }
        requires pass { CanPassIn self.old t.0 }
        ensures ok { OnOk result (self.new ≡ once_called target word t.0 self.old) }
        ensures err { OnErr result (self.new ≡ self.old) }
    {
        self.workers[t.0 as usize].finish_call(&self.program, target, word)
    }

    /// A call of a thread is done, with this result, and its turn is told. For want of memory nothing changes.
    pub(crate) fn call_done(
        &mut self,
        t: Tid,
        target: Option<(Side, Loc)>,
        retires: bool,
        word: u64,
    ) -> Result<(), AllocError>
        requires made { t.0 < length self.old.own }
        requires pass { CanPassIn self.old t.0 }
        ensures ok { OnOk result (self.new ≡ core_called retires target word t.0 self.old) }
        ensures err { OnErr result (self.new ≡ self.old) }
    {
        self.tell(t, retires)?;
        if let Err(error) = self.finish_call(t, target, word) {
            self.untell(t, retires);
            return Err(error);
        }
        Ok(())
    }

    // A thread in a function stands after the others. For want of memory nothing changes.
    fn start(&mut self, function: usize, argument: u64) -> Result<(), AllocError>
        requires room { length self.old.own < thread_limit }
        ensures ok { OnOk result (self.new ≡ core_started function argument self.old) }
        ensures err { OnErr result (self.new ≡ self.old) }
    {
        let number = self.workers.len() as u32;
        let thread = Thread::start(self.alloc, &self.program, number, function, &[argument])?;
        self.workers.push(Worker::new(self.alloc, thread))?;
        Ok(())
    }

    // The thread that was made last wasn't.
    fn unstart(&mut self)
        ensures { self.new ≡ core_unstarted self.old }
    {
        drop(self.workers.pop());
    }

    // The number of the thread that was made last is stored, unless a list of the one that made it is full: then that one is aborted, and none was made.
    fn store_number(&mut self, t: Tid, address: u64, number: u64)
        requires made { t.0 + 1 < length self.old.own }
        ensures { self.new ≡ core_numbered address number t.0 self.old }
    {
        let place = Place {
            address,
            size: Size::S8,
        };
        if let Got::Overflow = self.write(t, place, number) {
            self.unstart();
            self.abort(t, Status::Overflow);
        }
    }

    /// A thread makes another, where there is room for one and its number has a place. For want of memory nothing changes.
    pub(crate) fn create(
        &mut self,
        t: Tid,
        target: Option<(Side, Loc)>,
        retires: bool,
        address: u64,
        function: usize,
        argument: u64,
    ) -> Result<(), AllocError>
        requires made { t.0 < length self.old.own }
        requires pass { CanPassIn self.old t.0 }
        ensures ok { OnOk result (self.new ≡ core_created retires target address function argument t.0 self.old) }
        ensures err { OnErr result (self.new ≡ self.old) }
    {
        let number = self.workers.len();
        if number >= THREAD_LIMIT {
            return self.call_done(t, target, retires, 11);
        }
        let place = Place {
            address,
            size: Size::S8,
        };
        if self.peek(t, place).is_none() {
            return self.trap(t);
        }
        self.start(function, argument)?;
        if let Err(error) = self.call_done(t, target, retires, 0) {
            self.unstart();
            return Err(error);
        }
        self.store_number(t, address, number as u64);
        Ok(())
    }

    // Whether a thread has ended that was made.
    fn has_ended(&self, other: u64) -> Option<bool>
        ensures { result ≡ ended_at self.now other }
    {
        if other >= self.workers.len() as u64 {
            return None;
        }
        Some(self.workers[other as usize].has_ended())
    }

    /// A thread waits for another to end. For want of memory nothing changes.
    pub(crate) fn join(
        &mut self,
        t: Tid,
        target: Option<(Side, Loc)>,
        retires: bool,
        other: u64,
    ) -> Result<(), AllocError>
        requires made { t.0 < length self.old.own }
        requires pass { CanPassIn self.old t.0 }
        ensures ok { OnOk result (self.new ≡ core_awaited retires target other t.0 self.old) }
        ensures err { OnErr result (self.new ≡ self.old) }
    {
        match self.has_ended(other) {
            None => self.trap(t),
            Some(false) => Ok(()),
            Some(true) => self.call_done(t, target, retires, 0),
        }
    }
}
