//! Turns of threads.
ghost use Rattle.std.specs.Prelude.{List, ◌≡◌, ◌<◌, Some, None, length, slice_get, IfOk, IfSome, OnOk, OnErr, OnSome};
ghost use Rattle.std.specs.Option.{option_copied, option_and_then, option_map_or};
ghost use Rattle.inst_meaning.specs.Accesses.{IsFitting};
ghost use Rattle.hard_frames.specs.Frames.{destination_on};
ghost use Rattle.hard_meaning.specs.Locks.{Locks, Unlocks};
ghost use Rattle.tx_machine.specs.Core.{CanPassIn};
ghost use Rattle.hard_meaning.specs.State.{Upset};
ghost use Rattle.hard_meaning.specs.Turns.{turn_of};
ghost use Rattle.tx_machine.specs.Meant.{state_of, IsTied};
ghost use Rattle.tx_machine.specs.Turned.{core_left, core_watched, core_request, sought, core_matched, core_memory_checked, gone_as, core_exited, core_acted, action_at, inst_in, core_done_by, core_stepped_at, core_run, core_turn};

use crate::parts::Core;
use crate::workers::Status;
use hard_frames::Stop;
use hard_ir::{HInst, HVal};
use inst_meaning::{Action, Place, Request, destination};
use ir_core::{Inst, Loc, Side, Tid, Ty};
use process::Thread;
use rtm_core::Got;
use std::alloc::AllocError;

// The register of a side that takes an instruction's result.
fn destination_on(side: Side, inst: &Inst) -> Option<(Side, Loc)>
    ensures { result ≡ destination_on side inst.now }
{
    match destination(inst) {
        Some(at) => Some((side, at)),
        None => None,
    }
}

impl<'a> Core<'a> {
    // The program ends with this code. For want of memory nothing changes.
    fn leave_program(&mut self, t: Tid, retires: bool, code: u64) -> Result<(), AllocError>
        requires { t.0 < length self.old.own }
        ensures ok { OnOk result (self.new ≡ core_left retires code t.0 self.old) }
        ensures err { OnErr result (self.new ≡ self.old) }
    {
        if !self.rtm.xtest(t) {
            self.tell(t, retires)?;
        }
        self.stop = Some(Stop::End((code % (1 << 32)) as u32));
        Ok(())
    }

    // A mutex is locked inside: by watching it, where that can be; else the transaction ends, and the call keeps its place. For want of memory
    // nothing changes.
    fn lock_inside(
        &mut self,
        t: Tid,
        target: Option<(Side, Loc)>,
        retires: bool,
        address: u64,
    ) -> Result<(), AllocError>
        requires made { t.0 < length self.old.own }
        requires pass { CanPassIn self.old t.0 }
        ensures ok { OnOk result (self.new ≡ core_watched (Locks address) retires target t.0 self.old) }
        ensures err { OnErr result (self.new ≡ self.old) }
    {
        if self.world.is_owned(address) || !self.elision.can_lock(t, address) {
            self.close(t)?;
            return Ok(());
        }
        self.call_done(t, target, retires, 0)?;
        let _ = self.elision.lock(t, address);
        Ok(())
    }

    // A mutex is unlocked inside, in the same way.
    fn unlock_inside(
        &mut self,
        t: Tid,
        target: Option<(Side, Loc)>,
        retires: bool,
        address: u64,
    ) -> Result<(), AllocError>
        requires made { t.0 < length self.old.own }
        requires pass { CanPassIn self.old t.0 }
        ensures ok { OnOk result (self.new ≡ core_watched (Unlocks address) retires target t.0 self.old) }
        ensures err { OnErr result (self.new ≡ self.old) }
    {
        if !self.elision.can_unlock(t, address) {
            self.close(t)?;
            return Ok(());
        }
        self.call_done(t, target, retires, 0)?;
        let _ = self.elision.unlock(t, address);
        Ok(())
    }

    // A thread asks the environment for something; for a mutex, inside, by watching it.
    fn request_or_watch(
        &mut self,
        t: Tid,
        target: Option<(Side, Loc)>,
        retires: bool,
        request: Request,
    ) -> Result<(), AllocError>
        requires made { t.0 < length self.old.own }
        requires pass { CanPassIn self.old t.0 }
        ensures ok { OnOk result (self.new ≡ core_request retires target request t.0 self.old) }
        ensures err { OnErr result (self.new ≡ self.old) }
    {
        if !self.rtm.xtest(t) {
            return self.ask(t, target, retires, request);
        }
        match request {
            Request::Lock(address) => self.lock_inside(t, target, retires, address),
            Request::Unlock(address) => self.unlock_inside(t, target, retires, address),
            Request::Put(_)
            | Request::Output(_)
            | Request::Allocate(_)
            | Request::Free
            | Request::Argument(_) => self.ask(t, target, retires, request),
        }
    }

    // The place and the word that a check of memory compares for a thread, where it has both.
    fn sought(
        &mut self,
        t: Tid,
        ty: &Ty,
        ptr: &HVal,
        val: &HVal,
    ) -> Result<Option<(Place, u64)>, AllocError>
        requires { t.0 < length self.old.own }
        ensures sought { IfOk result (λ found. found ≡ sought self.old t.0 ty.now ptr.now val.now) }
        ensures unchanged { self.new ≡ self.old }
    {
        self.workers[t.0 as usize].sought(self.alloc, &self.program, ty, ptr, val)
    }

    // A thread inside reads memory as any access does, and is aborted unless it finds this word there.
    fn match_memory(&mut self, t: Tid, place: Place, word: u64)
        requires { t.0 < length self.old.own }
        ensures { self.new ≡ core_matched place word t.0 self.old }
    {
        match self.read(t, place) {
            Got::Value(found) => {
                if found != word {
                    self.abort(t, Status::Mismatch);
                }
            }
            Got::Trap => self.abort(t, Status::Other),
            Got::Overflow => self.abort(t, Status::Overflow),
        }
    }

    // A check of memory. For want of memory nothing changes.
    fn check_memory(&mut self, t: Tid, ty: &Ty, ptr: &HVal, val: &HVal) -> Result<(), AllocError>
        requires made { t.0 < length self.old.own }
        requires pass { CanPassIn self.old t.0 }
        ensures ok { OnOk result (self.new ≡ core_memory_checked ty.now ptr.now val.now t.0 self.old) }
        ensures err { OnErr result (self.new ≡ self.old) }
    {
        if !self.rtm.xtest(t) {
            self.pass(t);
            return Ok(());
        }
        let Some((place, word)) = self.sought(t, ty, ptr, val)? else {
            return self.trap(t);
        };
        self.pass(t);
        self.match_memory(t, place, word);
        Ok(())
    }

    // A thread has ended; with thread 0 the program has.
    fn go(&mut self, t: Tid, word: u64)
        requires { t.0 < length self.old.own }
        ensures { self.new ≡ gone_as t.0 word self.old }
    {
        if t.0 == 0 {
            self.stop = Some(Stop::End((word % (1 << 32)) as u32));
        } else {
            self.workers[t.0 as usize].leave();
        }
    }

    // A thread whose function has returned ends its transaction, and then itself. For want of memory nothing changes.
    fn exit(&mut self, t: Tid, word: u64) -> Result<(), AllocError>
        requires { t.0 < length self.old.own }
        ensures ok { OnOk result (self.new ≡ core_exited word t.0 self.old) }
        ensures err { OnErr result (self.new ≡ self.old) }
    {
        self.tell(t, true)?;
        match self.close(t) {
            Ok(can) => {
                if can {
                    self.go(t, word);
                }
                Ok(())
            }
            Err(error) => {
                self.untell(t, true);
                Err(error)
            }
        }
    }

    // A thread does an action. For want of memory nothing changes.
    fn act(
        &mut self,
        t: Tid,
        target: Option<(Side, Loc)>,
        retires: bool,
        action: &Action,
    ) -> Result<(), AllocError>
        requires made { t.0 < length self.old.own }
        requires pass { CanPassIn self.old t.0 }
        requires fits { IsFitting action.now }
        ensures ok { OnOk result (self.new ≡ core_acted retires target action.now t.0 self.old) }
        ensures err { OnErr result (self.new ≡ self.old) }
    {
        match action {
            Action::Ask(request) => self.request_or_watch(t, target, retires, *request),
            Action::Create {
                address,
                function,
                argument,
            } => self.create(t, target, retires, *address, *function, *argument),
            Action::Join(other) => self.join(t, target, retires, *other),
            Action::Exit(code) => self.leave_program(t, retires, *code),
            Action::Assign(_)
            | Action::Reserve(_)
            | Action::Read { .. }
            | Action::Write { .. }
            | Action::Update { .. }
            | Action::Pass
            | Action::Jump(_)
            | Action::Call { .. }
            | Action::Return(_)
            | Action::Fault(_) => self.act_alone(t, target, retires, action),
        }
    }

    // What an instruction asks for on a side, where a thread runs.
    fn action(&mut self, t: Tid, side: Side, inst: &Inst) -> Result<Option<Action>, AllocError>
        requires { t.0 < length self.old.own }
        ensures action { IfOk result (λ found. found ≡ action_at self.old t.0 side inst.now) }
        ensures fits { IfOk result (λ found. IfSome found IsFitting) }
        ensures unchanged { self.new ≡ self.old }
    {
        self.workers[t.0 as usize].action(self.alloc, &self.program, side, inst)
    }

    // A thread does an instruction of the source on one side.
    fn do_inst(&mut self, t: Tid, side: Side, inst: &Inst, retires: bool) -> Result<(), AllocError>
        requires made { t.0 < length self.old.own }
        requires pass { CanPassIn self.old t.0 }
        ensures ok { OnOk result (self.new ≡ core_done_by side inst.now retires t.0 self.old) }
        ensures err { OnErr result (self.new ≡ self.old) }
    {
        match self.action(t, side, inst)? {
            Some(action) => {
                let done = self.act(t, destination_on(side, inst), retires, &action);
                drop(action);
                done
            }
            None => Ok(()),
        }
    }

    // A thread does a hardened instruction.
    fn step(&mut self, t: Tid, inst: &HInst) -> Result<(), AllocError>
        requires made { t.0 < length self.old.own }
        requires pass { CanPassIn self.old t.0 }
        requires tied { IsTied self.old }
        ensures ok { OnOk result (self.new ≡ core_stepped_at inst.now t.0 self.old) }
        ensures err { OnErr result (self.new ≡ self.old) }
    {
        match inst {
            HInst::Cut => self.cut(t),
            HInst::Begin => self.begin(t),
            HInst::End => self.end(t),
            HInst::Tick(work) => {
                self.tick(t, *work);
                Ok(())
            }
            HInst::Chk { when, ty, reg } => self.check(t, *when, ty, *reg),
            HInst::ChkMem { ty, ptr, val } => self.check_memory(t, ty, ptr, val),
            HInst::Mov { reg, .. } => self.copy(t, *reg),
            HInst::Do {
                side,
                inst,
                retires,
            } => self.do_inst(t, *side, inst, *retires),
        }
    }

    // The instruction at a thread's place, where it runs and there is one.
    fn inst(&self, t: Tid) -> Option<&'a HInst>
        requires { t.0 < length self.now.own }
        ensures inst { option_copied result ≡ inst_in self.now t.0 }
        ensures within { OnSome result (CanPassIn self.now t.0) }
    {
        match &self.workers[t.0 as usize].thread {
            Thread::Running(stack) => self.program.inst(&stack.frame),
            Thread::Exiting(_) | Thread::Ended => None,
        }
    }

    // A thread that runs does its next instruction.
    fn run(&mut self, t: Tid) -> Result<(), AllocError>
        requires made { t.0 < length self.old.own }
        requires tied { IsTied self.old }
        ensures ok { OnOk result (self.new ≡ core_run t.0 self.old) }
        ensures err { OnErr result (self.new ≡ self.old) }
    {
        match self.inst(t) {
            Some(inst) => self.step(t, inst),
            None => self.trap(t),
        }
    }

    // A turn of a thread. For want of memory nothing changes.
    fn turn(&mut self, t: Tid) -> Result<(), AllocError>
        requires { IsTied self.old }
        ensures ok { OnOk result (self.new ≡ core_turn t.0 self.old) }
        ensures err { OnErr result (self.new ≡ self.old) }
    {
        let place = t.0 as usize;
        if place >= self.workers.len() {
            return Ok(());
        }
        match &self.workers[place].thread {
            Thread::Running(_) => self.run(t),
            Thread::Exiting(word) => {
                let word = *word;
                self.exit(t, word)
            }
            Thread::Ended => Ok(()),
        }
    }
}

/// A turn of a thread, where nothing has stopped. For want of memory nothing changes.
pub(crate) fn turn(core: &mut Core<'_>, t: Tid) -> Result<(), AllocError>
    requires tied { IsTied core.old }
    requires going { core.old.stop ≡ None }
    ensures ok { OnOk result ((upsets : List Upset) → state_of core.new upsets ≡ turn_of core.old.program (state_of core.old upsets) t.0) }
    ensures tied { IsTied core.new }
    ensures program { core.new.program ≡ core.old.program }
    ensures err { OnErr result (core.new ≡ core.old) }
{
    core.turn(t)
}
