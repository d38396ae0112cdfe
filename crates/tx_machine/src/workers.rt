//! Threads, each with what an abort of it changes.
ghost use Rattle.std.specs.Prelude.{◌≡◌, ◌+◌, ◌<◌, ◌^◌, None, Some, length, IfOk, IfSome, OnOk, OnErr, OnSome};
ghost use Rattle.std.specs.Option.{is_some};
ghost use Rattle.inst_meaning.specs.Registers.{get};
ghost use Rattle.process.specs.Outcome.{touch_of};
ghost use Rattle.process.specs.code.Threads.{CanPass};
ghost use Rattle.hard_meaning.specs.Checks.{same_word};
ghost use Rattle.hard_meaning.specs.Aborts.{status_word};
ghost use Rattle.process.specs.declared.state.Thread.TheVariants.{Ended};
ghost use Rattle.inst_meaning.specs.Accesses.{IsFitting};
ghost use Rattle.inst_meaning.specs.Operands.{memory_width};
ghost use Rattle.tx_machine.specs.Turned.{has_ended, sought_as, sought_in, action_in};
ghost use Rattle.tx_machine.specs.Joined.{is_in};
ghost use Rattle.tx_machine.specs.Upsets.{carried, thread_place, thread_struck, settled_in, own_struck};
ghost use Rattle.tx_machine.specs.Own.{meant, new_own, once_passed, kept_thread, once_begun, once_ticked, once_ended, once_committed, once_pending, once_unpending, compared_words, compared_in, once_copied, copied_in, copied_thread, failure_in, moved_thread, reply_in, world_in, asked_thread, called_thread, once_undone};

use crate::marks::Marks;
use crate::strikes::{StruckAt, place_in_stack, strike_stack};
use hard_frames::{Aborts, Frame, Program, Words as Room};
use hard_ir::{HVal, register_bits};
use inst_meaning::{Action, Cause, Place, Reply, Request, World, memory_width, size_of_width};
use ir_core::{Inst, Loc, Side, Tid, Ty, Width};
use process::{CallStack, Code, Local, Thread};
use sched_file::UpsetSpec;
use std::alloc::{AllocError, Global};
use std::marker::Model;
use tx_runtime::{Act, Mode, Words};

// So many transactions a thread begins at most, so that no sum of counts over all threads runs over.
const MOST_BEGUN: u64 = (1 << 56) - 1;

/// Why a transaction is aborted.
#[derive(Clone, Copy, PartialEq, Eq)]
pub(crate) enum Status {
    /// A check failed.
    Mismatch,
    /// It ended while it held a mutex that it only watches.
    Locked,
    /// Another thread's action stood in its way.
    Conflict,
    /// A list of lines was full.
    Overflow,
    /// Anything else.
    Other,
}

impl Status {
    /// The status as the processor would give it.
    pub(crate) fn word(self) -> u32
        ensures { result ≡ status_word (meant self) }
    {
        match self {
            Status::Mismatch => 0x0100_0001,
            Status::Locked => 0x0200_0001,
            Status::Conflict => 6,
            Status::Overflow => 8,
            Status::Other => 0,
        }
    }
}

// Whether two words are the same word of a type.
fn same_word(ty: &Ty, a: u128, b: u128) -> bool
    ensures { result ≡ same_word ty.now a b }
{
    let end = 1u128 << register_bits(ty);
    a % end == b % end
}

// Whether both sides of a register have the same word of a type, where both have one.
fn compare(frame: &mut Frame, ty: &Ty, reg: Loc) -> Result<Option<bool>, AllocError>
    ensures same_word { IfOk result (λ same. same ≡ compared_words ty.now (get frame.old.masters reg.0) (get frame.old.shadows reg.0)) }
    ensures unchanged { frame.new ≡ frame.old }
{
    let master = frame.masters.get(reg);
    let shadow = frame.shadows.word(reg)?;
    let (Some(master), Some(shadow)) = (master, shadow) else {
        return Ok(None);
    };
    Ok(Some(same_word(ty, master, shadow)))
}

// The shadow of a register becomes its master where that has a word, and the frame passes its instruction.
fn copy(frame: &mut Frame, reg: Loc) -> Result<(), AllocError>
    requires { frame.old.index + 1 < 2 ^ 64 }
    ensures ok { OnOk result (frame.new ≡ once_copied (get frame.old.masters reg.0) reg frame.old) }
    ensures err { OnErr result (frame.new ≡ frame.old) }
{
    if let Some(word) = frame.masters.get(reg) {
        frame.shadows.assign(Some(reg), word)?;
        frame.index += 1;
    }
    Ok(())
}

// The place and the word that a check of memory compares in a frame, where it has both.
fn sought(
    alloc: Global,
    program: &Program<'_>,
    frame: &mut Frame,
    ty: &Ty,
    ptr: &HVal,
    val: &HVal,
) -> Result<Option<(Place, u64)>, AllocError>
    ensures sought { IfOk result (λ found. found ≡ sought_as (memory_width ty.now) program.now frame.old ptr.now val.now) }
    ensures unchanged { frame.new ≡ frame.old }
{
    let Some(width) = memory_width(ty) else {
        return Ok(None);
    };
    let address = frame.operand(alloc, program, Width::W64, ptr)?;
    let word = frame.operand(alloc, program, width, val)?;
    let (Some(address), Some(word)) = (address, word) else {
        return Ok(None);
    };
    let place = Place {
        address,
        size: size_of_width(width),
    };
    Ok(Some((place, word)))
}

/// A thread, the runtime's words of it, its aborts by cause, how many transactions it has begun, and the upsets in it that no abort can undo.
/// Of the open transaction: how many turns wait for it to commit, and the upsets that struck since it began.
#[derive(Drop)]
pub(crate) struct Worker {
    pub(crate) thread: Thread<Frame>,
    pub(crate) words: Words,
    pub(crate) aborts: Aborts,
    pub(crate) begun: u64,
    pub(crate) pending: u64,
    pub(crate) marks: Marks,
}

impl Model for Worker {
    ghost use Rattle.tx_machine.specs.Own.{OwnParts, AreCounted};

    ghost Value = { OwnParts };

    ghost view = { λ w. record {
      thread = w.thread;
      words = w.words;
      aborts = w.aborts;
      begun = w.begun;
      pending = w.pending;
      struck = w.marks.struck;
      hits = w.marks.hits;
    } };

    ghost invariant = { λ w. AreCounted (record {
      thread = w.thread;
      words = w.words;
      aborts = w.aborts;
      begun = w.begun;
      pending = w.pending;
      struck = w.marks.struck;
      hits = w.marks.hits;
    }) };
}

impl Worker {
    /// A thread that was made: it is outside transactions. It takes no memory.
    pub(crate) fn new(alloc: Global, thread: Thread<Frame>) -> Worker
        ensures { result ≡ new_own thread }
    {
        Worker {
            thread,
            words: Words::new(),
            aborts: Aborts {
                explicit: 0,
                conflict: 0,
                overflow: 0,
                other: 0,
            },
            begun: 0,
            pending: 0,
            marks: Marks::new(alloc),
        }
    }

    /// Passes its instruction.
    pub(crate) fn pass(&mut self)
        requires { CanPass (λ frame. frame.index + 1 < 2 ^ 64) self.old.thread }
        ensures { self.new ≡ once_passed self.old }
    {
        if let Thread::Running(stack) = &mut self.thread {
            stack.frame.index += 1;
        }
    }

    /// Passes a `begin`. Where that begins a transaction, the frames as they stood before are given. For want of memory nothing changes;
    /// 2^56 transactions are past all time.
    pub(crate) fn begin(&mut self) -> Result<Option<CallStack<Frame>>, AllocError>
        requires { CanPass (λ frame. frame.index + 1 < 2 ^ 64) self.old.thread }
        ensures kept { IfOk result (λ kept. kept ≡ kept_thread self.old.thread self.old) }
        ensures ok { OnOk result (self.new ≡ once_begun self.old) }
        ensures err { OnErr result (self.new ≡ self.old) }
    {
        if self.begun >= MOST_BEGUN {
            return Err(AllocError);
        }
        let Thread::Running(stack) = &mut self.thread else {
            return Ok(None);
        };
        let kept = stack.clone()?;
        stack.frame.index += 1;
        match self.words.begin() {
            Act::Xbegin => {
                self.begun += 1;
                self.pending = 0;
                self.marks.forget();
                Ok(Some(kept))
            }
            Act::Nothing | Act::Xend => Ok(None),
        }
    }

    /// Counts work, and passes its instruction.
    pub(crate) fn tick(&mut self, work: u32)
        requires { CanPass (λ frame. frame.index + 1 < 2 ^ 64) self.old.thread }
        ensures { self.new ≡ once_ticked work self.old }
    {
        self.words.tick(work);
        self.pass();
    }

    /// It is outside, and has no transaction to end.
    pub(crate) fn end(&mut self)
        ensures { self.new ≡ once_ended self.old }
    {
        self.words.end();
    }

    /// Its transaction commits.
    pub(crate) fn commit(&mut self)
        ensures { self.new ≡ once_committed self.old }
    {
        self.words.end();
        self.marks.commit();
    }

    /// One turn more waits for its transaction to commit; 2^64 are past all memory.
    pub(crate) fn retire(&mut self) -> Result<(), AllocError>
        ensures ok { OnOk result (self.new ≡ once_pending self.old) }
        ensures err { OnErr result (self.new ≡ self.old) }
    {
        let Some(pending) = self.pending.checked_add(1) else {
            return Err(AllocError);
        };
        self.pending = pending;
        Ok(())
    }

    /// The last turn that was to wait doesn't.
    pub(crate) fn unretire(&mut self)
        ensures { self.new ≡ once_unpending self.old }
    {
        self.pending = self.pending.saturating_sub(1);
    }

    /// Whether both sides of a register have the same word of a type, where both have one.
    pub(crate) fn compare(&mut self, ty: &Ty, reg: Loc) -> Result<Option<bool>, AllocError>
        ensures same_word { IfOk result (λ same. same ≡ compared_in self.old.thread ty.now reg) }
        ensures unchanged { self.new ≡ self.old }
    {
        match &mut self.thread {
            Thread::Running(stack) => compare(&mut stack.frame, ty, reg),
            Thread::Exiting(_) | Thread::Ended => Ok(None),
        }
    }

    /// Does an action without memory. The answer is why it can't, where it can't; then, and for want of memory, nothing changes.
    pub(crate) fn act(
        &mut self,
        alloc: Global,
        program: &Program<'_>,
        room: &mut Room,
        t: Tid,
        target: Option<(Side, Loc)>,
        action: &Action,
    ) -> Result<Option<Cause>, AllocError>
        requires pass { CanPass (λ frame. frame.index + 1 < 2 ^ 64) self.old.thread }
        requires apart { touch_of action.now ≡ None }
        ensures cause { IfOk result (λ cause. cause ≡ failure_in program.now t.0 self.old.thread action.now) }
        ensures ok { OnOk result (self.new ≡ record self.old { thread = moved_thread program.now t.0 target action.now self.old.thread }) }
        ensures failed { IfOk result (λ cause. OnSome cause (self.new ≡ self.old)) }
        ensures err { OnErr result (self.new ≡ self.old) }
    {
        let local = match &mut self.thread {
            Thread::Running(stack) => stack.act_apart(alloc, program, room, t, target, action)?,
            Thread::Exiting(_) | Thread::Ended => Local::Done,
        };
        match local {
            Local::Done => Ok(None),
            Local::Returned(word) => {
                self.thread = Thread::Exiting(word);
                Ok(None)
            }
            Local::Failed(cause) => Ok(Some(cause)),
        }
    }

    /// Asks the environment for something. Where it answers, the instruction is done with that result. For want of memory nothing changes.
    pub(crate) fn ask(
        &mut self,
        program: &Program<'_>,
        world: &mut World,
        t: Tid,
        target: Option<(Side, Loc)>,
        request: Request,
    ) -> Result<Reply, AllocError>
        requires { CanPass (λ frame. frame.index + 1 < 2 ^ 64) self.old.thread }
        ensures reply { IfOk result (λ reply. reply ≡ reply_in request t.0 world.old self.old.thread) }
        ensures world { OnOk result (world.new ≡ world_in request t.0 world.old self.old.thread) }
        ensures ok { OnOk result (self.new ≡ record self.old { thread = asked_thread program.now target request t.0 world.old self.old.thread }) }
        ensures err { OnErr result ((self.new ≡ self.old) × (world.new ≡ world.old)) }
    {
        match &mut self.thread {
            Thread::Running(stack) => program.ask(&mut stack.frame, world, request, t, target),
            Thread::Exiting(_) | Thread::Ended => Ok(Reply::Waits),
        }
    }

    /// A call is done, with this result. For want of memory nothing changes.
    pub(crate) fn finish_call(
        &mut self,
        program: &Program<'_>,
        target: Option<(Side, Loc)>,
        word: u64,
    ) -> Result<(), AllocError>
        requires { CanPass (λ frame. frame.index + 1 < 2 ^ 64) self.old.thread }
        ensures ok { OnOk result (self.new ≡ record self.old { thread = called_thread program.now target word self.old.thread }) }
        ensures err { OnErr result (self.new ≡ self.old) }
    {
        match &mut self.thread {
            Thread::Running(stack) => { program.finish(&mut stack.frame, target, u128::from(word)) }
            Thread::Exiting(_) | Thread::Ended => Ok(()),
        }
    }

    /// Whether the thread has ended.
    pub(crate) fn has_ended(&self) -> bool
        ensures { result ≡ has_ended self.now.thread }
    {
        match &self.thread {
            Thread::Ended => true,
            Thread::Running(_) | Thread::Exiting(_) => false,
        }
    }

    /// Whether the master of a register has a word.
    pub(crate) fn has_word(&self, reg: Loc) -> bool
        ensures { result ≡ is_some (copied_in self.now.thread reg) }
    {
        match &self.thread {
            Thread::Running(stack) => stack.frame.masters.get(reg).is_some(),
            Thread::Exiting(_) | Thread::Ended => false,
        }
    }

    /// The shadow of a register becomes its master where that has a word, and the thread passes its instruction. For want of memory nothing
    /// changes.
    pub(crate) fn copy(&mut self, reg: Loc) -> Result<(), AllocError>
        requires { CanPass (λ frame. frame.index + 1 < 2 ^ 64) self.old.thread }
        ensures ok { OnOk result (self.new ≡ record self.old { thread = copied_thread self.old.thread reg }) }
        ensures err { OnErr result (self.new ≡ self.old) }
    {
        match &mut self.thread {
            Thread::Running(stack) => copy(&mut stack.frame, reg),
            Thread::Exiting(_) | Thread::Ended => Ok(()),
        }
    }

    /// The place and the word that a check of memory compares, where it has both.
    pub(crate) fn sought(
        &mut self,
        alloc: Global,
        program: &Program<'_>,
        ty: &Ty,
        ptr: &HVal,
        val: &HVal,
    ) -> Result<Option<(Place, u64)>, AllocError>
        ensures sought { IfOk result (λ found. found ≡ sought_in program.now self.old.thread ty.now ptr.now val.now) }
        ensures unchanged { self.new ≡ self.old }
    {
        match &mut self.thread {
            Thread::Running(stack) => sought(alloc, program, &mut stack.frame, ty, ptr, val),
            Thread::Exiting(_) | Thread::Ended => Ok(None),
        }
    }

    /// What an instruction asks for on a side, where the thread runs.
    pub(crate) fn action(
        &mut self,
        alloc: Global,
        program: &Program<'_>,
        side: Side,
        inst: &Inst,
    ) -> Result<Option<Action>, AllocError>
        ensures action { IfOk result (λ found. found ≡ action_in program.now side inst.now self.old.thread) }
        ensures fits { IfOk result (λ found. IfSome found IsFitting) }
        ensures unchanged { self.new ≡ self.old }
    {
        match &mut self.thread {
            Thread::Running(stack) => {
                let action = stack.frame.action(alloc, program, side, inst)?;
                Ok(Some(action))
            }
            Thread::Exiting(_) | Thread::Ended => Ok(None),
        }
    }

    /// The thread ends.
    pub(crate) fn leave(&mut self)
        ensures { self.new ≡ record self.old { thread = Ended } }
    {
        self.thread = Thread::Ended;
    }

    /// Its transaction is aborted, and these frames run again. A thread that isn't inside is not aborted.
    pub(crate) fn undo(&mut self, kept: CallStack<Frame>, status: Status)
        ensures { self.new ≡ once_undone (meant status) kept self.old }
    {
        match self.words.mode() {
            Mode::Out | Mode::Plain => return,
            Mode::In => {}
        }
        self.thread = Thread::Running(kept);
        self.words.undone();
        match status {
            Status::Mismatch | Status::Locked => self.aborts.explicit += 1,
            Status::Conflict => self.aborts.conflict += 1,
            Status::Overflow => self.aborts.overflow += 1,
            Status::Other => self.aborts.other += 1,
        }
    }

    // Whether it is inside a transaction, as the runtime says.
    pub(crate) fn is_inside(&self) -> bool
        ensures { result ≡ is_in self.now.words.mode }
    {
        match self.words.mode() {
            Mode::In => true,
            Mode::Out | Mode::Plain => false,
        }
    }

    /// The numbers of the upsets that stand in it, in the order in which they came.
    pub(crate) fn carried(&self) -> &[u64]
        ensures { result.now ≡ carried self.now }
    {
        self.marks.carried(self.is_inside())
    }

    /// Where an upset strikes it, if anywhere.
    pub(crate) fn place_of(
        &mut self,
        program: &Program<'_>,
        upset: &UpsetSpec,
    ) -> Result<Option<StruckAt>, AllocError>
        ensures place { IfOk result (λ place. place ≡ thread_place program.now upset.now self.old.thread) }
        ensures unchanged { self.new ≡ self.old }
    {
        match &mut self.thread {
            Thread::Running(stack) => place_in_stack(program, upset, stack),
            Thread::Exiting(_) | Thread::Ended => Ok(None),
        }
    }

    // Its thread is struck. For want of memory nothing changes.
    fn strike_thread(&mut self, program: &Program<'_>, upset: &UpsetSpec) -> Result<(), AllocError>
        ensures ok { OnOk result (self.new ≡ record self.old { thread = thread_struck program.now upset.now self.old.thread }) }
        ensures err { OnErr result (self.new ≡ self.old) }
    {
        match &mut self.thread {
            Thread::Running(stack) => strike_stack(program, upset, stack),
            Thread::Exiting(_) | Thread::Ended => Ok(()),
        }
    }

    // Outside, the number that was added last is one that no abort undoes.
    fn settle(&mut self, number: u64)
        requires { 0 < length self.old.struck }
        ensures { self.new ≡ settled_in self.old.words.mode number self.old }
    {
        match self.words.mode() {
            Mode::In => {}
            Mode::Out | Mode::Plain => self.marks.settle(number),
        }
    }

    // Its thread is struck, and it carries the upset's number. For want of memory nothing changes.
    fn strike_counted(
        &mut self,
        program: &Program<'_>,
        upset: &UpsetSpec,
        number: u64,
    ) -> Result<(), AllocError>
        ensures ok { OnOk result (self.new ≡ own_struck program.now upset.now (Some number) self.old) }
        ensures err { OnErr result (self.new ≡ self.old) }
    {
        self.marks.strike(number)?;
        if let Err(e) = self.strike_thread(program, upset) {
            self.marks.take_back();
            return Err(e);
        }
        self.settle(number);
        Ok(())
    }

    /// Its thread is struck by an upset, and it carries its number where one is given. For want of memory nothing changes.
    pub(crate) fn strike(
        &mut self,
        program: &Program<'_>,
        upset: &UpsetSpec,
        number: Option<u64>,
    ) -> Result<(), AllocError>
        ensures ok { OnOk result (self.new ≡ own_struck program.now upset.now number self.old) }
        ensures err { OnErr result (self.new ≡ self.old) }
    {
        match number {
            Some(number) => self.strike_counted(program, upset, number),
            None => self.strike_thread(program, upset),
        }
    }
}
