//! All that runs, part by part.
ghost use Rattle.std.specs.Prelude.{◌≡◌, ◌+◌, ◌*◌, ◌<◌, ◌^◌, None, Some, length, slice_get, IfOk, IfSome, OnOk, OnErr, OnSome};
ghost use Rattle.std.specs.Option.{is_some, option_map, option_copied};
ghost use Rattle.mem_image.specs.Accesses.{bytes};
ghost use Rattle.mem_image.specs.Bytes.{read_of};
ghost use Rattle.inst_meaning.specs.Accesses.{updated, IsFitting, IsFittingUpdate};
ghost use Rattle.process.specs.Outcome.{touch_of};
ghost use Rattle.rtm_core.specs.Calls.{reading, writing, updating, got_of};
ghost use Rattle.rtm_core.specs.Transactions.{entry_of, seen_by, word_seen};
ghost use Rattle.tx_machine.specs.Resolved.{resolved_access};
ghost use Rattle.tx_machine.specs.Own.{OwnParts, meant, once_passed, once_ticked};
ghost use Rattle.hard_meaning.specs.Checks.{is_active};
ghost use Rattle.tx_machine.specs.Turned.{core_opening};
ghost use Rattle.tx_machine.specs.Core.{CanPassIn, BeginsOutside, with_own, is_open, place_in, core_aborted, core_failed, core_trapped, core_begun, core_closed, can_close, core_ended, core_cut, compared_at, core_checked, copied_at, once_copied_at, core_copied, core_touched, failure_simply, failure_at, core_moved, core_done, core_told, core_untold, core_accessed, took, room_for, core_alone, watcher_if, watches_other, core_taken, core_taking, reply_at, core_requested, core_asked};

use crate::conflicts::undo_each;
use crate::workers::{Status, Worker};
use elide::Elision;
use hard_frames::{Frame, Program, Stop, Words as Room, place_text};
use hard_ir::{Hardened, When};
use inst_meaning::{Action, Cause, Place, Reply, Request, Update, World};
use ir_core::{Loc, Name, Side, Tid, Ty};
use ir_layout::THREAD_LIMIT;
use process::{CallStack, Thread};
use rtm_core::{Aborted, Got, Rtm};
use std::alloc::{AllocError, Global};
use std::marker::Model;
use turn_runs::TurnLog;
use tx_runtime::Words;

// Whether an access found its lists not full.
fn took(got: Got) -> bool
    ensures { result ≡ took got }
{
    match got {
        Got::Value(_) | Got::Trap => true,
        Got::Overflow => false,
    }
}

/// All that runs. Contracts see its parts.
#[derive(Drop)]
pub(crate) struct Core<'a> {
    pub(crate) program: Program<'a>,
    pub(crate) rtm: Rtm<CallStack<Frame>>,
    pub(crate) elision: Elision,
    pub(crate) workers: Vec<Worker>,
    pub(crate) world: World,
    pub(crate) turns: TurnLog,
    pub(crate) stop: Option<Stop>,
    pub(crate) aborted: Vec<Aborted<CallStack<Frame>>>,
    pub(crate) room: Room,
    pub(crate) alloc: Global,
}

impl<'a> Model for Core<'a> {
    ghost use Rattle.std.specs.Prelude.{◌≡◌, ◌≤◌, [], length, vec_capacity};
    ghost use Rattle.std.specs.Coded.{codes};
    ghost use Rattle.ir_core.specs.contracts.types.Ty as ty;
    ghost use Rattle.ir_core.specs.contracts.values.Init as init;
    ghost use Rattle.ir_layout.specs.Memory.{thread_limit};
    ghost use Rattle.tx_machine.specs.Core.{CoreParts};

    ghost Value = { CoreParts };

    ghost coded = { Prim.hlevel (codes, ty.the_row.coded, init.the_row.coded) };

    ghost view = { λ c. record {
      program = c.program;
      rtm = c.rtm;
      watches = c.elision;
      own = c.workers.items;
      world = c.world;
      turns = c.turns;
      stop = c.stop;
    } };

    ghost invariant = { λ c. (length c.workers.items ≤ thread_limit)
        × (c.aborted.items ≡ [])
        × (thread_limit ≤ vec_capacity c.aborted) };
}

impl<'a> Core<'a> {
    /// The opening of a hardened program with these arguments.
    pub(crate) fn new(alloc: Global, h: &'a Hardened, args: &[u64]) -> Result<Core<'a>, AllocError>
        ensures { IfOk result (λ core. core ≡ core_opening h.now args.now) }
    {
        let program = Program::new(alloc, h)?;
        let image = program.image(alloc)?;
        let rtm = Rtm::new(alloc, image)?;
        let elision = Elision::new(alloc)?;
        let world = World::new(alloc, args)?;
        let main = Thread::start(alloc, &program, 0, program.main(), &[])?;
        let mut workers = Vec::new(alloc);
        workers.push(Worker::new(alloc, main))?;
        let aborted = Vec::with_capacity(alloc, THREAD_LIMIT)?;
        Ok(Core {
            program,
            rtm,
            elision,
            workers,
            world,
            turns: TurnLog::new(alloc),
            stop: None,
            aborted,
            room: Room::new(alloc),
            alloc,
        })
    }

    /// The memory under transactions over which all runs.
    pub(crate) fn rtm(&self) -> &Rtm<CallStack<Frame>>
        ensures { result.now ≡ self.now.rtm }
    {
        &self.rtm
    }

    /// What threads watch and hold.
    pub(crate) fn elision(&self) -> &Elision
        ensures { result.now ≡ self.now.watches }
    {
        &self.elision
    }

    /// The runtime's words of a thread, where it was made.
    pub(crate) fn words(&self, t: Tid) -> Option<&Words>
        ensures { option_copied result ≡ option_map (λ (w : OwnParts). w.words) (slice_get self.now.own t.0) }
    {
        match self.workers.get(t.0 as usize) {
            Some(worker) => Some(&worker.words),
            None => None,
        }
    }

    /// Whether all has stopped.
    pub(crate) fn has_stopped(&self) -> bool
        ensures { result ≡ is_some self.now.stop }
    {
        self.stop.is_some()
    }

    // The transaction of a thread is aborted, where it has one.
    pub(crate) fn abort(&mut self, t: Tid, status: Status)
        requires { t.0 < length self.old.own }
        ensures parts { self.new ≡ core_aborted (meant status) t.0 self.old }
        ensures count { length self.new.own ≡ length self.old.own }
    {
        if !self.rtm.xtest(t) {
            return;
        }
        let Aborted { keep, .. } = self.rtm.xabort(t, status.word());
        self.elision.clear(t);
        self.workers[t.0 as usize].undo(keep, status);
    }

    // Where a thread stands.
    fn place(&self, t: Tid) -> Result<Name, AllocError>
        requires { t.0 < length self.now.own }
        ensures { IfOk result (λ place. place ≡ place_in self.now t.0) }
    {
        match &self.workers[t.0 as usize].thread {
            Thread::Running(stack) => place_text(self.alloc, &self.program, &stack.frame),
            Thread::Exiting(_) | Thread::Ended => Name::new(self.alloc, b""),
        }
    }

    // A check of a thread has failed.
    fn fail(&mut self, t: Tid) -> Result<(), AllocError>
        requires { t.0 < length self.old.own }
        ensures ok { OnOk result (self.new ≡ core_failed t.0 self.old) }
        ensures err { OnErr result (self.new ≡ self.old) }
    {
        if self.rtm.xtest(t) {
            self.abort(t, Status::Mismatch);
            return Ok(());
        }
        let at = self.place(t)?;
        self.stop = Some(Stop::Fail { tid: t, at });
        Ok(())
    }

    // What a thread does where it stands is undefined.
    pub(crate) fn trap(&mut self, t: Tid) -> Result<(), AllocError>
        requires { t.0 < length self.old.own }
        ensures ok { OnOk result (self.new ≡ core_trapped t.0 self.old) }
        ensures err { OnErr result (self.new ≡ self.old) }
    {
        if self.rtm.xtest(t) {
            self.abort(t, Status::Other);
            return Ok(());
        }
        let at = self.place(t)?;
        self.stop = Some(Stop::Trap { tid: t, at });
        Ok(())
    }

    // A thread passes its instruction.
    pub(crate) fn pass(&mut self, t: Tid)
        requires made { t.0 < length self.old.own }
        requires pass { CanPassIn self.old t.0 }
        ensures { self.new ≡ with_own t.0 once_passed self.old }
    {
        self.workers[t.0 as usize].pass();
    }

    // A thread passes a `begin`.
    pub(crate) fn begin(&mut self, t: Tid) -> Result<(), AllocError>
        requires made { t.0 < length self.old.own }
        requires pass { CanPassIn self.old t.0 }
        requires outside { BeginsOutside self.old t.0 }
        ensures ok { OnOk result (self.new ≡ core_begun t.0 self.old) }
        ensures err { OnErr result (self.new ≡ self.old) }
    {
        if let Some(kept) = self.workers[t.0 as usize].begin()? {
            self.rtm.xbegin(t, kept);
            self.elision.clear(t);
        }
        Ok(())
    }

    // The work of a thread is counted, and it passes its instruction.
    pub(crate) fn tick(&mut self, t: Tid, work: u32)
        requires made { t.0 < length self.old.own }
        requires pass { CanPassIn self.old t.0 }
        ensures { self.new ≡ with_own t.0 (once_ticked work) self.old }
    {
        self.workers[t.0 as usize].tick(work);
    }

    // Ends the transaction of a thread, where it has one. The answer is `false` exactly where it is aborted, since it holds a mutex. For want of memory
    // nothing changes.
    pub(crate) fn close(&mut self, t: Tid) -> Result<bool, AllocError>
        requires { t.0 < length self.old.own }
        ensures can { IfOk result (λ can. can ≡ can_close self.old t.0) }
        ensures ok { OnOk result (self.new ≡ core_closed t.0 self.old) }
        ensures err { OnErr result (self.new ≡ self.old) }
    {
        let place = t.0 as usize;
        if !self.rtm.xtest(t) {
            self.workers[place].end();
            return Ok(true);
        }
        if self.elision.holds(t) {
            self.abort(t, Status::Locked);
            return Ok(false);
        }
        self.turns.push_run(t, self.workers[place].pending)?;
        drop(self.rtm.xend(t));
        self.elision.clear(t);
        self.workers[place].commit();
        Ok(true)
    }

    // Ends the transaction of a thread, which goes on to its next instruction unless it is aborted.
    pub(crate) fn end(&mut self, t: Tid) -> Result<(), AllocError>
        requires made { t.0 < length self.old.own }
        requires pass { CanPassIn self.old t.0 }
        ensures ok { OnOk result (self.new ≡ core_ended t.0 self.old) }
        ensures err { OnErr result (self.new ≡ self.old) }
    {
        if self.close(t)? {
            self.pass(t);
        }
        Ok(())
    }

    // Does as `end` where enough work was counted; else the thread goes on.
    pub(crate) fn cut(&mut self, t: Tid) -> Result<(), AllocError>
        requires made { t.0 < length self.old.own }
        requires pass { CanPassIn self.old t.0 }
        ensures ok { OnOk result (self.new ≡ core_cut t.0 self.old) }
        ensures err { OnErr result (self.new ≡ self.old) }
    {
        if self.workers[t.0 as usize].words.cuts() {
            return self.end(t);
        }
        self.pass(t);
        Ok(())
    }

    // Whether a check compares for a thread.
    fn compares(&self, t: Tid, when: When) -> bool
        requires { t.0 < length self.now.own }
        ensures { result ≡ is_active when (is_open self.now t.0) }
    {
        match when {
            When::Always => true,
            When::Plain => !self.rtm.xtest(t),
            When::Tx => self.rtm.xtest(t),
        }
    }

    // Whether both sides of a register have the same word of a type, where both have one.
    fn compare(&mut self, t: Tid, ty: &Ty, reg: Loc) -> Result<Option<bool>, AllocError>
        requires { t.0 < length self.old.own }
        ensures same_word { IfOk result (λ same. same ≡ compared_at self.old t.0 ty.now reg) }
        ensures unchanged { self.new ≡ self.old }
    {
        self.workers[t.0 as usize].compare(ty, reg)
    }

    // A check of a register.
    pub(crate) fn check(&mut self, t: Tid, when: When, ty: &Ty, reg: Loc) -> Result<(), AllocError>
        requires made { t.0 < length self.old.own }
        requires pass { CanPassIn self.old t.0 }
        ensures ok { OnOk result (self.new ≡ core_checked when ty.now reg t.0 self.old) }
        ensures err { OnErr result (self.new ≡ self.old) }
    {
        if !self.compares(t, when) {
            self.pass(t);
            return Ok(());
        }
        match self.compare(t, ty, reg)? {
            None => self.trap(t),
            Some(false) => self.fail(t),
            Some(true) => {
                self.pass(t);
                Ok(())
            }
        }
    }

    // Whether the master of a register has a word.
    fn has_word(&self, t: Tid, reg: Loc) -> bool
        requires { t.0 < length self.now.own }
        ensures { result ≡ is_some (copied_at self.now t.0 reg) }
    {
        self.workers[t.0 as usize].has_word(reg)
    }

    // The shadow of a register becomes its master.
    pub(crate) fn copy(&mut self, t: Tid, reg: Loc) -> Result<(), AllocError>
        requires made { t.0 < length self.old.own }
        requires pass { CanPassIn self.old t.0 }
        ensures ok { OnOk result (self.new ≡ core_copied reg t.0 self.old) }
        ensures err { OnErr result (self.new ≡ self.old) }
    {
        if !self.has_word(t, reg) {
            return self.trap(t);
        }
        self.workers[t.0 as usize].copy(reg)
    }

    // A thread reads memory as it sees it, and aborts those in its way.
    pub(crate) fn read(&mut self, t: Tid, place: Place) -> Got
        requires { t.0 < length self.old.own }
        ensures got { result ≡ got_of (entry_of self.old.rtm t.0 (reading place.address (bytes place.size))) (word_seen self.old.rtm t.0 place.address (bytes place.size)) }
        ensures parts { self.new ≡ core_touched (reading place.address (bytes place.size)) None t.0 self.old }
        ensures count { length self.new.own ≡ length self.old.own }
    {
        let got = self
            .rtm
            .read(t, place.address, place.size, &mut self.aborted)
            .unwrap();
        undo_each(&mut self.aborted, &mut self.workers, &mut self.elision);
        got
    }

    // A thread writes a word to memory as it sees it, and aborts those in its way.
    pub(crate) fn write(&mut self, t: Tid, place: Place, word: u64) -> Got
        requires made { t.0 < length self.old.own }
        requires fits { word < 2 ^ (8 * bytes place.size) }
        ensures got { result ≡ got_of (entry_of self.old.rtm t.0 (writing place.address (bytes place.size))) word }
        ensures parts { self.new ≡ core_touched (writing place.address (bytes place.size))
            (Some (record { address = place.address; size = bytes place.size; word = word })) t.0 self.old }
        ensures count { length self.new.own ≡ length self.old.own }
    {
        let got = self
            .rtm
            .write(t, place.address, place.size, word, &mut self.aborted)
            .unwrap();
        undo_each(&mut self.aborted, &mut self.workers, &mut self.elision);
        got
    }

    // A thread puts a word in the place of another in memory as it sees it, and aborts those in its way.
    fn exchange(&mut self, t: Tid, place: Place, word: u64) -> Got
        requires made { t.0 < length self.old.own }
        requires fits { word < 2 ^ (8 * bytes place.size) }
        ensures got { result ≡ got_of (entry_of self.old.rtm t.0 (updating place.address (bytes place.size))) (word_seen self.old.rtm t.0 place.address (bytes place.size)) }
        ensures parts { self.new ≡ core_touched (updating place.address (bytes place.size))
            (Some (record { address = place.address; size = bytes place.size; word = word })) t.0 self.old }
        ensures count { length self.new.own ≡ length self.old.own }
    {
        let got = self
            .rtm
            .update(t, place.address, place.size, Some(word), &mut self.aborted)
            .unwrap();
        undo_each(&mut self.aborted, &mut self.workers, &mut self.elision);
        got
    }

    // What an action on memory is without memory, once the word that is found is known.
    fn resolve(&self, t: Tid, action: &Action) -> Option<Action>
        requires { t.0 < length self.now.own }
        ensures access { result ≡ resolved_access (seen_by self.now.rtm t.0) action.now }
        ensures simple { IfSome result (λ simple. touch_of simple ≡ None) }
    {
        match action {
            Action::Read { place, .. } => Some(match self.peek(t, *place) {
                Some(word) => Action::Assign(u128::from(word)),
                None => Action::Fault(Cause::Access),
            }),
            Action::Write { place, .. } => Some(match self.peek(t, *place) {
                Some(_) => Action::Pass,
                None => Action::Fault(Cause::Access),
            }),
            Action::Update { place, update } => Some(match self.peek(t, *place) {
                Some(word) => Action::Assign(update.found(word)),
                None => Action::Fault(Cause::Access),
            }),
            Action::Assign(_)
            | Action::Reserve(_)
            | Action::Pass
            | Action::Jump(_)
            | Action::Call { .. }
            | Action::Ask(_)
            | Action::Create { .. }
            | Action::Join(_)
            | Action::Exit(_)
            | Action::Return(_)
            | Action::Fault(_) => None,
        }
    }

    // The word at a place as a thread sees it; `None` exactly where the place isn't valid.
    pub(crate) fn peek(&self, t: Tid, place: Place) -> Option<u64>
        requires { t.0 < length self.now.own }
        ensures word { result ≡ read_of (seen_by self.now.rtm t.0) place.address (bytes place.size) }
        ensures below { IfSome result (λ word. word < 2 ^ (8 * bytes place.size)) }
    {
        self.rtm.peek(t, place.address, place.size)
    }

    // A thread does an action without memory. The answer is why it can't, where it can't; then, and for want of memory, nothing changes.
    fn move_simply(
        &mut self,
        t: Tid,
        target: Option<(Side, Loc)>,
        action: &Action,
    ) -> Result<Option<Cause>, AllocError>
        requires made { t.0 < length self.old.own }
        requires pass { CanPassIn self.old t.0 }
        requires apart { touch_of action.now ≡ None }
        ensures cause { IfOk result (λ cause. cause ≡ failure_simply self.old t.0 action.now) }
        ensures ok { OnOk result (self.new ≡ core_moved target action.now t.0 self.old) }
        ensures failed { IfOk result (λ cause. OnSome cause (self.new ≡ self.old)) }
        ensures err { OnErr result (self.new ≡ self.old) }
    {
        self.workers[t.0 as usize].act(self.alloc, &self.program, &mut self.room, t, target, action)
    }

    // A thread does what an action is for itself, and nothing to memory. The answer is as before.
    fn move_thread(
        &mut self,
        t: Tid,
        target: Option<(Side, Loc)>,
        action: &Action,
    ) -> Result<Option<Cause>, AllocError>
        requires made { t.0 < length self.old.own }
        requires pass { CanPassIn self.old t.0 }
        ensures cause { IfOk result (λ cause. cause ≡ failure_at self.old t.0 action.now) }
        ensures ok { OnOk result (self.new ≡ core_done target action.now t.0 self.old) }
        ensures failed { IfOk result (λ cause. OnSome cause (self.new ≡ self.old)) }
        ensures err { OnErr result (self.new ≡ self.old) }
    {
        match self.resolve(t, action) {
            Some(simple) => self.move_simply(t, target, &simple),
            None => self.move_simply(t, target, action),
        }
    }

    // A turn of a thread is told, where it retires an instruction of the source. For want of memory nothing changes.
    pub(crate) fn tell(&mut self, t: Tid, retires: bool) -> Result<(), AllocError>
        requires { t.0 < length self.old.own }
        ensures ok { OnOk result (self.new ≡ core_told retires t.0 self.old) }
        ensures err { OnErr result (self.new ≡ self.old) }
    {
        if !retires {
            return Ok(());
        }
        if self.rtm.xtest(t) {
            self.workers[t.0 as usize].retire()
        } else {
            self.turns.push_run(t, 1)
        }
    }

    // The turn that was told didn't come.
    pub(crate) fn untell(&mut self, t: Tid, retires: bool)
        requires { t.0 < length self.old.own }
        ensures { self.new ≡ core_untold retires t.0 self.old }
    {
        if !retires {
            return;
        }
        if self.rtm.xtest(t) {
            self.workers[t.0 as usize].unretire();
        } else {
            self.turns.take_back();
        }
    }

    // A word in memory becomes another, as an update says.
    fn update(&mut self, t: Tid, place: Place, update: Update) -> Got
        requires made { t.0 < length self.old.own }
        requires fits { IsFittingUpdate place update }
        ensures got { result ≡ got_of (entry_of self.old.rtm t.0 (updating place.address (bytes place.size))) (word_seen self.old.rtm t.0 place.address (bytes place.size)) }
        ensures parts { self.new ≡ core_touched (updating place.address (bytes place.size))
            (Some (record { address = place.address; size = bytes place.size; word = updated update (word_seen self.old.rtm t.0 place.address (bytes place.size)) })) t.0 self.old }
        ensures count { length self.new.own ≡ length self.old.own }
    {
        match self.peek(t, place) {
            Some(old) => self.exchange(t, place, update.updated(old)),
            None => Got::Trap,
        }
    }

    // Does to memory what an action of a thread does there, and aborts those in its way. The answer is `false` exactly where a list is full, and then
    // nothing changes.
    fn access(&mut self, t: Tid, action: &Action) -> bool
        requires made { t.0 < length self.old.own }
        requires fits { IsFitting action.now }
        ensures room { result ≡ room_for action.now t.0 self.old }
        ensures parts { self.new ≡ core_accessed action.now t.0 self.old }
        ensures count { length self.new.own ≡ length self.old.own }
    {
        let got = match action {
            Action::Read { place, .. } => self.read(t, *place),
            Action::Write { place, word, .. } => self.write(t, *place, *word),
            Action::Update { place, update } => self.update(t, *place, *update),
            Action::Assign(_)
            | Action::Reserve(_)
            | Action::Pass
            | Action::Jump(_)
            | Action::Call { .. }
            | Action::Ask(_)
            | Action::Create { .. }
            | Action::Join(_)
            | Action::Exit(_)
            | Action::Return(_)
            | Action::Fault(_) => return true,
        };
        took(got)
    }

    // A thread does an action alone.
    pub(crate) fn act_alone(
        &mut self,
        t: Tid,
        target: Option<(Side, Loc)>,
        retires: bool,
        action: &Action,
    ) -> Result<(), AllocError>
        requires made { t.0 < length self.old.own }
        requires pass { CanPassIn self.old t.0 }
        requires fits { IsFitting action.now }
        ensures ok { OnOk result (self.new ≡ core_alone retires target action.now t.0 self.old) }
        ensures err { OnErr result (self.new ≡ self.old) }
    {
        self.tell(t, retires)?;
        match self.move_thread(t, target, action) {
            Err(error) => {
                self.untell(t, retires);
                Err(error)
            }
            Ok(Some(_)) => {
                self.untell(t, retires);
                self.trap(t)
            }
            Ok(None) => {
                if !self.access(t, action) {
                    self.abort(t, Status::Overflow);
                }
                Ok(())
            }
        }
    }

    // Thread u is aborted where it watches a mutex that another takes.
    fn abort_watcher(&mut self, u: Tid, t: Tid, address: u64)
        requires { u.0 < length self.old.own }
        ensures parts { self.new ≡ watcher_if (watches_other self.old t.0 address u.0) u.0 self.old }
        ensures count { length self.new.own ≡ length self.old.own }
    {
        if u.0 != t.0 && self.elision.watches(u, address) {
            self.abort(u, Status::Conflict);
        }
    }

    // A thread outside has taken a mutex: all others that watch it are aborted.
    pub(crate) fn abort_watchers(&mut self, t: Tid, address: u64)
        ensures parts { self.new ≡ core_taken address t.0 self.old }
        ensures count { length self.new.own ≡ length self.old.own }
    {
        for u in 0..self.workers.len() {
            self.abort_watcher(Tid(u as u32), t, address);
        }
    }

    // The mutex that a request takes is taken from those that watch it.
    fn take(&mut self, t: Tid, request: Request)
        ensures parts { self.new ≡ core_taking request t.0 self.old }
        ensures count { length self.new.own ≡ length self.old.own }
    {
        match request {
            Request::Lock(address) => self.abort_watchers(t, address),
            Request::Unlock(_)
            | Request::Put(_)
            | Request::Output(_)
            | Request::Allocate(_)
            | Request::Free
            | Request::Argument(_) => {}
        }
    }

    // A thread asks the environment for something; where that answers, the thread has its result.
    fn request(
        &mut self,
        t: Tid,
        target: Option<(Side, Loc)>,
        request: Request,
    ) -> Result<Reply, AllocError>
        requires made { t.0 < length self.old.own }
        requires pass { CanPassIn self.old t.0 }
        ensures reply { IfOk result (λ reply. reply ≡ reply_at self.old t.0 request) }
        ensures ok { OnOk result (self.new ≡ core_requested target request t.0 self.old) }
        ensures err { OnErr result (self.new ≡ self.old) }
    {
        self.workers[t.0 as usize].ask(&self.program, &mut self.world, t, target, request)
    }

    // A thread asks the environment for something, outside or where no mutex is asked for.
    pub(crate) fn ask(
        &mut self,
        t: Tid,
        target: Option<(Side, Loc)>,
        retires: bool,
        request: Request,
    ) -> Result<(), AllocError>
        requires made { t.0 < length self.old.own }
        requires pass { CanPassIn self.old t.0 }
        ensures ok { OnOk result (self.new ≡ core_asked retires target request t.0 self.old) }
        ensures err { OnErr result (self.new ≡ self.old) }
    {
        self.tell(t, retires)?;
        match self.request(t, target, request) {
            Err(error) => {
                self.untell(t, retires);
                Err(error)
            }
            Ok(Reply::Waits) => {
                self.untell(t, retires);
                Ok(())
            }
            Ok(Reply::Refuses(_)) => {
                self.untell(t, retires);
                self.trap(t)
            }
            Ok(Reply::Answers(_)) => {
                self.take(t, request);
                Ok(())
            }
        }
    }
}
