//! What changes a thread and memory alone.
ghost use Rattle.std.specs.Prelude.{ℕ, [], ◌≡◌, ◌+◌, ◌<◌, ◌^◌, ◌*◌, nat_le, nat_lt, suc, ◌∷◌, None, IfOk, OnOk, OnErr, unwrap_or};
ghost use Rattle.std.specs.Option.{is_some};
ghost use Rattle.mem_image.specs.Accesses.{bytes};
ghost use Rattle.mem_image.specs.Bytes.{peek};
ghost use Rattle.inst_meaning.specs.Accesses.{found, updated, word_read, IsFitting, IsFittingUpdate};
ghost use Rattle.inst_meaning.specs.declared.actions.Cause.TheVariants.{Stack, Depth, Unreachable};
ghost use Rattle.ir_layout.specs.Memory.{frame_limit};
ghost use Rattle.process.specs.State.{frame_count, stack_start};
ghost use Rattle.process.specs.Outcome.{reserved, unless, unless_valid, failure, returned, thread_after, store_of, touch_of};
ghost use Rattle.process.specs.declared.state.Thread.TheVariants.{Running};
ghost use Rattle.mem_image.specs.Touches.{stored_with};
ghost use Rattle.process.specs.code.Moves.{where_done, cause_in, thread_in};

use crate::code::stack_start;
use crate::{CallStack, Code, View};
use inst_meaning::{Action, Cause, Place, Update};
use ir_core::{Loc, Tid};
use ir_layout::{FRAME_LIMIT, STACK_SIZE};
use std::alloc::{AllocError, Global};

/// What an action comes to that a thread does alone.
#[derive(Clone, Copy, PartialEq, Eq)]
pub enum Local {
    /// It was done.
    Done,
    /// It was done, and the thread's own function has returned this word.
    Returned(u64),
    /// It can't be done.
    Failed(Cause),
}

impl<F: Drop> CallStack<F> {
    /// The instruction is done, with a result.
    pub(crate) fn finish<P: Code<Frame = F>>(
        &mut self,
        program: &P,
        target: P::Target,
        word: u128,
    ) -> Result<(), AllocError>
        requires { P.can_pass self.old.frame }
        ensures ok { OnOk result (self.new ≡ record self.old { frame = (P.frames program.now).result target word self.old.frame }) }
        ensures err { OnErr result (self.new ≡ self.old) }
    {
        program.finish(&mut self.frame, target, word)?;
        Ok(())
    }

    // Bytes of the stack are taken.
    fn reserve<P: Code<Frame = F>>(
        &mut self,
        program: &P,
        t: Tid,
        target: P::Target,
        size: u64,
    ) -> Result<Local, AllocError>
        requires { P.can_pass self.old.frame }
        ensures cause { IfOk result (λ local. cause_in local ≡ unless (nat_le (reserved self.old + size) (stack_start (suc t.0))) Stack) }
        ensures stack { IfOk result (λ local. thread_in local self.new
            ≡ Running (where_done (cause_in local)
            (record self.old { mark = reserved self.old + size; frame = (P.frames program.now).result target (reserved self.old) self.old.frame }) self.old)) }
        ensures err { OnErr result (self.new ≡ self.old) }
    {
        let end = stack_start(t.0) + STACK_SIZE;
        if self.mark > end {
            return Ok(Local::Failed(Cause::Stack));
        }
        let start = self.mark.next_multiple_of(16);
        if size > end - start {
            return Ok(Local::Failed(Cause::Stack));
        }
        self.finish(program, target, u128::from(start))?;
        self.mark = start + size;
        Ok(Local::Done)
    }

    // A word is read.
    fn read<P: Code<Frame = F>, V: View>(
        &mut self,
        program: &P,
        view: &V,
        target: P::Target,
        place: Place,
    ) -> Result<Local, AllocError>
        requires { P.can_pass self.old.frame }
        ensures cause { IfOk result (λ local. cause_in local ≡ unless_valid (V.memory view.now).places place) }
        ensures stack { IfOk result (λ local. thread_in local self.new
            ≡ Running (where_done (cause_in local)
            (record self.old { frame = (P.frames program.now).result target (peek (V.memory view.now) place.address (bytes place.size)) self.old.frame }) self.old)) }
        ensures err { OnErr result (self.new ≡ self.old) }
    {
        let Some(word) = view.read(place.address, place.size) else {
            return Ok(Local::Failed(Cause::Access));
        };
        self.finish(program, target, u128::from(word))?;
        Ok(Local::Done)
    }

    // A word is written.
    fn write<P: Code<Frame = F>, V: View>(
        &mut self,
        program: &P,
        view: &mut V,
        place: Place,
        word: u64,
    ) -> Local
        requires passes { P.can_pass self.old.frame }
        requires fits { word < 2 ^ (8 * bytes place.size) }
        ensures cause { cause_in result ≡ unless_valid (V.memory view.old).places place }
        ensures stack { thread_in result self.new
            ≡ Running (where_done (cause_in result) (record self.old { frame = (P.frames program.now).advance self.old.frame }) self.old) }
        ensures view { view.new ≡ where_done (cause_in result) (V.stored view.old place.address (bytes place.size) word) view.old }
    {
        if !view.write(place.address, place.size, word) {
            return Local::Failed(Cause::Access);
        }
        program.advance(&mut self.frame);
        Local::Done
    }

    // A word is changed.
    fn update<P: Code<Frame = F>, V: View>(
        &mut self,
        program: &P,
        view: &mut V,
        target: P::Target,
        place: Place,
        update: Update,
    ) -> Result<Local, AllocError>
        requires passes { P.can_pass self.old.frame }
        requires fits { IsFittingUpdate place update }
        ensures cause { IfOk result (λ local. cause_in local ≡ unless_valid (V.memory view.old).places place) }
        ensures stack { IfOk result (λ local. thread_in local self.new
            ≡ Running (where_done (cause_in local)
            (record self.old { frame = (P.frames program.now).result target (found update (peek (V.memory view.old) place.address (bytes place.size))) self.old.frame }) self.old)) }
        ensures view { IfOk result (λ local. view.new
            ≡ where_done (cause_in local) (V.stored view.old place.address (bytes place.size) (updated update (peek (V.memory view.old) place.address (bytes place.size)))) view.old) }
        ensures err { OnErr result ((self.new ≡ self.old) × (view.new ≡ view.old)) }
    {
        let Some(old) = view.read(place.address, place.size) else {
            return Ok(Local::Failed(Cause::Access));
        };
        self.finish(program, target, update.found(old))?;
        let _ = view.write(place.address, place.size, update.updated(old));
        Ok(Local::Done)
    }

    // The frame goes along an edge.
    fn jump<P: Code<Frame = F>>(
        &mut self,
        program: &P,
        label: Loc,
        room: &mut P::Room,
    ) -> Result<Local, AllocError>
        ensures cause { IfOk result (λ local. cause_in local ≡ unless (is_some ((P.frames program.now).jump label self.old.frame)) Unreachable) }
        ensures stack { IfOk result (λ local. thread_in local self.new
            ≡ Running (record self.old { frame = unwrap_or ((P.frames program.now).jump label self.old.frame) self.old.frame })) }
        ensures err { OnErr result (self.new ≡ self.old) }
    {
        if program.jump(&mut self.frame, label, room)? {
            Ok(Local::Done)
        } else {
            Ok(Local::Failed(Cause::Unreachable))
        }
    }

    // A function is entered, and the frame waits for it.
    fn call<P: Code<Frame = F>>(
        &mut self,
        alloc: Global,
        program: &P,
        target: P::Target,
        function: usize,
        words: &[u64],
    ) -> Result<Local, AllocError>
        requires { P.can_pass self.old.frame }
        ensures cause { IfOk result (λ local. cause_in local ≡ unless (nat_lt (frame_count self.old) frame_limit) Depth) }
        ensures stack { IfOk result (λ local. thread_in local self.new
            ≡ Running (where_done (cause_in local)
            (record self.old { frame = (P.frames program.now).enter function words.now self.old.mark; callers = (P.frames program.now).suspend target self.old.frame ∷ self.old.callers }) self.old)) }
        ensures err { OnErr result (self.new ≡ self.old) }
    {
        if self.callers.len() >= FRAME_LIMIT - 1 {
            return Ok(Local::Failed(Cause::Depth));
        }
        let entered = program.enter(alloc, function, words, self.mark)?;
        self.callers
            .cover(program, target, &mut self.frame, entered)?;
        Ok(Local::Done)
    }

    // The frame's function returns.
    fn give_back<P: Code<Frame = F>>(&mut self, program: &P, word: u64) -> Result<Local, AllocError>
        ensures cause { IfOk result (λ local. cause_in local ≡ None) }
        ensures stack { IfOk result (λ local. thread_in local self.new
            ≡ returned (P.frames program.now) word ((P.frames program.now).mark self.old.frame) self.old.callers) }
        ensures err { OnErr result (self.new ≡ self.old) }
    {
        self.callers.resume(program, word)?;
        let mark = program.mark(&self.frame);
        if self.callers.uncover(&mut self.frame) {
            self.mark = mark;
            Ok(Local::Done)
        } else {
            Ok(Local::Returned(word))
        }
    }

    /// Does an action that a thread does alone and without memory. For want of memory nothing changes.
    pub fn act_apart<P: Code<Frame = F>>(
        &mut self,
        alloc: Global,
        program: &P,
        room: &mut P::Room,
        t: Tid,
        target: P::Target,
        action: &Action,
    ) -> Result<Local, AllocError>
        requires passes { P.can_pass self.old.frame }
        requires apart { touch_of action.now ≡ None }
        ensures cause { IfOk result (λ local. cause_in local ≡ failure (P.frames program.now) [] t.0 self.old action.now) }
        ensures thread { IfOk result (λ local. thread_in local self.new
            ≡ where_done (cause_in local) (thread_after (P.frames program.now) target self.old action.now 0) (Running self.old)) }
        ensures err { OnErr result (self.new ≡ self.old) }
    {
        match action {
            Action::Assign(word) => {
                self.finish(program, target, *word)?;
                Ok(Local::Done)
            }
            Action::Reserve(size) => self.reserve(program, t, target, *size),
            Action::Pass => {
                program.advance(&mut self.frame);
                Ok(Local::Done)
            }
            Action::Jump(label) => self.jump(program, *label, room),
            Action::Call { function, words } => {
                self.call(alloc, program, target, *function, words.items())
            }
            Action::Return(word) => self.give_back(program, *word),
            Action::Fault(cause) => Ok(Local::Failed(*cause)),
            Action::Read { .. }
            | Action::Write { .. }
            | Action::Update { .. }
            | Action::Ask(_)
            | Action::Create { .. }
            | Action::Join(_)
            | Action::Exit(_) => Ok(Local::Done),
        }
    }

    /// Does an action that a thread does alone, on the memory that it sees. For want of memory nothing changes.
    pub fn act<P: Code<Frame = F>, V: View>(
        &mut self,
        alloc: Global,
        program: &P,
        view: &mut V,
        room: &mut P::Room,
        t: Tid,
        target: P::Target,
        action: &Action,
    ) -> Result<Local, AllocError>
        requires passes { P.can_pass self.old.frame }
        requires fits { IsFitting action.now }
        ensures cause { IfOk result (λ local. cause_in local ≡ failure (P.frames program.now) (V.memory view.old).places t.0 self.old action.now) }
        ensures thread { IfOk result (λ local. thread_in local self.new
            ≡ where_done (cause_in local)
            (thread_after (P.frames program.now) target self.old action.now (word_read (V.memory view.old) action.now)) (Running self.old)) }
        ensures view { IfOk result (λ local. view.new
            ≡ where_done (cause_in local) (stored_with V.stored (store_of action.now (word_read (V.memory view.old) action.now)) view.old) view.old) }
        ensures err { OnErr result ((self.new ≡ self.old) × (view.new ≡ view.old)) }
    {
        match action {
            Action::Assign(word) => {
                self.finish(program, target, *word)?;
                Ok(Local::Done)
            }
            Action::Reserve(size) => self.reserve(program, t, target, *size),
            Action::Read { place, .. } => self.read(program, view, target, *place),
            Action::Write { place, word, .. } => Ok(self.write(program, view, *place, *word)),
            Action::Update { place, update } => self.update(program, view, target, *place, *update),
            Action::Pass => {
                program.advance(&mut self.frame);
                Ok(Local::Done)
            }
            Action::Jump(label) => self.jump(program, *label, room),
            Action::Call { function, words } => {
                self.call(alloc, program, target, *function, words.items())
            }
            Action::Return(word) => self.give_back(program, *word),
            Action::Fault(cause) => Ok(Local::Failed(*cause)),
            Action::Ask(_) | Action::Create { .. } | Action::Join(_) | Action::Exit(_) => {
                Ok(Local::Done)
            }
        }
    }
}
