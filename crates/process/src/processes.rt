//! Memory, threads and the environment at work together.
ghost use Rattle.std.specs.Option.{option_copied};
ghost use Rattle.std.specs.Prelude.{ℕ, ◌≡◌, ◌+◌, ◌<◌, ◌≤◌, ◌%◌, ◌^◌, true, [], ◌∷◌, length, slice_get, None, Some, IfOk, IfSome, OnOk, OnErr, OnSome};
ghost use Rattle.inst_meaning.specs.declared.actions.Action.TheVariants.{Ask, Create, Join};
ghost use Rattle.inst_meaning.specs.Accesses.{IsFitting};
ghost use Rattle.inst_meaning.specs.World.{asked_of, opening_world};
ghost use Rattle.process.specs.declared.state.Thread.TheVariants.{Ended};
ghost use Rattle.process.specs.State.{new_thread};
ghost use Rattle.process.specs.Process.{with_thread};
ghost use Rattle.process.specs.code.Moves.{answered};
ghost use Rattle.process.specs.code.Threads.{step_of, went_or, CanPass, CanPassAt, finished, cause_at, thread_at, memory_at, outside_of, action_for, acted_at, answer_to, world_after, thread_asked, with_finished, with_added, runs, order_at};

use crate::code::stack_start;
use crate::{CallStack, Callers, Code, Local, Step, Thread};
use inst_meaning::{Action, Cause, Reply, Request, World};
use ir_core::{Out, Outs, Tid};
use ir_layout::THREAD_LIMIT;
use mem_image::{Image, Size};
use std::alloc::{AllocError, Global};
use std::marker::Model;

/// Memory, threads and the environment. Contracts see these three.
#[derive(Drop)]
pub struct Process<F, R> {
    image: Image,
    threads: Vec<Thread<F>>,
    world: World,
    room: R,
    alloc: Global,
}

impl<F, R> Model for Process<F, R> {
    ghost use Rattle.std.specs.Prelude.{◌≤◌, length};
    ghost use Rattle.process.specs.State.{ProcessParts};

    ghost Value = { ProcessParts F };

    ghost invariant = { λ p. length p.threads.items ≤ 64 };

    ghost view = { λ p. record { memory = p.image; threads = p.threads.items; world = p.world } };
}

/// What an action asks for that a thread and memory can't do alone.
#[derive(Clone, Copy, PartialEq, Eq)]
pub(crate) enum Outside {
    /// Something of the environment.
    Asks(Request),
    /// A new thread.
    Creates {
        address: u64,
        function: usize,
        argument: u64,
    },
    /// A thread's end.
    Joins(u64),
    /// The program's end.
    Exits(u64),
}

impl Outside {
    // What an action asks for, where it is none of a thread and memory alone.
    fn of(action: &Action) -> Option<Outside>
        ensures { result ≡ outside_of action.now }
    {
        match action {
            Action::Ask(request) => Some(Outside::Asks(*request)),
            Action::Create {
                address,
                function,
                argument,
            } => Some(Outside::Creates {
                address: *address,
                function: *function,
                argument: *argument,
            }),
            Action::Join(other) => Some(Outside::Joins(*other)),
            Action::Exit(code) => Some(Outside::Exits(*code)),
            _ => None,
        }
    }
}

// What a step answers where the environment replies so.
fn step_of(reply: Reply) -> Step
    ensures { result ≡ step_of reply }
{
    match reply {
        Reply::Answers(_) => Step::Went,
        Reply::Waits => Step::Waits,
        Reply::Refuses(cause) => Step::Undefined(cause),
    }
}

impl<F: Drop> Thread<F> {
    /// A new thread in a function.
    pub fn start<P: Code<Frame = F>>(
        alloc: Global,
        program: &P,
        t: u32,
        function: usize,
        words: &[u64],
    ) -> Result<Thread<F>, AllocError>
        requires { t < 64 }
        ensures { IfOk result (λ thread. thread ≡ new_thread (P.frames program.now) t function words.now) }
    {
        let mark = stack_start(t);
        let frame = program.enter(alloc, function, words, mark)?;
        Ok(Thread::Running(CallStack {
            mark,
            frame,
            callers: Callers::new(alloc),
        }))
    }

    // What the instruction at the thread's place asks for, where it has one.
    fn decode<P: Code<Frame = F>>(
        &mut self,
        alloc: Global,
        program: &P,
    ) -> Result<Option<P::Order>, AllocError>
        ensures order { IfOk result (λ found. found ≡ order_at (P.order program.now) (Some self.old)) }
        ensures within { IfOk result (λ found. OnSome found (CanPass P.can_pass self.old)) }
        ensures fits { IfOk result (λ found. IfSome found P.fits) }
        ensures same { self.new ≡ self.old }
    {
        match self {
            Thread::Running(stack) => program.decode(alloc, &mut stack.frame),
            Thread::Exiting(_) | Thread::Ended => Ok(None),
        }
    }

    // The call at which the thread stands is done, with this result.
    fn finish<P: Code<Frame = F>>(
        &mut self,
        program: &P,
        target: P::Target,
        word: u64,
    ) -> Result<(), AllocError>
        requires { CanPass P.can_pass self.old }
        ensures ok { OnOk result (self.new ≡ finished (P.frames program.now) target word self.old) }
        ensures err { OnErr result (self.new ≡ self.old) }
    {
        if let Thread::Running(stack) = self {
            stack.finish(program, target, u128::from(word))?;
        }
        Ok(())
    }

    // The thread asks the environment for something.
    fn ask<P: Code<Frame = F>>(
        &mut self,
        program: &P,
        world: &mut World,
        t: Tid,
        target: P::Target,
        request: Request,
    ) -> Result<Step, AllocError>
        requires { CanPass P.can_pass self.old }
        ensures answer { IfOk result (λ answer. answer ≡ answer_to request t.0 world.old self.old) }
        ensures world { OnOk result (world.new ≡ world_after request t.0 world.old self.old) }
        ensures thread { OnOk result (self.new ≡ thread_asked (P.frames program.now) request t.0 target world.old self.old) }
        ensures err { OnErr result ((world.new ≡ world.old) × (self.new ≡ self.old)) }
    {
        match self {
            Thread::Running(stack) => {
                let reply = program.ask(&mut stack.frame, world, request, t, target)?;
                Ok(step_of(reply))
            }
            Thread::Exiting(_) | Thread::Ended => Ok(Step::Idle),
        }
    }

    // The thread does an action alone.
    fn act<P: Code<Frame = F>>(
        &mut self,
        alloc: Global,
        program: &P,
        image: &mut Image,
        room: &mut P::Room,
        t: Tid,
        target: P::Target,
        action: &Action,
    ) -> Result<Step, AllocError>
        requires pass { CanPass P.can_pass self.old }
        requires fits { IsFitting action.now }
        ensures answer { IfOk result (λ answer. answer ≡ went_or (cause_at (P.frames program.now) image.old t.0 self.old action.now)) }
        ensures thread { OnOk result (self.new ≡ thread_at (P.frames program.now) image.old t.0 target self.old action.now) }
        ensures memory { OnOk result (image.new ≡ memory_at (P.frames program.now) image.old t.0 self.old action.now) }
        ensures err { OnErr result ((self.new ≡ self.old) × (image.new ≡ image.old)) }
    {
        let Thread::Running(stack) = self else {
            return Ok(Step::Went);
        };
        match stack.act(alloc, program, image, room, t, target, action)? {
            Local::Done => Ok(Step::Went),
            Local::Returned(word) => {
                *self = Thread::Exiting(word);
                Ok(Step::Went)
            }
            Local::Failed(cause) => Ok(Step::Undefined(cause)),
        }
    }
}

impl<F: Drop, R: Drop> Process<F, R> {
    /// A process with this memory and these arguments, in which thread 0 stands at the entry of a function without parameters.
    pub fn new<P: Code<Frame = F, Room = R>>(
        alloc: Global,
        program: &P,
        image: Image,
        room: R,
        main: usize,
        args: &[u64],
    ) -> Result<Process<F, R>, AllocError>
        ensures { IfOk result (λ process. process
            ≡ record { memory = image; threads = new_thread (P.frames program.now) 0 main [] ∷ []; world = opening_world args.now }) }
    {
        let world = World::new(alloc, args)?;
        let mut threads = Vec::new(alloc);
        threads.push(Thread::start(alloc, program, 0, main, &[])?)?;
        Ok(Process {
            image,
            threads,
            world,
            room,
            alloc,
        })
    }

    /// What the program has given out so far.
    pub fn outputs(&self) -> &[Out]
        ensures { result.now ≡ self.now.world.outputs }
    {
        self.world.outputs()
    }

    /// What the program has given out. It takes no memory.
    pub fn into_outputs(self) -> Outs
        ensures { result ≡ self.world.outputs }
    {
        let Process { world, .. } = self;
        world.into_outputs()
    }

    /// How many threads were made.
    pub fn made(&self) -> usize
        ensures count { result ≡ length self.now.threads }
        ensures few { result ≤ 64 }
    {
        self.threads.len()
    }

    /// The thread of a number, where it was made.
    pub fn thread(&self, t: Tid) -> Option<&Thread<F>>
        ensures { option_copied result ≡ slice_get self.now.threads t.0 }
    {
        self.threads.get(t.0 as usize)
    }

    /// A thread ends.
    pub fn end(&mut self, t: Tid)
        ensures { self.new ≡ with_thread self.old t.0 Ended }
    {
        if let Some(thread) = self.threads.get_mut(t.0 as usize) {
            *thread = Thread::Ended;
        }
    }

    // The call at which a thread stands is done, with this result.
    fn finish_call<P: Code<Frame = F>>(
        &mut self,
        program: &P,
        t: Tid,
        target: P::Target,
        word: u64,
    ) -> Result<(), AllocError>
        requires { CanPassAt P.can_pass (slice_get self.old.threads t.0) }
        ensures ok { OnOk result (self.new ≡ with_finished (P.frames program.now) target word t.0 self.old) }
        ensures err { OnErr result (self.new ≡ self.old) }
    {
        let place = t.0 as usize;
        if place < self.threads.len() {
            self.threads[place].finish(program, target, word)?;
        }
        Ok(())
    }

    // A thread asks the environment for something.
    fn ask<P: Code<Frame = F>>(
        &mut self,
        program: &P,
        t: Tid,
        target: P::Target,
        request: Request,
    ) -> Result<Step, AllocError>
        requires pass { CanPassAt P.can_pass (slice_get self.old.threads t.0) }
        requires runs { runs (slice_get self.old.threads t.0) ≡ true }
        ensures answer { IfOk result (λ answer. answer ≡ (acted_at (P.frames program.now) self.old t.0 target (Ask request)).1) }
        ensures process { OnOk result (self.new ≡ (acted_at (P.frames program.now) self.old t.0 target (Ask request)).0) }
        ensures err { OnErr result (self.new ≡ self.old) }
    {
        let place = t.0 as usize;
        let answer = self.threads[place].ask(program, &mut self.world, t, target, request)?;
        Ok(answer)
    }

    // A thread is made, where there is room for one and its number has a place.
    fn create<P: Code<Frame = F>>(
        &mut self,
        program: &P,
        t: Tid,
        target: P::Target,
        address: u64,
        function: usize,
        argument: u64,
    ) -> Result<Step, AllocError>
        requires pass { CanPassAt P.can_pass (slice_get self.old.threads t.0) }
        requires runs { runs (slice_get self.old.threads t.0) ≡ true }
        ensures answer { IfOk result (λ answer. answer ≡ (acted_at (P.frames program.now) self.old t.0 target (Create address function argument)).1) }
        ensures process { OnOk result (self.new ≡ (acted_at (P.frames program.now) self.old t.0 target (Create address function argument)).0) }
        ensures err { OnErr result (self.new ≡ self.old) }
    {
        let number = self.threads.len();
        if number >= THREAD_LIMIT {
            self.finish_call(program, t, target, 11)?;
            return Ok(Step::Went);
        }
        if self.image.read(address, Size::S8).is_none() {
            return Ok(Step::Undefined(Cause::Access));
        }
        let thread = Thread::start(self.alloc, program, number as u32, function, &[argument])?;
        self.add_thread(program, t, target, thread)?;
        let _ = self.image.write(address, Size::S8, number as u64);
        Ok(Step::Went)
    }

    // A thread is added after the others, and the call at which one stands is done.
    fn add_thread<P: Code<Frame = F>>(
        &mut self,
        program: &P,
        t: Tid,
        target: P::Target,
        thread: Thread<F>,
    ) -> Result<(), AllocError>
        requires pass { CanPassAt P.can_pass (slice_get self.old.threads t.0) }
        requires runs { runs (slice_get self.old.threads t.0) ≡ true }
        requires room { length self.old.threads < 64 }
        ensures ok { OnOk result (self.new ≡ with_added thread (with_finished (P.frames program.now) target 0 t.0 self.old)) }
        ensures err { OnErr result (self.new ≡ self.old) }
    {
        self.threads.push(thread)?;
        let place = t.0 as usize;
        if let Err(error) = self.threads[place].finish(program, target, 0) {
            drop(self.threads.pop());
            return Err(error);
        }
        Ok(())
    }

    // A thread is waited for.
    fn join<P: Code<Frame = F>>(
        &mut self,
        program: &P,
        t: Tid,
        target: P::Target,
        other: u64,
    ) -> Result<Step, AllocError>
        requires pass { CanPassAt P.can_pass (slice_get self.old.threads t.0) }
        requires runs { runs (slice_get self.old.threads t.0) ≡ true }
        ensures answer { IfOk result (λ answer. answer ≡ (acted_at (P.frames program.now) self.old t.0 target (Join other)).1) }
        ensures process { OnOk result (self.new ≡ (acted_at (P.frames program.now) self.old t.0 target (Join other)).0) }
        ensures err { OnErr result (self.new ≡ self.old) }
    {
        if other >= self.threads.len() as u64 {
            return Ok(Step::Undefined(Cause::Join));
        }
        match self.threads[other as usize] {
            Thread::Ended => {
                self.finish_call(program, t, target, 0)?;
                Ok(Step::Went)
            }
            Thread::Running(_) | Thread::Exiting(_) => Ok(Step::Waits),
        }
    }

    // A thread does what takes more than itself and memory.
    fn act_outside<P: Code<Frame = F>>(
        &mut self,
        program: &P,
        t: Tid,
        target: P::Target,
        outside: Outside,
    ) -> Result<Step, AllocError>
        requires pass { CanPassAt P.can_pass (slice_get self.old.threads t.0) }
        requires runs { runs (slice_get self.old.threads t.0) ≡ true }
        ensures answer { IfOk result (λ answer. answer ≡ (acted_at (P.frames program.now) self.old t.0 target (action_for outside)).1) }
        ensures process { OnOk result (self.new ≡ (acted_at (P.frames program.now) self.old t.0 target (action_for outside)).0) }
        ensures err { OnErr result (self.new ≡ self.old) }
    {
        match outside {
            Outside::Asks(request) => self.ask(program, t, target, request),
            Outside::Creates {
                address,
                function,
                argument,
            } => self.create(program, t, target, address, function, argument),
            Outside::Joins(other) => self.join(program, t, target, other),
            Outside::Exits(code) => Ok(Step::Ended((code % (1 << 32)) as u32)),
        }
    }

    // A thread does an action alone.
    fn act_alone<P: Code<Frame = F, Room = R>>(
        &mut self,
        program: &P,
        t: Tid,
        target: P::Target,
        action: &Action,
    ) -> Result<Step, AllocError>
        requires pass { CanPassAt P.can_pass (slice_get self.old.threads t.0) }
        requires runs { runs (slice_get self.old.threads t.0) ≡ true }
        requires alone { outside_of action.now ≡ None }
        requires fits { IsFitting action.now }
        ensures answer { IfOk result (λ answer. answer ≡ (acted_at (P.frames program.now) self.old t.0 target action.now).1) }
        ensures process { OnOk result (self.new ≡ (acted_at (P.frames program.now) self.old t.0 target action.now).0) }
        ensures err { OnErr result (self.new ≡ self.old) }
    {
        let place = t.0 as usize;
        let answer = self.threads[place].act(
            self.alloc,
            program,
            &mut self.image,
            &mut self.room,
            t,
            target,
            action,
        )?;
        Ok(answer)
    }

    /// A thread that runs does an action. After want of memory, and where the action waits or is undefined, nothing has changed.
    pub fn act<P: Code<Frame = F, Room = R>>(
        &mut self,
        program: &P,
        t: Tid,
        target: P::Target,
        action: &Action,
    ) -> Result<Step, AllocError>
        requires pass { CanPassAt P.can_pass (slice_get self.old.threads t.0) }
        requires runs { runs (slice_get self.old.threads t.0) ≡ true }
        requires fits { IsFitting action.now }
        ensures answer { IfOk result (λ answer. answer ≡ (acted_at (P.frames program.now) self.old t.0 target action.now).1) }
        ensures process { OnOk result (self.new ≡ (acted_at (P.frames program.now) self.old t.0 target action.now).0) }
        ensures err { OnErr result (self.new ≡ self.old) }
    {
        match Outside::of(action) {
            Some(outside) => self.act_outside(program, t, target, outside),
            None => self.act_alone(program, t, target, action),
        }
    }

    /// What the instruction at a thread's place asks for, where it has one.
    pub fn decode<P: Code<Frame = F>>(
        &mut self,
        program: &P,
        t: Tid,
    ) -> Result<Option<P::Order>, AllocError>
        ensures order { IfOk result (λ found. found ≡ order_at (P.order program.now) (slice_get self.old.threads t.0)) }
        ensures within { IfOk result (λ found. OnSome found (CanPassAt P.can_pass (slice_get self.old.threads t.0))) }
        ensures fits { IfOk result (λ found. IfSome found P.fits) }
        ensures same { self.new ≡ self.old }
    {
        let place = t.0 as usize;
        if place >= self.threads.len() {
            return Ok(None);
        }
        self.threads[place].decode(self.alloc, program)
    }
}
