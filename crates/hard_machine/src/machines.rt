//! The machine.
ghost use Rattle.std.specs.Prelude.{◌≡◌, ◌+◌, ◌<◌, ◌^◌, true, length, slice_get, IfOk, OnOk, OnErr};
ghost use Rattle.inst_meaning.specs.Accesses.{IsFitting};
ghost use Rattle.sched_file.specs.Shown.{shown};
ghost use Rattle.hard_frames.specs.declared.outcome.Stop.TheVariants.{End, Fail, Trap};
ghost use Rattle.process.specs.code.Threads.{CanPassAt, acted_at, runs};
ghost use Rattle.hard_frames.specs.Frames.{frames};
ghost use Rattle.hard_machine.specs.Step.{opening, retired, stopped, exited, turn_of};
ghost use Rattle.hard_machine.specs.Runs.{happened, result_of, is_no_upset};
ghost use Rattle.hard_machine.specs.Telling.{place_at, comes, untold, attempted, carried_at, turned_at, flow_of};

use crate::{Aborts, Frame, RunResult, Stop};
use hard_frames::{Order, Program, Words, place_text};
use hard_ir::Hardened;
use inst_meaning::Action;
use ir_core::{Loc, Name, Side, Tid};
use process::{Process, Step, Thread};
use sched_file::Event;
use std::alloc::{AllocError, Global};
use std::marker::Model;
use turn_runs::TurnLog;

/// A hardened program that runs. Contracts see the program and its state.
#[derive(Drop)]
pub struct Machine<'a> {
    program: Program<'a>,
    process: Process<Frame, Words>,
    turns: TurnLog,
    stop: Option<Stop>,
    alloc: Global,
}

impl<'a> Model for Machine<'a> {
    ghost use Rattle.std.specs.Coded.{codes};
    ghost use Rattle.ir_core.specs.contracts.types.Ty as ty;
    ghost use Rattle.ir_core.specs.contracts.values.Init as init;
    ghost use Rattle.hard_machine.specs.State.{Machined};

    ghost Value = { Machined };

    ghost coded = { Prim.hlevel (codes, ty.the_row.coded, init.the_row.coded) };

    ghost view = { λ m. record {
      program = m.program;
      state = record { process = m.process; turns = m.turns; stop = m.stop };
    } };
}

/// Whether a machine goes on.
#[derive(Clone, Copy, PartialEq, Eq)]
pub enum Flow {
    Going,
    Stopped,
}

// Whether an action was done.
fn comes(answer: Step) -> bool
    ensures { result ≡ comes answer }
{
    matches!(answer, Step::Went | Step::Ended(_))
}

impl<'a> Machine<'a> {
    /// The opening of a hardened program with these arguments.
    pub fn new(alloc: Global, h: &'a Hardened, args: &[u64]) -> Result<Machine<'a>, AllocError>
        ensures { IfOk result (λ machine. machine ≡ record { program = h.now; state = opening h.now args.now }) }
    {
        let program = Program::new(alloc, h)?;
        let image = program.image(alloc)?;
        let words = Words::new(alloc);
        let main = program.main();
        let process = Process::new(alloc, &program, image, words, main, args)?;
        Ok(Machine {
            program,
            process,
            turns: TurnLog::new(alloc),
            stop: None,
            alloc,
        })
    }

    // Where a thread stands.
    fn place(&self, t: Tid) -> Result<Name, AllocError>
        ensures { IfOk result (λ place. place ≡ place_at self.now.program self.now.state t.0) }
    {
        match self.process.thread(t) {
            Some(Thread::Running(stack)) => place_text(self.alloc, &self.program, &stack.frame),
            _ => Name::new(self.alloc, b""),
        }
    }

    // A check has failed where a thread stands.
    fn fail(&mut self, tid: Tid) -> Result<(), AllocError>
        ensures ok { OnOk result (self.new
            ≡ record self.old { state = stopped self.old.state (Fail tid (place_at self.old.program self.old.state tid.0)) }) }
        ensures err { OnErr result (self.new ≡ self.old) }
    {
        let at = self.place(tid)?;
        self.stop = Some(Stop::Fail { tid, at });
        Ok(())
    }

    // What a thread does where it stands is undefined.
    fn trap(&mut self, tid: Tid) -> Result<(), AllocError>
        ensures ok { OnOk result (self.new
            ≡ record self.old { state = stopped self.old.state (Trap tid (place_at self.old.program self.old.state tid.0)) }) }
        ensures err { OnErr result (self.new ≡ self.old) }
    {
        let at = self.place(tid)?;
        self.stop = Some(Stop::Trap { tid, at });
        Ok(())
    }

    // The program ends with this code.
    fn end(&mut self, code: u32)
        ensures { self.new ≡ record self.old { state = stopped self.old.state (End code) } }
    {
        self.stop = Some(Stop::End(code));
    }

    // A turn is told, where it retires an instruction of the source.
    fn tell(&mut self, t: Tid, retires: bool) -> Result<(), AllocError>
        requires { length self.old.state.turns + 1 < 2 ^ 64 }
        ensures ok { OnOk result (self.new ≡ record self.old { state = retired retires t.0 self.old.state }) }
        ensures err { OnErr result (self.new ≡ self.old) }
    {
        if retires {
            self.turns.push(t)?;
        }
        Ok(())
    }

    // The turn that was told didn't come.
    fn untell(&mut self, retires: bool)
        ensures { self.new ≡ record self.old { state = untold retires self.old.state } }
    {
        if retires {
            self.turns.take_back();
        }
    }

    // A thread does an action. Its turn is told first, which may want memory, and struck out again where it doesn't come.
    fn attempt(
        &mut self,
        t: Tid,
        dst: Option<(Side, Loc)>,
        retires: bool,
        action: &Action,
    ) -> Result<Step, AllocError>
        requires pass { CanPassAt (λ frame. frame.index + 1 < 2 ^ 64) (slice_get self.old.state.process.threads t.0) }
        requires runs { runs (slice_get self.old.state.process.threads t.0) ≡ true }
        requires fits { IsFitting action.now }
        requires few { length self.old.state.turns + 1 < 2 ^ 64 }
        ensures answer { IfOk result (λ answer. answer ≡ (acted_at (frames self.old.program) self.old.state.process t.0 dst action.now).1) }
        ensures state { OnOk result (self.new
            ≡ record self.old { state = attempted retires t.0 self.old.state (acted_at (frames self.old.program) self.old.state.process t.0 dst action.now) }) }
        ensures err { OnErr result (self.new ≡ self.old) }
    {
        self.tell(t, retires)?;
        let answer = match self.process.act(&self.program, t, dst, action) {
            Ok(answer) => answer,
            Err(error) => {
                self.untell(retires);
                return Err(error);
            }
        };
        if comes(answer) {
            return Ok(answer);
        }
        self.untell(retires);
        Ok(answer)
    }

    // A thread does an action, and the machine stops where that ends the program or is undefined.
    fn act(
        &mut self,
        t: Tid,
        dst: Option<(Side, Loc)>,
        retires: bool,
        action: &Action,
    ) -> Result<(), AllocError>
        requires pass { CanPassAt (λ frame. frame.index + 1 < 2 ^ 64) (slice_get self.old.state.process.threads t.0) }
        requires runs { runs (slice_get self.old.state.process.threads t.0) ≡ true }
        requires fits { IsFitting action.now }
        requires few { length self.old.state.turns + 1 < 2 ^ 64 }
        ensures ok { OnOk result (self.new ≡ record self.old { state = carried_at self.old.program self.old.state t.0 retires dst action.now }) }
        ensures err { OnErr result (self.new ≡ self.old) }
    {
        match self.attempt(t, dst, retires, action)? {
            Step::Undefined(_) => {
                if let Err(error) = self.trap(t) {
                    return Err(error);
                }
            }
            Step::Ended(code) => self.end(code),
            _ => {}
        }
        Ok(())
    }

    // A thread that runs does its next instruction.
    fn run(&mut self, t: Tid) -> Result<(), AllocError>
        requires runs { runs (slice_get self.old.state.process.threads t.0) ≡ true }
        requires few { length self.old.state.turns + 1 < 2 ^ 64 }
        ensures ok { OnOk result (self.new ≡ record self.old { state = turned_at self.old.program self.old.state t.0 }) }
        ensures err { OnErr result (self.new ≡ self.old) }
    {
        match self.process.decode(&self.program, t)? {
            None => self.trap(t),
            Some(Order::Fails) => self.fail(t),
            Some(
                Order::Acts {
                    dst,
                    retires,
                    action,
                },
            ) => {
                let done = self.act(t, dst, retires, &action);
                drop(action);
                done
            }
        }
    }

    // A thread whose function has returned ends; with thread 0 the program does.
    fn exit(&mut self, t: Tid, word: u64) -> Result<(), AllocError>
        requires { length self.old.state.turns + 1 < 2 ^ 64 }
        ensures ok { OnOk result (self.new ≡ record self.old { state = exited self.old.state t.0 word }) }
        ensures err { OnErr result (self.new ≡ self.old) }
    {
        self.tell(t, true)?;
        if t.0 == 0 {
            self.end((word % (1 << 32)) as u32);
        } else {
            self.process.end(t);
        }
        Ok(())
    }

    // A turn of a thread.
    fn turn(&mut self, t: Tid) -> Result<(), AllocError>
        requires { length self.old.state.turns + 1 < 2 ^ 64 }
        ensures ok { OnOk result (self.new ≡ record self.old { state = turn_of self.old.program self.old.state t.0 }) }
        ensures err { OnErr result (self.new ≡ self.old) }
    {
        if self.stop.is_some() {
            return Ok(());
        }
        match self.process.thread(t) {
            Some(Thread::Running(_)) => self.run(t),
            Some(Thread::Exiting(word)) => {
                let word = *word;
                self.exit(t, word)
            }
            _ => Ok(()),
        }
    }

    /// One event of a schedule. It takes its memory first; for want of it nothing changes.
    pub fn event(&mut self, e: &Event<'_>) -> Result<Flow, AllocError>
        requires known { is_no_upset (shown e.now) ≡ true }
        requires few { length self.old.state.turns + 1 < 2 ^ 64 }
        ensures state { OnOk result (self.new ≡ record self.old { state = happened self.old.program self.old.state (shown e.now) }) }
        ensures flow { IfOk result (λ flow. flow ≡ flow_of self.new.state.stop) }
        ensures err { OnErr result (self.new ≡ self.old) }
    {
        if let Event::Turn(t) = e {
            self.turn(*t)?;
        }
        if self.stop.is_some() {
            Ok(Flow::Stopped)
        } else {
            Ok(Flow::Going)
        }
    }

    /// What the run has come to. It takes no memory.
    pub fn result(self) -> RunResult
        ensures { result ≡ result_of self.entry.state }
    {
        let Machine {
            process,
            turns,
            stop,
            ..
        } = self;
        RunResult {
            outs: process.into_outputs(),
            aborts: Aborts {
                explicit: 0,
                conflict: 0,
                overflow: 0,
                other: 0,
            },
            stop: stop.unwrap_or(Stop::Bound),
            turns: turns.into_runs(),
        }
    }
}
