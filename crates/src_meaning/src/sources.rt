//! The source machine.
ghost use Rattle.std.specs.Prelude.{◌≡◌, ◌<◌, ◌≤◌, true, length, slice_get, IfOk, OnOk, OnErr};
ghost use Rattle.process.specs.code.Threads.{runs};
ghost use Rattle.src_meaning.specs.Step.{opening, exited, turned, step};
ghost use Rattle.src_meaning.specs.Races.{next_access};

use crate::Frame;
use crate::programs::Program;
use inst_meaning::{Access, Cause};
use ir_check::Accepted;
use ir_core::{Loc, Out, Tid};
use mem_image::Image;
use process::{Process, Step, Thread};
use std::alloc::{AllocError, Global};
use std::marker::Model;

/// A program that runs from its source. Contracts see the program and its state.
#[derive(Drop)]
pub struct Source<'a> {
    program: Program<'a>,
    process: Process<Frame, Vec<(Loc, u64)>>,
    ended: bool,
}

impl<'a> Model for Source<'a> {
    ghost use Rattle.std.specs.Coded.{codes};
    ghost use Rattle.ir_core.specs.contracts.types.Ty as ty;
    ghost use Rattle.ir_core.specs.contracts.values.Init as init;
    ghost use Rattle.src_meaning.specs.State.{Sourced};

    ghost Value = { Sourced };

    ghost coded = { Prim.hlevel (codes, ty.the_row.coded, init.the_row.coded) };

    ghost view = { λ s. record {
      program = s.program;
      state = record { process = s.process; ended = s.ended };
    } };
}

impl<'a> Source<'a> {
    /// The program's opening, with these arguments.
    pub fn new(alloc: Global, m: &'a Accepted, args: &[u64]) -> Result<Source<'a>, AllocError>
        ensures { IfOk result (λ source. source ≡ record { program = m.now; state = opening m.now args.now }) }
    {
        let program = Program::new(alloc, m)?;
        let image = Image::new(alloc, m.module(), m.layout())?;
        let main = program.main();
        let process = Process::new(alloc, &program, image, Vec::new(alloc), main, args)?;
        Ok(Source {
            program,
            process,
            ended: false,
        })
    }

    /// What the program has given out so far.
    pub fn outputs(&self) -> &[Out]
        ensures { result.now ≡ self.now.state.process.world.outputs }
    {
        self.process.outputs()
    }

    /// How many threads were made.
    pub fn made(&self) -> usize
        ensures count { result ≡ length self.now.state.process.threads }
        ensures few { result ≤ 64 }
    {
        self.process.made()
    }

    /// The access to memory that the next step of a thread would make, whether or not it is valid; `None` exactly where it would make
    /// none. It takes no memory.
    pub fn next_access(&self, t: Tid) -> Option<Access>
        requires { t.0 < 64 }
        ensures { result ≡ next_access self.now.program self.now.state t.0 }
    {
        if self.ended {
            return None;
        }
        let Some(Thread::Running(stack)) = self.process.thread(t) else {
            return None;
        };
        let inst = self.program.inst(&stack.frame)?;
        let operands = self.program.operands(&stack.frame.registers);
        operands.access(self.process.made(), inst)
    }

    // A thread whose function has returned ends; with thread 0 the program does.
    fn exit(&mut self, t: Tid, word: u64) -> Step
        ensures answer { result ≡ (exited self.old.state t.0 word).1 }
        ensures state { self.new ≡ record self.old { state = (exited self.old.state t.0 word).0 } }
    {
        if t.0 == 0 {
            self.ended = true;
            return Step::Ended((word % (1 << 32)) as u32);
        }
        self.process.end(t);
        Step::Went
    }

    // A thread that runs does its next instruction.
    fn run(&mut self, t: Tid) -> Result<Step, AllocError>
        requires { runs (slice_get self.old.state.process.threads t.0) ≡ true }
        ensures answer { IfOk result (λ answer. answer ≡ (turned self.old.program self.old.state t.0 (slice_get self.old.state.process.threads t.0)).1) }
        ensures state { OnOk result (self.new ≡ record self.old { state = (turned self.old.program self.old.state t.0 (slice_get self.old.state.process.threads t.0)).0 }) }
        ensures err { OnErr result (self.new ≡ self.old) }
    {
        let Some((dst, action)) = self.process.decode(&self.program, t)? else {
            return Ok(Step::Undefined(Cause::Unreachable));
        };
        let answer = self.process.act(&self.program, t, dst, &action);
        drop(action);
        let answer = answer?;
        if let Step::Ended(_) = answer {
            self.ended = true;
        }
        Ok(answer)
    }

    /// A step of a thread. After want of memory, and where the step waits, is idle or is undefined, nothing has changed.
    pub fn step(&mut self, t: Tid) -> Result<Step, AllocError>
        requires { t.0 < 64 }
        ensures answer { IfOk result (λ answer. answer ≡ (step self.old.program self.old.state t.0).1) }
        ensures state { OnOk result (self.new ≡ record self.old { state = (step self.old.program self.old.state t.0).0 }) }
        ensures err { OnErr result (self.new ≡ self.old) }
    {
        if self.ended {
            return Ok(Step::Idle);
        }
        match self.process.thread(t) {
            Some(Thread::Running(_)) => self.run(t),
            Some(Thread::Exiting(word)) => {
                let word = *word;
                Ok(self.exit(t, word))
            }
            _ => Ok(Step::Idle),
        }
    }
}
