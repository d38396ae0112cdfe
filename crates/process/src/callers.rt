//! The frames that wait for a function to return.
ghost use Rattle.std.specs.Prelude.{◌≡◌, ◌∷◌, ◌<◌, [], true, false, Some, OnOk, OnErr, length, slice_get, slice_set};
ghost use Rattle.process.specs.code.Moves.{first_resumed};

use crate::Code;
use std::alloc::{AllocError, Global};
use std::marker::Model;
use std::mem;

/// Frames that wait, each for the one that it called. Contracts see their list, the last first.
#[derive(Clone, Drop)]
pub struct Callers<F> {
    frames: Vec<F>,
}

impl<F> Model for Callers<F> {
    ghost use Rattle.std.specs.Prelude.{List, reverse};
    ghost use Rattle.std.specs.Coded.{coded_list};

    ghost Value = { List F };

    ghost coded = { coded_list F.code };

    ghost view = { λ c. reverse c.frames.items };
}

impl<F: Drop> Callers<F> {
    /// None. It takes no memory.
    pub fn new(alloc: Global) -> Callers<F>
        ensures { result ≡ [] }
    {
        Callers {
            frames: Vec::new(alloc),
        }
    }

    /// How many there are.
    pub fn len(&self) -> usize
        ensures { result ≡ length self.now }
    {
        self.frames.len()
    }

    /// The running frame waits for a new one, which runs in its place; the new one's word is to go to a target. For want of memory
    /// nothing changes, and the new one is dropped.
    pub(crate) fn cover<P: Code<Frame = F>>(
        &mut self,
        program: &P,
        target: P::Target,
        running: &mut F,
        new: F,
    ) -> Result<(), AllocError>
        requires { P.can_pass running.old }
        ensures callers { OnOk result (self.new ≡ (P.frames program.now).suspend target running.old ∷ self.old) }
        ensures running { OnOk result (running.new ≡ new) }
        ensures unchanged { OnErr result ((self.new ≡ self.old) × (running.new ≡ running.old)) }
    {
        self.frames.reserve(1)?;
        program.suspend(running, target);
        let below = mem::replace(running, new);
        self.frames.push(below).unwrap();
        Ok(())
    }

    /// A word comes for the last of them. For want of memory nothing changes.
    pub(crate) fn resume<P: Code<Frame = F>>(
        &mut self,
        program: &P,
        word: u64,
    ) -> Result<(), AllocError>
        ensures ok { OnOk result (self.new ≡ first_resumed (P.frames program.now) word self.old) }
        ensures err { OnErr result (self.new ≡ self.old) }
    {
        if let Some(caller) = self.frames.last_mut() {
            program.resume(caller, word)?;
        }
        Ok(())
    }

    /// One of them, by how many were entered after it, changes places with another frame.
    pub fn swap(&mut self, depth: usize, frame: &mut F)
        requires { depth < length self.old }
        ensures callers { self.new ≡ slice_set self.old depth frame.old }
        ensures frame { slice_get self.old depth ≡ Some frame.new }
    {
        let at = self.frames.len() - 1 - depth;
        mem::swap(&mut self.frames[at], frame);
    }

    /// The last of them runs in place of the running frame. The answer is `false` exactly where there is none.
    pub(crate) fn uncover(&mut self, running: &mut F) -> bool
        ensures some { result ≡ true → self.old ≡ running.new ∷ self.new }
        ensures none { result ≡ false → (self.old ≡ []) × (self.new ≡ []) × (running.new ≡ running.old) }
    {
        match self.frames.pop() {
            Some(caller) => {
                *running = caller;
                true
            }
            None => false,
        }
    }
}
