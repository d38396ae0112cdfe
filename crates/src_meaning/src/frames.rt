//! What frames with one copy of each register do.
ghost use Rattle.std.specs.Prelude.{◌+◌, ◌<◌, ◌^◌};

use crate::Frame;
use crate::programs::Program;
use inst_meaning::{Action, Reply, Request, World};
use ir_core::{Loc, Tid};
use process::Code;
use std::alloc::{AllocError, Global};

impl<'a> Code for Program<'a> {
    ghost use Rattle.inst_meaning.specs.Accesses.{IsFitting};
    ghost use Rattle.src_meaning.specs.Step.{frames};
    ghost use Rattle.src_meaning.specs.Landing.{decoded};

    type Frame = Frame;

    type Target = Option<Loc>;

    type Order = (Option<Loc>, Action);

    type Room = Vec<(Loc, u64)>;

    ghost frames = { frames };

    ghost can_pass = { λ frame. frame.index + 1 < 2 ^ 64 };

    ghost order = { decoded };

    ghost fits = { λ order. IsFitting order.1 };

    fn decode(
        &self,
        alloc: Global,
        frame: &mut Frame,
    ) -> Result<Option<(Option<Loc>, Action)>, AllocError> {
        Program::decode(self, alloc, frame)
    }

    fn enter(
        &self,
        alloc: Global,
        function: usize,
        words: &[u64],
        mark: u64,
    ) -> Result<Frame, AllocError> {
        self.entered(alloc, function, words, mark)
    }

    fn finish(&self, frame: &mut Frame, target: Option<Loc>, word: u128) -> Result<(), AllocError> {
        frame.registers.assign(target, word)?;
        frame.index += 1;
        Ok(())
    }

    fn advance(&self, frame: &mut Frame) {
        frame.index += 1;
    }

    fn jump(
        &self,
        frame: &mut Frame,
        label: Loc,
        room: &mut Vec<(Loc, u64)>,
    ) -> Result<bool, AllocError> {
        let Some((block, index)) = self.landing(frame, label, room)? else {
            return Ok(false);
        };
        frame.registers.assign_all(room.as_slice())?;
        frame.block = block;
        frame.index = index;
        Ok(true)
    }

    fn suspend(&self, frame: &mut Frame, target: Option<Loc>) {
        frame.index += 1;
        frame.waiting = target;
    }

    fn resume(&self, frame: &mut Frame, word: u64) -> Result<(), AllocError> {
        frame.registers.assign(frame.waiting, u128::from(word))?;
        frame.waiting = None;
        Ok(())
    }

    fn ask(
        &self,
        frame: &mut Frame,
        world: &mut World,
        request: Request,
        t: Tid,
        target: Option<Loc>,
    ) -> Result<Reply, AllocError> {
        let reply = world.ask(request, t, &mut frame.registers, target)?;
        if let Reply::Answers(_) = reply {
            frame.index += 1;
        }
        Ok(reply)
    }

    fn mark(&self, frame: &Frame) -> u64 {
        frame.mark
    }
}
