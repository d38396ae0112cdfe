//! What frames with two copies of each register do.
ghost use Rattle.std.specs.Prelude.{◌≡◌, [], ◌+◌, ◌<◌, ◌^◌};

use crate::Frame;
use crate::orders::Order;
use crate::programs::Program;
use inst_meaning::{Reply, Request, World};
use ir_core::{Loc, Side, Tid};
use process::Code;
use std::alloc::{AllocError, Global};

/// Words that phis give to registers: of one phi, and of all on each side.
#[derive(Drop)]
pub struct Words {
    pub(crate) one: Vec<(Loc, u64)>,
    pub(crate) masters: Vec<(Loc, u64)>,
    pub(crate) shadows: Vec<(Loc, u64)>,
}

impl Words {
    /// None yet.
    pub fn new(alloc: Global) -> Words
        ensures one { result.one.items ≡ [] }
        ensures masters { result.masters.items ≡ [] }
        ensures shadows { result.shadows.items ≡ [] }
    {
        Words {
            one: Vec::new(alloc),
            masters: Vec::new(alloc),
            shadows: Vec::new(alloc),
        }
    }
}

impl<'a> Code for Program<'a> {
    ghost use Rattle.hard_frames.specs.Frames.{frames};
    ghost use Rattle.hard_frames.specs.Orders.{ordered, IsFittingOrder};

    type Frame = Frame;

    type Target = Option<(Side, Loc)>;

    type Order = Order;

    type Room = Words;

    ghost frames = { frames };

    ghost can_pass = { λ frame. frame.index + 1 < 2 ^ 64 };

    ghost order = { ordered };

    ghost fits = { IsFittingOrder };

    fn decode(&self, alloc: Global, frame: &mut Frame) -> Result<Option<Order>, AllocError> {
        Program::decode(self, alloc, frame)
    }

    fn enter(
        &self,
        alloc: Global,
        function: usize,
        words: &[u64],
        mark: u64,
    ) -> Result<Frame, AllocError> {
        self.entered(alloc, function, words, mark)
    }

    fn finish(
        &self,
        frame: &mut Frame,
        target: Option<(Side, Loc)>,
        word: u128,
    ) -> Result<(), AllocError> {
        frame.give(target, word)?;
        frame.index += 1;
        Ok(())
    }

    fn advance(&self, frame: &mut Frame) {
        frame.index += 1;
    }

    fn jump(&self, frame: &mut Frame, label: Loc, room: &mut Words) -> Result<bool, AllocError> {
        let Some(block) = self.landing(frame, label, room)? else {
            return Ok(false);
        };
        frame.land(block, room.masters.as_slice(), &mut room.shadows)?;
        Ok(true)
    }

    fn suspend(&self, frame: &mut Frame, target: Option<(Side, Loc)>) {
        frame.index += 1;
        frame.waiting = target;
    }

    fn resume(&self, frame: &mut Frame, word: u64) -> Result<(), AllocError> {
        frame.give(frame.waiting, u128::from(word))?;
        frame.waiting = None;
        Ok(())
    }

    fn ask(
        &self,
        frame: &mut Frame,
        world: &mut World,
        request: Request,
        t: Tid,
        target: Option<(Side, Loc)>,
    ) -> Result<Reply, AllocError> {
        let reply = frame.ask(world, request, t, target)?;
        if let Reply::Answers(_) = reply {
            frame.index += 1;
        }
        Ok(reply)
    }

    fn mark(&self, frame: &Frame) -> u64 {
        frame.mark
    }
}
