//! Frames.
ghost use Rattle.std.specs.Prelude.{◌≡◌, OnOk, OnErr, IfOk};
ghost use Rattle.inst_meaning.specs.Accesses.{IsFitting};
ghost use Rattle.inst_meaning.specs.World.{asked_of};
ghost use Rattle.hard_frames.specs.Frames.{given_to, landed, action_on, operand_word};
ghost use Rattle.hard_frames.specs.Orders.{answered};

use crate::Shadows;
use crate::programs::Program;
use hard_ir::HVal;
use inst_meaning::{Action, Registers, Reply, Request, World};
use ir_core::{Inst, Loc, Side, Tid, Val, Width};
use std::alloc::{AllocError, Global};

/// A function at work: its place, two copies of its registers, the stack mark at its start, and the register that waits for the
/// function that it called. A place is the numbers of a function and of a block, and an index in the block's list.
#[derive(Drop)]
pub struct Frame {
    pub function: usize,
    pub block: usize,
    pub index: usize,
    pub masters: Registers,
    pub shadows: Shadows,
    pub mark: u64,
    pub waiting: Option<(Side, Loc)>,
}

impl Clone for Frame {
    ghost is_clone = { λ frame copy. copy ≡ frame };

    fn clone(&self) -> Result<Frame, AllocError> {
        let masters = self.masters.clone()?;
        let shadows = self.shadows.clone()?;
        Ok(Frame {
            function: self.function,
            block: self.block,
            index: self.index,
            masters,
            shadows,
            mark: self.mark,
            waiting: self.waiting,
        })
    }
}

impl Frame {
    /// A word goes to a register of a side, where there is one for it. For want of memory nothing changes.
    pub fn give(&mut self, dst: Option<(Side, Loc)>, word: u128) -> Result<(), AllocError>
        ensures ok { OnOk result (self.new ≡ given_to dst word self.old) }
        ensures err { OnErr result (self.new ≡ self.old) }
    {
        match dst {
            Some((Side::M, at)) => self.masters.assign(Some(at), word),
            Some((Side::S, at)) => self.shadows.assign(Some(at), word),
            None => Ok(()),
        }
    }

    /// It stands at the list of a block, and words go to both sides. For want of memory nothing changes. What `on_shadows` becomes isn't said.
    pub(crate) fn land(
        &mut self,
        block: usize,
        on_masters: &[(Loc, u64)],
        on_shadows: &mut Vec<(Loc, u64)>,
    ) -> Result<(), AllocError>
        ensures ok { OnOk result (self.new ≡ landed self.old on_masters.now on_shadows.old.items block) }
        ensures err { OnErr result (self.new ≡ self.old) }
    {
        self.shadows
            .land(&mut self.masters, on_masters, on_shadows)?;
        self.block = block;
        self.index = 0;
        Ok(())
    }

    /// The word of an operand of a check of memory, at a width.
    pub fn operand(
        &mut self,
        alloc: Global,
        program: &Program<'_>,
        w: Width,
        val: &HVal,
    ) -> Result<Option<u64>, AllocError>
        ensures word { IfOk result (λ word. word ≡ operand_word program.now self.old w val.now) }
        ensures same { self.new ≡ self.old }
    {
        match val {
            HVal::Reg(reg) => match reg.side {
                Side::M => Ok(
                    program
                        .operands(&self.masters)
                        .word_at(w, &Val::Reg(reg.loc)),
                ),
                Side::S => self.shadows.word_at(program, w, reg.loc),
            },
            HVal::Const(val) => {
                let none = Registers::with_room(alloc, 0)?;
                Ok(program.operands(&none).word_at(w, val))
            }
        }
    }

    /// What an instruction asks for on a side.
    pub fn action(
        &mut self,
        alloc: Global,
        program: &Program<'_>,
        side: Side,
        inst: &Inst,
    ) -> Result<Action, AllocError>
        ensures action { IfOk result (λ action. action ≡ action_on program.now side self.old inst.now) }
        ensures fits { IfOk result (λ action. IsFitting action) }
        ensures same { self.new ≡ self.old }
    {
        match side {
            Side::M => program.operands(&self.masters).action(alloc, inst),
            Side::S => self.shadows.action(alloc, program, inst),
        }
    }

    /// Asks the world for something, whose answer goes to a register of a side. For want of memory nothing changes.
    pub(crate) fn ask(
        &mut self,
        world: &mut World,
        request: Request,
        t: Tid,
        dst: Option<(Side, Loc)>,
    ) -> Result<Reply, AllocError>
        ensures reply { IfOk result (λ reply. reply ≡ (asked_of request t.0 world.old).1) }
        ensures world { OnOk result (world.new ≡ (asked_of request t.0 world.old).0) }
        ensures frame { IfOk result (λ reply. self.new ≡ answered dst reply self.old) }
        ensures unchanged { OnErr result ((world.new ≡ world.old) × (self.new ≡ self.old)) }
    {
        match dst {
            Some((Side::M, at)) => world.ask(request, t, &mut self.masters, Some(at)),
            Some((Side::S, at)) => self.shadows.ask(world, request, t, Some(at)),
            None => world.ask(request, t, &mut self.masters, None),
        }
    }
}
