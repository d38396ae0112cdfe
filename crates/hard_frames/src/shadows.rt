//! The shadows' registers of a frame.
ghost use Rattle.std.specs.Prelude.{◌≡◌, [], IfOk, OnOk, OnErr, Some, true};
ghost use Rattle.std.specs.Option.{is_some};
ghost use Rattle.inst_meaning.specs.Registers.{get};
ghost use Rattle.inst_meaning.specs.Operands.{word_at};
ghost use Rattle.ir_core.specs.declared.values.Val.TheVariants as values;
ghost use Rattle.ir_layout.specs.Memory.{layout_of};
ghost use Rattle.inst_meaning.specs.Accesses.{IsFitting};
ghost use Rattle.inst_meaning.specs.Action.{action_of, callees_of};
ghost use Rattle.inst_meaning.specs.Phis.{assigned, all_assigned, phi_words};
ghost use Rattle.inst_meaning.specs.World.{asked_of, given_to};
ghost use Rattle.hard_frames.specs.Frames.{phis_on};

use crate::programs::Program;
use hard_ir::HBlock;
use inst_meaning::{Action, Registers, Reply, Request, World};
use ir_core::{Inst, Loc, Side, Tid, Val, Width};
use std::alloc::{AllocError, Global};
use std::marker::Model;
use std::mem;

/// The shadows' registers. What phis gave them is due until they are used next: so a branch gives both sides their words, or for want
/// of memory neither. Contracts see the registers once they have what is due.
#[derive(Drop)]
pub struct Shadows {
    registers: Registers,
    due: Vec<(Loc, u64)>,
}

impl Model for Shadows {
    ghost use Rattle.std.specs.Prelude.{List, ℕ, Option};
    ghost use Rattle.inst_meaning.specs.Phis.{all_assigned};

    ghost Value = { List (Option ℕ) };

    ghost view = { λ s. all_assigned s.due.items s.registers };
}

impl Clone for Shadows {
    ghost is_clone = { λ shadows copy. copy ≡ shadows };

    fn clone(&self) -> Result<Shadows, AllocError> {
        let registers = self.registers.clone()?;
        let due = self.due.clone()?;
        Ok(Shadows { registers, due })
    }
}

// The registers have what is due.
fn settle(registers: &mut Registers, due: &mut Vec<(Loc, u64)>) -> Result<(), AllocError>
    ensures registers { OnOk result (registers.new ≡ all_assigned due.old.items registers.old) }
    ensures due { OnOk result (due.new.items ≡ []) }
    ensures err { OnErr result ((registers.new ≡ registers.old) × (due.new.items ≡ due.old.items)) }
{
    registers.assign_all(due.as_slice())?;
    due.clear();
    Ok(())
}

impl Shadows {
    /// None is assigned, and there is room for so many.
    pub(crate) fn with_room(alloc: Global, room: u32) -> Result<Shadows, AllocError>
        ensures { IfOk result (λ shadows. shadows ≡ []) }
    {
        let registers = Registers::with_room(alloc, room)?;
        Ok(Shadows {
            registers,
            due: Vec::new(alloc),
        })
    }

    /// The word of a register, where it has one.
    pub fn word(&mut self, at: Loc) -> Result<Option<u128>, AllocError>
        ensures word { IfOk result (λ word. word ≡ get self.old at.0) }
        ensures same { self.new ≡ self.old }
    {
        settle(&mut self.registers, &mut self.due)?;
        Ok(self.registers.get(at))
    }

    /// The word of this width of a register, where it has one.
    pub(crate) fn word_at(
        &mut self,
        program: &Program<'_>,
        w: Width,
        at: Loc,
    ) -> Result<Option<u64>, AllocError>
        ensures word { IfOk result (λ word. word ≡ word_at (layout_of program.now.heads) self.old w (values.Reg at)) }
        ensures same { self.new ≡ self.old }
    {
        settle(&mut self.registers, &mut self.due)?;
        Ok(program.operands(&self.registers).word_at(w, &Val::Reg(at)))
    }

    /// A result goes to its register, where there is one. For want of memory nothing changes.
    pub fn assign(&mut self, dst: Option<Loc>, word: u128) -> Result<(), AllocError>
        ensures ok { OnOk result (self.new ≡ assigned dst word self.old) }
        ensures err { OnErr result (self.new ≡ self.old) }
    {
        settle(&mut self.registers, &mut self.due)?;
        self.registers.assign(dst, word)?;
        Ok(())
    }

    /// What an instruction asks for on this side.
    pub(crate) fn action(
        &mut self,
        alloc: Global,
        program: &Program<'_>,
        inst: &Inst,
    ) -> Result<Action, AllocError>
        ensures action { IfOk result (λ action. action ≡ action_of (layout_of program.now.heads) (callees_of program.now.heads) self.old inst.now) }
        ensures fits { IfOk result (λ action. IsFitting action) }
        ensures same { self.new ≡ self.old }
    {
        settle(&mut self.registers, &mut self.due)?;
        let action = program.operands(&self.registers).action(alloc, inst)?;
        Ok(action)
    }

    /// Makes `words` what the phis of this side take from a label, each by way of `one`. The answer is `false` exactly where one takes
    /// none.
    pub(crate) fn phi_words(
        &mut self,
        program: &Program<'_>,
        from: Loc,
        block: &HBlock,
        one: &mut Vec<(Loc, u64)>,
        words: &mut Vec<(Loc, u64)>,
    ) -> Result<bool, AllocError>
        ensures all { IfOk result (λ all. all ≡ is_some (phi_words (layout_of program.now.heads) self.old from (phis_on Side.S block.now))) }
        ensures words { IfOk result (λ all. all ≡ true
            → Some words.new.items ≡ phi_words (layout_of program.now.heads) self.old from (phis_on Side.S block.now)) }
        ensures same { self.new ≡ self.old }
    {
        settle(&mut self.registers, &mut self.due)?;
        let all = program.phi_words(&self.registers, from, block, Side::S, one, words)?;
        Ok(all)
    }

    /// Asks the world for something, whose answer goes to a register of this side. For want of memory nothing changes.
    pub(crate) fn ask(
        &mut self,
        world: &mut World,
        request: Request,
        t: Tid,
        dst: Option<Loc>,
    ) -> Result<Reply, AllocError>
        ensures reply { IfOk result (λ reply. reply ≡ (asked_of request t.0 world.old).1) }
        ensures world { OnOk result (world.new ≡ (asked_of request t.0 world.old).0) }
        ensures registers { IfOk result (λ reply. self.new ≡ given_to dst reply self.old) }
        ensures unchanged { OnErr result ((world.new ≡ world.old) × (self.new ≡ self.old)) }
    {
        settle(&mut self.registers, &mut self.due)?;
        let reply = world.ask(request, t, &mut self.registers, dst)?;
        Ok(reply)
    }

    /// Words go to the masters, and words to the shadows. For want of memory nothing changes. What `on_shadows` becomes isn't said.
    pub(crate) fn land(
        &mut self,
        masters: &mut Registers,
        on_masters: &[(Loc, u64)],
        on_shadows: &mut Vec<(Loc, u64)>,
    ) -> Result<(), AllocError>
        ensures masters { OnOk result (masters.new ≡ all_assigned on_masters.now masters.old) }
        ensures shadows { OnOk result (self.new ≡ all_assigned on_shadows.old.items self.old) }
        ensures err { OnErr result ((masters.new ≡ masters.old) × (self.new ≡ self.old)) }
    {
        settle(&mut self.registers, &mut self.due)?;
        masters.assign_all(on_masters)?;
        mem::swap(&mut self.due, on_shadows);
        Ok(())
    }
}
