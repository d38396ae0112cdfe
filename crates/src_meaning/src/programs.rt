//! What a machine keeps of its program.
ghost use Rattle.std.specs.Prelude.{◌≡◌, ◌+◌, ◌<◌, ◌^◌, IfOk, IfSome, OnOk, OnSome, map};
ghost use Rattle.std.specs.List.{zip};
ghost use Rattle.std.specs.Option.{option_map, option_copied};
ghost use Rattle.ir_layout.specs.Memory.{layout_of};
ghost use Rattle.inst_meaning.specs.Accesses.{IsFitting};
ghost use Rattle.inst_meaning.specs.Action.{callees_of};
ghost use Rattle.inst_meaning.specs.Phis.{all_assigned};
ghost use Rattle.src_meaning.specs.State.{blocks_at, inst_at, params_at, entry_frame, main_of};
ghost use Rattle.src_meaning.specs.Step.{jumped};
ghost use Rattle.ir_layout.specs.Limits.{name_at};
ghost use Rattle.ir_check.specs.Functions.{is_main};
ghost use Rattle.src_meaning.specs.Landing.{landed_at, decoded};

use crate::Frame;
use crate::labels::Labels;
use inst_meaning::{Action, Callee, Operands, Registers, callees_of, destination, phi_count};
use ir_check::Accepted;
use ir_core::{Block, Func, Inst, Loc, Module, Sym, Ty, Width};
use std::alloc::{AllocError, Global};
use std::marker::Model;

/// A program with its tables: what its names stand for where they are called, and the blocks of its labels. Contracts see the program.
#[derive(Drop)]
pub(crate) struct Program<'a> {
    accepted: &'a Accepted,
    callees: Vec<Callee>,
    labels: Labels,
}

impl<'a> Model for Program<'a> {
    ghost use Rattle.std.specs.Prelude.{◌≡◌};
    ghost use Rattle.std.specs.Coded.{codes};
    ghost use Rattle.ir_core.specs.contracts.types.Ty as ty;
    ghost use Rattle.ir_core.specs.contracts.values.Init as init;
    ghost use Rattle.ir_core.specs.Module.{ModuleParts};
    ghost use Rattle.inst_meaning.specs.Accesses.{IsFitting};
    ghost use Rattle.inst_meaning.specs.Action.{callees_of};
    ghost use Rattle.src_meaning.specs.Labels.{AreTables};

    ghost Value = { ModuleParts };

    ghost coded = { Prim.hlevel (codes, ty.the_row.coded, init.the_row.coded) };

    ghost view = { λ p. p.accepted.now };

    ghost invariant = { λ p. (p.callees.items ≡ callees_of p.accepted.now) × AreTables p.accepted.now.funcs p.labels };
}

impl<'a> Program<'a> {
    /// An accepted module with its tables.
    pub(crate) fn new(alloc: Global, m: &'a Accepted) -> Result<Program<'a>, AllocError>
        ensures { IfOk result (λ program. program ≡ m.now) }
    {
        let callees = callees_of(alloc, m.module())?;
        let labels = Labels::of(alloc, m.module().funcs())?;
        Ok(Program {
            accepted: m,
            callees,
            labels,
        })
    }

    /// The module.
    pub(crate) fn accepted(&self) -> &Accepted
        ensures { result.now ≡ self.now }
    {
        self.accepted
    }

    /// What operands are read with, in a frame with these registers.
    pub(crate) fn operands<'b>(&'b self, registers: &'b Registers) -> Operands<'b>
        ensures layout { result.layout.now ≡ layout_of self.now }
        ensures callees { result.callees.now ≡ callees_of self.now }
        ensures registers { result.registers.now ≡ registers.now }
    {
        Operands {
            layout: self.accepted.layout(),
            callees: self.callees.as_slice(),
            registers,
        }
    }

    // The blocks of a function, and none where there is no such function.
    fn blocks(&self, function: usize) -> &[Block]
        ensures { result.now ≡ blocks_at self.now.funcs function }
    {
        match self.accepted.module().funcs().get(function) {
            Some(f) => f.blocks(),
            None => &[],
        }
    }

    /// The instruction at a frame's place.
    pub(crate) fn inst(&self, frame: &Frame) -> Option<&Inst>
        ensures found { option_copied result ≡ inst_at self.now frame.now }
        ensures within { OnSome result (frame.now.index + 1 < 2 ^ 64) }
    {
        let block = self.blocks(frame.function).get(frame.block)?;
        block.insts.items().get(frame.index)
    }

    /// What the instruction at a frame's place asks for, and the register that takes its result.
    pub(crate) fn decode(
        &self,
        alloc: Global,
        frame: &Frame,
    ) -> Result<Option<(Option<Loc>, Action)>, AllocError>
        ensures decoded { IfOk result (λ found. found ≡ decoded self.now frame.now) }
        ensures within { IfOk result (λ found. OnSome found (frame.now.index + 1 < 2 ^ 64)) }
        ensures fits { IfOk result (λ found. IfSome found (λ each. IsFitting each.1)) }
    {
        let Some(inst) = self.inst(frame) else {
            return Ok(None);
        };
        let action = self.operands(&frame.registers).action(alloc, inst)?;
        Ok(Some((destination(inst), action)))
    }

    /// A function is entered with these words.
    pub(crate) fn entered(
        &self,
        alloc: Global,
        function: usize,
        words: &[u64],
        mark: u64,
    ) -> Result<Frame, AllocError>
        ensures { IfOk result (λ frame. frame ≡ entry_frame self.now function words.now mark) }
    {
        let mut registers = Registers::with_room(alloc, self.room(function))?;
        if let Some(f) = self.accepted.module().funcs().get(function) {
            assign_params(&mut registers, f.params(), words)?;
        }
        Ok(Frame {
            function,
            block: 0,
            index: 0,
            registers,
            mark,
            waiting: None,
        })
    }

    // How many registers a function has.
    fn room(&self, function: usize) -> u32 {
        match self.accepted.module().funcs().get(function) {
            Some(f) => f.loc_count(),
            None => 0,
        }
    }

    /// Where a jump to a label leads from a frame: the number of the block and the index behind its phis. `words` becomes what
    /// the phis take. The answer is `None` exactly where the frame can't jump.
    pub(crate) fn landing(
        &self,
        frame: &Frame,
        label: Loc,
        words: &mut Vec<(Loc, u64)>,
    ) -> Result<Option<(usize, usize)>, AllocError>
        ensures { IfOk result (λ place. jumped self.now frame.now label ≡ option_map (landed_at frame.now words.new.items) place) }
    {
        let blocks = self.blocks(frame.function);
        let Some(from) = blocks.get(frame.block) else {
            return Ok(None);
        };
        let Some(number) = self.labels.number(frame.function, label) else {
            return Ok(None);
        };
        let Some(block) = blocks.get(number) else {
            return Ok(None);
        };
        let body = block.insts.items();
        let count = phi_count(body);
        let operands = self.operands(&frame.registers);
        if operands.phi_words(from.label, &body[..count], words)? {
            Ok(Some((number, count)))
        } else {
            Ok(None)
        }
    }

    /// The number of `main`.
    pub(crate) fn main(&self) -> usize
        ensures { result ≡ main_of self.now }
    {
        let m = self.accepted.module();
        m.funcs().iter().position(|f| is_main(m, f)).unwrap_or(0)
    }
}

// The parameters take the words, one after another.
fn assign_params(
    registers: &mut Registers,
    params: &[(Ty, Loc)],
    words: &[u64],
) -> Result<(), AllocError>
    ensures { OnOk result (registers.new ≡ all_assigned (zip (map (λ param. param.1) params.now) words.now) registers.old) }
{
    for ((_, at), word) in params.iter().zip(words) {
        registers.assign(Some(*at), u128::from(*word))?;
    }
    Ok(())
}

// The bytes of an `@` name, and none where the module has none of that number.
fn sym_name(m: &Module, sym: Sym) -> &[u8]
    ensures { result.now ≡ name_at m.now.syms sym.0 }
{
    if sym.0 < m.sym_count() {
        m.sym_name(sym)
    } else {
        b""
    }
}

// Whether a function is `i32 @main()`.
fn is_main(m: &Module, f: &Func) -> bool
    ensures { result ≡ is_main m.now f.now }
{
    sym_name(m, f.sym()) == b"main".as_slice()
        && matches!(f.ret(), Ty::Int(Width::W32))
        && f.params().is_empty()
}
