//! What a machine keeps of its program.
ghost use Rattle.std.specs.Prelude.{◌≡◌, ◌+◌, ◌<◌, ◌^◌, map, true, Some, IfOk, IfSome, OnOk, OnSome, slice_get};
ghost use Rattle.std.specs.List.{zip};
ghost use Rattle.std.specs.Option.{option_map, option_copied, is_some};
ghost use Rattle.ir_core.specs.Module.{FuncParts};
ghost use Rattle.ir_layout.specs.Limits.{name_at};
ghost use Rattle.ir_layout.specs.Memory.{layout_of};
ghost use Rattle.ir_check.specs.Functions.{is_main};
ghost use Rattle.inst_meaning.specs.Action.{callees_of};
ghost use Rattle.inst_meaning.specs.Phis.{all_assigned, phi_words};
ghost use Rattle.mem_image.specs.Opening.{opening};
ghost use Rattle.src_meaning.specs.State.{main_of};
ghost use Rattle.hard_ir.specs.Facts.{hard_width};
ghost use Rattle.hard_frames.specs.Code.{blocks_at, inst_at};
ghost use Rattle.hard_frames.specs.Frames.{entry_frame};
ghost use Rattle.hard_frames.specs.Frames.{jumped, landed, phis_on};
ghost use Rattle.hard_frames.specs.Orders.{order_of, ordered, IsFittingOrder};

use crate::code::Words;
use crate::labels::Labels;
use crate::orders::{Order, destination_on, is_active};
use crate::{Frame, Shadows};
use hard_ir::{HBlock, HInst, Hardened};
use inst_meaning::{Callee, Operands, Registers, callees_of};
use ir_core::{Func, Loc, Module, Side, Sym, Ty, Width};
use mem_image::Image;
use std::alloc::{AllocError, Global};
use std::marker::Model;
use std::slice;

/// A hardened module with its tables: what its names stand for where they are called, and the blocks of its labels. Contracts see the
/// module.
#[derive(Drop)]
pub struct Program<'a> {
    hardened: &'a Hardened,
    callees: Vec<Callee>,
    labels: Labels,
}

impl<'a> Model for Program<'a> {
    ghost use Rattle.std.specs.Prelude.{◌≡◌, ◌<◌, ◌^◌, length};
    ghost use Rattle.std.specs.Coded.{codes};
    ghost use Rattle.ir_core.specs.contracts.types.Ty as ty;
    ghost use Rattle.ir_core.specs.contracts.values.Init as init;
    ghost use Rattle.inst_meaning.specs.Action.{callees_of};
    ghost use Rattle.hard_ir.specs.Hardened.{HardParts};
    ghost use Rattle.hard_frames.specs.Labels.{AreTables};

    ghost Value = { HardParts };

    ghost coded = { Prim.hlevel (codes, ty.the_row.coded, init.the_row.coded) };

    ghost view = { λ p. p.hardened.now };

    ghost invariant = { λ p. (p.callees.items ≡ callees_of p.hardened.now.heads)
        × AreTables p.hardened.now.funcs p.labels
        × (length p.hardened.now.funcs < 2 ^ 32) };
}

impl<'a> Program<'a> {
    /// A hardened module with its tables. One of 2^32 functions is past all memory.
    pub fn new(alloc: Global, h: &'a Hardened) -> Result<Program<'a>, AllocError>
        ensures { IfOk result (λ program. program ≡ h.now) }
    {
        let Ok(count) = u32::try_from(h.module().funcs().len()) else {
            return Err(AllocError);
        };
        let callees = callees_of(alloc, h.module())?;
        let labels = Labels::of(alloc, h, count)?;
        Ok(Program {
            hardened: h,
            callees,
            labels,
        })
    }

    /// The heads of the module.
    pub fn heads(&self) -> &Module
        ensures { result.now ≡ self.now.heads }
    {
        self.hardened.module()
    }

    /// Memory at the opening.
    pub fn image(&self, alloc: Global) -> Result<Image, AllocError>
        ensures { IfOk result (λ image. image ≡ opening (layout_of self.now.heads) self.now.heads.globals) }
    {
        Image::new(alloc, self.hardened.module(), self.hardened.layout())
    }

    /// What operands are read with, in a frame with these registers.
    pub fn operands<'b>(&'b self, registers: &'b Registers) -> Operands<'b>
        ensures layout { result.layout.now ≡ layout_of self.now.heads }
        ensures callees { result.callees.now ≡ callees_of self.now.heads }
        ensures registers { result.registers.now ≡ registers.now }
    {
        Operands {
            layout: self.hardened.layout(),
            callees: self.callees.as_slice(),
            registers,
        }
    }

    /// The blocks of a function, and none where there is no such function.
    pub fn blocks(&self, function: usize) -> &'a [HBlock]
        ensures { result.now ≡ blocks_at self.now function }
    {
        if function < self.hardened.module().funcs().len() {
            self.hardened.blocks(function as u32)
        } else {
            &[]
        }
    }

    /// How many bits a register of a function holds, on either side, and 0 where there is no such function.
    pub fn width(&self, function: usize, reg: Loc) -> u32
        ensures { (head : FuncParts) → slice_get self.now.heads.funcs function ≡ Some head
            → result ≡ hard_width head (blocks_at self.now function) reg }
    {
        if function < self.hardened.module().funcs().len() {
            self.hardened.width(function as u32, reg)
        } else {
            0
        }
    }

    /// The instruction at a frame's place.
    pub fn inst(&self, frame: &Frame) -> Option<&'a HInst>
        ensures found { option_copied result ≡ inst_at self.now frame.now }
        ensures within { OnSome result (frame.now.index + 1 < 2 ^ 64) }
    {
        let block = self.blocks(frame.function).get(frame.block)?;
        block.list.items().get(frame.index)
    }

    /// What the instruction at a frame's place asks for.
    pub fn decode(&self, alloc: Global, frame: &mut Frame) -> Result<Option<Order>, AllocError>
        ensures decoded { IfOk result (λ found. found ≡ ordered self.now frame.old) }
        ensures within { IfOk result (λ found. OnSome found (frame.old.index + 1 < 2 ^ 64)) }
        ensures fits { IfOk result (λ found. IfSome found IsFittingOrder) }
        ensures same { frame.new ≡ frame.old }
    {
        let Some(inst) = self.inst(frame) else {
            return Ok(None);
        };
        let order = self.order(alloc, frame, inst)?;
        Ok(Some(order))
    }

    // What an instruction asks for in a frame.
    fn order(&self, alloc: Global, frame: &mut Frame, inst: &HInst) -> Result<Order, AllocError>
        ensures order { IfOk result (λ order. order ≡ order_of self.now frame.old inst.now) }
        ensures fits { IfOk result IsFittingOrder }
        ensures same { frame.new ≡ frame.old }
    {
        match inst {
            HInst::Do {
                side,
                inst,
                retires,
            } => {
                let action = frame.action(alloc, self, *side, inst)?;
                Ok(Order::Acts {
                    dst: destination_on(*side, inst),
                    retires: *retires,
                    action,
                })
            }
            HInst::Chk { when, reg, .. } => Order::checking(frame, *reg, is_active(*when)),
            HInst::Mov { reg, .. } => Ok(Order::copying(frame, *reg)),
            HInst::Cut | HInst::Begin | HInst::End | HInst::Tick(_) | HInst::ChkMem { .. } => Ok(
                Order::passing(),
            ),
        }
    }

    /// A function is entered with these words.
    pub fn entered(
        &self,
        alloc: Global,
        function: usize,
        words: &[u64],
        mark: u64,
    ) -> Result<Frame, AllocError>
        ensures { IfOk result (λ frame. frame ≡ entry_frame self.now function words.now mark) }
    {
        let room = self.room(function);
        let mut masters = Registers::with_room(alloc, room)?;
        let shadows = Shadows::with_room(alloc, room)?;
        if let Some(f) = self.heads().funcs().get(function) {
            assign_params(&mut masters, f.params(), words)?;
        }
        Ok(Frame {
            function,
            block: 0,
            index: 0,
            masters,
            shadows,
            mark,
            waiting: None,
        })
    }

    // How many registers a function has on a side.
    fn room(&self, function: usize) -> u32 {
        match self.heads().funcs().get(function) {
            Some(f) => f.loc_count(),
            None => 0,
        }
    }

    /// Makes `words` what the phis of a side take from a label, with these registers, each by way of `one`. The answer is `false`
    /// exactly where one takes none.
    pub fn phi_words(
        &self,
        registers: &Registers,
        from: Loc,
        block: &HBlock,
        side: Side,
        one: &mut Vec<(Loc, u64)>,
        words: &mut Vec<(Loc, u64)>,
    ) -> Result<bool, AllocError>
        ensures all { IfOk result (λ all. all ≡ is_some (phi_words (layout_of self.now.heads) registers.now from (phis_on side block.now))) }
        ensures words { IfOk result (λ all. all ≡ true
            → Some words.new.items ≡ phi_words (layout_of self.now.heads) registers.now from (phis_on side block.now)) }
    {
        let operands = self.operands(registers);
        words.clear();
        for (of, phi) in block.phis.items() {
            if *of == side {
                if !operands.phi_words(from, slice::from_ref(phi), one)? {
                    return Ok(false);
                }
                words.extend_from_slice(one.as_slice())?;
            }
        }
        Ok(true)
    }

    /// Where a jump to a label leads from a frame: the number of the block. `words` becomes what its phis take. The answer is `None`
    /// exactly where the frame can't jump.
    pub fn landing(
        &self,
        frame: &mut Frame,
        label: Loc,
        words: &mut Words,
    ) -> Result<Option<usize>, AllocError>
        ensures block { IfOk result (λ block. jumped self.now frame.old label
            ≡ option_map (landed frame.old words.new.masters.items words.new.shadows.items) block) }
        ensures same { frame.new ≡ frame.old }
    {
        let blocks = self.blocks(frame.function);
        let Some(from) = blocks.get(frame.block) else {
            return Ok(None);
        };
        let Some(number) = self.labels.number(frame.function, label) else {
            return Ok(None);
        };
        let Some(block) = blocks.get(number) else {
            return Ok(None);
        };
        let from = from.label;
        let all = self.phi_words(
            &frame.masters,
            from,
            block,
            Side::M,
            &mut words.one,
            &mut words.masters,
        )?;
        if !all {
            return Ok(None);
        }
        let all = frame
            .shadows
            .phi_words(self, from, block, &mut words.one, &mut words.shadows)?;
        if !all {
            return Ok(None);
        }
        Ok(Some(number))
    }

    /// The number of `main`.
    pub fn main(&self) -> usize
        ensures { result ≡ main_of self.now.heads }
    {
        let m = self.heads();
        m.funcs().iter().position(|f| is_main(m, f)).unwrap_or(0)
    }
}

// The parameters take the words, one after another.
fn assign_params(
    registers: &mut Registers,
    params: &[(Ty, Loc)],
    words: &[u64],
) -> Result<(), AllocError>
    ensures { OnOk result (registers.new ≡ all_assigned (zip (map (λ param. param.1) params.now) words.now) registers.old) }
{
    for ((_, at), word) in params.iter().zip(words) {
        registers.assign(Some(*at), u128::from(*word))?;
    }
    Ok(())
}

// The bytes of an `@` name, and none where the module has none of that number.
pub fn sym_name(m: &Module, sym: Sym) -> &[u8]
    ensures { result.now ≡ name_at m.now.syms sym.0 }
{
    if sym.0 < m.sym_count() {
        m.sym_name(sym)
    } else {
        b""
    }
}

// Whether a function is `i32 @main()`.
fn is_main(m: &Module, f: &Func) -> bool
    ensures { result ≡ is_main m.now f.now }
{
    sym_name(m, f.sym()) == b"main".as_slice()
        && matches!(f.ret(), Ty::Int(Width::W32))
        && f.params().is_empty()
}
