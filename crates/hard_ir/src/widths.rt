//! How wide the registers of hardened functions are (`specs/Facts.antt`).
ghost use Rattle.std.specs.Prelude.{◌≡◌, ◌<◌, ◌++◌, map, length, IfOk, OnOk};
ghost use Rattle.std.specs.List.{flat_map, filter_map};
ghost use Rattle.ir_types.specs.Firsts.{first_of, ArePlaced};
ghost use Rattle.ir_types.specs.Meanings.{bits, word_bits};
ghost use Rattle.hard_ir.specs.Facts.{register_bits, width_of_param, width_of_phi, width_of_result, width_in, widths_in, hard_widths, module_widths};

use crate::{HBlock, HBlocks, HInst};
use ir_core::{Func, Inst, Loc, Side, Ty, Width};
use std::alloc::{AllocError, Global};
use std::collections::HashMap;
use std::marker::Model;

// How many bits a width has.
fn bits(width: Width) -> u32
    ensures bits { result ≡ bits width }
    ensures small { result < 65 }
{
    match width {
        Width::W1 => 1,
        Width::W8 => 8,
        Width::W16 => 16,
        Width::W32 => 32,
        Width::W64 => 64,
    }
}

// How many bits a word of a type has, and 0 for a type that has no word.
fn word_bits(ty: &Ty) -> u32
    ensures bits { result ≡ word_bits ty.now }
    ensures small { result < 65 }
{
    match ty {
        Ty::Int(width) => bits(*width),
        Ty::Ptr => 64,
        _ => 0,
    }
}

/// How many bits a register of a type has; at most 65.
pub fn register_bits(ty: &Ty) -> u32
    ensures bits { result ≡ register_bits ty.now }
    ensures few { result < 66 }
{
    match ty {
        Ty::Struct(parts) => match parts.items() {
            [first, ..] => word_bits(first) + 1,
            [] => 0,
        },
        _ => word_bits(ty),
    }
}

// The register that takes an instruction's result, with its bits.
fn width_of_result(inst: &Inst) -> Option<(Loc, u32)>
    ensures { result ≡ width_of_result inst.now }
{
    match inst {
        Inst::Bin { dst, w, .. } => Some((*dst, bits(*w))),
        Inst::Cmp { dst, .. } => Some((*dst, 1)),
        Inst::Select { dst, ty, .. }
        | Inst::Cast { dst, to: ty, .. }
        | Inst::Load { dst, ty, .. }
        | Inst::Rmw { dst, ty, .. }
        | Inst::Phi { dst, ty, .. } => Some((*dst, word_bits(ty))),
        Inst::Gep { dst, .. } | Inst::Alloca { dst, .. } => Some((*dst, 64)),
        Inst::CmpXchg { dst, ty, .. } => Some((*dst, word_bits(ty) + 1)),
        Inst::Extract {
            dst,
            elem,
            index,
            ..
        } => Some((*dst, if *index == 0 { word_bits(elem) } else { 1 })),
        Inst::Call { dst, ret, .. } => {
            let dst = (*dst)?;
            Some((dst, word_bits(ret)))
        }
        Inst::Store { .. }
        | Inst::Fence
        | Inst::Br { .. }
        | Inst::CondBr { .. }
        | Inst::Switch { .. }
        | Inst::Ret { .. }
        | Inst::Unreachable => None,
    }
}

// The register that a hardened instruction defines, with its bits.
fn width_in(inst: &HInst) -> Option<(Loc, u32)>
    ensures { result ≡ width_in inst.now }
{
    match inst {
        HInst::Do { inst, .. } => width_of_result(inst),
        HInst::Mov { ty, reg } => Some((*reg, register_bits(ty))),
        HInst::Cut
        | HInst::Begin
        | HInst::End
        | HInst::Tick(_)
        | HInst::Chk { .. }
        | HInst::ChkMem { .. } => None,
    }
}

// Adds parameters.
fn add_params(params: &[(Ty, Loc)], widths: &mut Vec<(Loc, u32)>) -> Result<(), AllocError>
    ensures { OnOk result (widths.new.items ≡ widths.old.items ++ map width_of_param params.now) }
{
    for (ty, reg) in params {
        widths.push((*reg, register_bits(ty)))?;
    }
    Ok(())
}

// Adds the results of phis.
fn add_phis(phis: &[(Side, Inst)], widths: &mut Vec<(Loc, u32)>) -> Result<(), AllocError>
    ensures { OnOk result
        (widths.new.items ≡ widths.old.items ++ filter_map width_of_phi phis.now) }
{
    for (_, phi) in phis {
        if let Some(entry) = width_of_result(phi) {
            widths.push(entry)?;
        }
    }
    Ok(())
}

// Adds what hardened instructions define.
fn add_list(list: &[HInst], widths: &mut Vec<(Loc, u32)>) -> Result<(), AllocError>
    ensures { OnOk result (widths.new.items ≡ widths.old.items ++ filter_map width_in list.now) }
{
    for inst in list {
        if let Some(entry) = width_in(inst) {
            widths.push(entry)?;
        }
    }
    Ok(())
}

// Adds what blocks define.
fn add_blocks(blocks: &[HBlock], widths: &mut Vec<(Loc, u32)>) -> Result<(), AllocError>
    ensures { OnOk result (widths.new.items ≡ widths.old.items ++ flat_map widths_in blocks.now) }
{
    for block in blocks {
        add_phis(block.phis.items(), widths)?;
        add_list(block.list.items(), widths)?;
    }
    Ok(())
}

// The bits of a function's registers, in the order of their definitions.
fn hard_widths(alloc: Global, head: &Func, blocks: &[HBlock]) -> Result<Vec<(Loc, u32)>, AllocError>
    ensures { IfOk result (λ widths. widths.items ≡ hard_widths head.now blocks.now) }
{
    let mut widths = Vec::new(alloc);
    add_params(head.params(), &mut widths)?;
    add_blocks(blocks, &mut widths)?;
    Ok(widths)
}

/// How many bits each register of a function holds. Contracts see the definitions in order, of which the first of a register counts.
#[derive(Drop)]
pub(crate) struct FuncWidths {
    entries: Vec<(Loc, u32)>,
    places: HashMap<u32, usize>,
}

impl Model for FuncWidths {
    ghost use Rattle.std.specs.Prelude.{List, ℕ};
    ghost use Rattle.ir_core.specs.declared.types.Loc.{Loc};
    ghost use Rattle.ir_types.specs.Firsts.{ArePlaced};

    ghost Value = { List (Loc × ℕ) };

    ghost view = { λ w. w.entries.items };

    ghost invariant = { λ w. ArePlaced w.entries.items w.places };
}

// The place of the first definition of each register. From the last one on, so that an earlier one takes the place of a later one.
fn places_of(alloc: Global, entries: &[(Loc, u32)]) -> Result<HashMap<u32, usize>, AllocError>
    ensures { IfOk result (λ places. ArePlaced entries.now places) }
{
    let mut places = HashMap::new(alloc);
    let mut left = entries.len();
    'entries: while left > 0 {
        left -= 1;
        let (reg, _) = entries[left];
        places.insert(reg.0, left)?;
    }
    Ok(places)
}

impl FuncWidths {
    /// The table of a function.
    fn new(alloc: Global, head: &Func, blocks: &[HBlock]) -> Result<FuncWidths, AllocError>
        ensures { IfOk result (λ table. table ≡ hard_widths head.now blocks.now) }
    {
        let entries = hard_widths(alloc, head, blocks)?;
        let places = places_of(alloc, entries.as_slice())?;
        Ok(FuncWidths { entries, places })
    }

    /// How many bits a register holds, where the function defines it.
    pub(crate) fn get(&self, reg: Loc) -> Option<u32>
        ensures { result ≡ first_of self.now reg }
    {
        let place = *self.places.get(&reg.0)?;
        let (_, bits) = *self.entries.get(place)?;
        Some(bits)
    }
}

/// The tables of functions, by their heads and their blocks.
pub(crate) fn module_widths(
    alloc: Global,
    heads: &[Func],
    funcs: &[HBlocks],
) -> Result<Vec<FuncWidths>, AllocError>
    requires { length funcs.now ≡ length heads.now }
    ensures { IfOk result (λ tables. tables.items ≡ module_widths heads.now funcs.now) }
{
    let mut tables = Vec::with_capacity(alloc, heads.len())?;
    for n in 0..heads.len() {
        tables.push(FuncWidths::new(alloc, &heads[n], funcs[n].items())?)?;
    }
    Ok(tables)
}
