//! Blocks and functions with both flows.
ghost use Rattle.std.specs.Prelude.{◌≡◌, ◌<◌, ◌++◌, length, map, IfOk, OnOk};
ghost use Rattle.std.specs.List.{All, flat_map};
ghost use Rattle.hard_ir.specs.Facts.{list_limit, IsShort, AreShort};
ghost use Rattle.hard_ir.specs.Hardened.{at_entry, hard_block, hard_func};
ghost use Rattle.hard_ir.specs.Image.{copy_of, flow, flow_table, phi_image};

use crate::images::{add_image, add_phis};
use hard_ir::{HBlock, HBlocks, HFuncs, HInst, HInsts, HPhis, LIST_LIMIT};
use ir_core::{Block, Copied, Func, Inst, Loc, Seq, Ty};
use std::alloc::{AllocError, Global};

// The parameters that are copied at a block: all of them at the entry.
fn entry_params(f: &Func, n: usize) -> &[(Ty, Loc)]
    ensures { map copy_of result.now ≡ at_entry flow_table f.now n }
{
    if n == 0 { f.params() } else { &[] }
}

// Adds the copies of parameters to their shadows.
fn add_copies(params: &[(Ty, Loc)], list: &mut HInsts, alloc: Global) -> Result<(), AllocError>
    ensures { OnOk result (list.new ≡ list.old ++ map copy_of params.now) }
{
    for (ty, reg) in params {
        let ty = ty.copy(alloc)?;
        list.push(HInst::Mov { ty, reg: *reg })?;
    }
    Ok(())
}

// Adds what stands for the instructions.
fn add_images(insts: &[Inst], list: &mut HInsts, alloc: Global) -> Result<(), AllocError>
    ensures { OnOk result (list.new ≡ list.old ++ flat_map flow insts.now) }
{
    for inst in insts {
        add_image(inst, list, alloc)?;
    }
    Ok(())
}

// The phis of both sides.
fn phis_of(insts: &[Inst], alloc: Global) -> Result<HPhis, AllocError>
    ensures { IfOk result (λ phis. phis ≡ flat_map phi_image insts.now) }
{
    let mut phis = Seq::new(alloc);
    for inst in insts {
        add_phis(inst, &mut phis, alloc)?;
    }
    Ok(phis)
}

// A list of the copies of parameters and of what stands for instructions.
fn list_of(params: &[(Ty, Loc)], insts: &[Inst], alloc: Global) -> Result<HInsts, AllocError>
    ensures items { IfOk result (λ list. list ≡ map copy_of params.now ++ flat_map flow insts.now) }
    ensures short { IfOk result (λ list. length list < list_limit) }
{
    let mut list = Seq::new(alloc);
    add_copies(params, &mut list, alloc)?;
    add_images(insts, &mut list, alloc)?;
    if list.items().len() >= LIST_LIMIT {
        return Err(AllocError);
    }
    Ok(list)
}

// The hardened block of a function's block.
fn hard_block(f: &Func, n: usize, block: &Block, alloc: Global) -> Result<HBlock, AllocError>
    ensures block { IfOk result (λ r. r ≡ hard_block flow_table f.now n block.now) }
    ensures short { IfOk result (λ r. IsShort r) }
{
    let insts = block.insts.items();
    let phis = phis_of(insts, alloc)?;
    let list = list_of(entry_params(f, n), insts, alloc)?;
    Ok(HBlock {
        label: block.label,
        phis,
        list,
    })
}

// The hardened blocks of a function.
fn hard_func(f: &Func, alloc: Global) -> Result<HBlocks, AllocError>
    ensures blocks { IfOk result (λ r. r ≡ hard_func flow_table f.now) }
    ensures short { IfOk result (λ r. All IsShort r) }
{
    let mut hardened = Seq::new(alloc);
    for (n, block) in f.blocks().iter().enumerate() {
        let block = hard_block(f, n, block, alloc)?;
        hardened.push(block)?;
    }
    Ok(hardened)
}

// The hardened blocks of all functions.
pub(crate) fn hard_funcs(funcs: &[Func], alloc: Global) -> Result<HFuncs, AllocError>
    ensures funcs { IfOk result (λ r. r ≡ map (hard_func flow_table) funcs.now) }
    ensures short { IfOk result (λ r. AreShort r) }
{
    let mut hardened = Seq::new(alloc);
    for f in funcs {
        let blocks = hard_func(f, alloc)?;
        hardened.push(blocks)?;
    }
    Ok(hardened)
}
