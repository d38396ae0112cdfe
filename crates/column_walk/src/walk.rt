//! Blocks and functions by a column.
ghost use Rattle.std.specs.Prelude.{◌≡◌, ◌<◌, [], ◌++◌, length, map, IfOk, OnOk};
ghost use Rattle.std.specs.List.{All, cons_option, flat_map};
ghost use Rattle.ir_flow.specs.Edges.{AreLoopHeads, is_loop_head};
ghost use Rattle.hard_ir.specs.Facts.{list_limit, IsShort, AreShort};
ghost use Rattle.hard_ir.specs.Hardened.{at_entry, at_head};
ghost use Rattle.hard_ir.specs.Image.{copy_of};
ghost use Rattle.column_walk.specs.Columns.{column_block, column_func, column_funcs, column_list, outline, pairs_among, retired, retired_by, table_of};

use crate::column::Column;
use crate::outlines::heads_among;
use hard_ir::{HBlock, HBlocks, HFuncs, HInst, HInsts, HPhis, LIST_LIMIT};
use ir_core::{Copied, Func, Inst, Loc, Seq, Side, Ty};
use std::alloc::{AllocError, Global};

// Adds the copies of parameters to their shadows.
fn add_copies(params: &[(Ty, Loc)], list: &mut HInsts, alloc: Global) -> Result<(), AllocError>
    ensures { OnOk result (list.new ≡ list.old ++ map copy_of params.now) }
{
    for (ty, reg) in params {
        let ty = ty.copy(alloc)?;
        list.push(HInst::Mov { ty, reg: *reg })?;
    }
    Ok(())
}

// Adds what stands at the entry, where the block is the entry.
fn add_entry<C: Column>(
    column: &C,
    f: &Func,
    n: usize,
    list: &mut HInsts,
    alloc: Global,
) -> Result<(), AllocError>
    ensures { OnOk result (list.new ≡ list.old ++ at_entry (table_of (C.parts column.now)) f.now n) }
{
    if n == 0 {
        add_copies(f.params(), list, alloc)?;
        column.add_point(list)?;
    }
    Ok(())
}

// Adds what stands at a loop head, where the block is one.
fn add_head<C: Column>(column: &C, is_head: bool, list: &mut HInsts) -> Result<(), AllocError>
    ensures { OnOk result (list.new ≡ list.old ++ at_head (table_of (C.parts column.now)) is_head) }
{
    if is_head {
        column.add_point(list)?;
    }
    Ok(())
}

// Adds what stands for the instruction that the item retires.
fn add_item<C: Column>(
    column: &C,
    item: &HInst,
    list: &mut HInsts,
    alloc: Global,
) -> Result<(), AllocError>
    ensures { OnOk result (list.new ≡ list.old ++ flat_map (C.parts column.now).image (cons_option (retired_by item.now) [])) }
{
    match item {
        HInst::Do {
            inst,
            retires: true,
            ..
        } => column.add_image(inst, list, alloc),
        HInst::Do { retires: false, .. }
        | HInst::Cut
        | HInst::Begin
        | HInst::End
        | HInst::Tick(_)
        | HInst::Chk { .. }
        | HInst::ChkMem { .. }
        | HInst::Mov { .. } => Ok(()),
    }
}

// Adds what stands for the instructions that the items retire.
fn add_items<C: Column>(
    column: &C,
    items: &[HInst],
    list: &mut HInsts,
    alloc: Global,
) -> Result<(), AllocError>
    ensures { OnOk result (list.new ≡ list.old ++ flat_map (C.parts column.now).image (retired items.now)) }
{
    for item in items {
        add_item(column, item, list, alloc)?;
    }
    Ok(())
}

// The list of a block by the column.
fn column_list<C: Column>(
    column: &C,
    f: &Func,
    is_head: bool,
    n: usize,
    items: &[HInst],
    alloc: Global,
) -> Result<HInsts, AllocError>
    ensures items { IfOk result (λ list. list ≡ column_list (C.parts column.now) f.now is_head n items.now) }
    ensures short { IfOk result (λ list. length list < list_limit) }
{
    let mut list = Seq::new(alloc);
    add_entry(column, f, n, &mut list, alloc)?;
    add_head(column, is_head, &mut list)?;
    add_items(column, items, &mut list, alloc)?;
    if list.items().len() >= LIST_LIMIT {
        return Err(AllocError);
    }
    Ok(list)
}

// The copies of phis.
fn copied_phis(phis: &[(Side, Inst)], alloc: Global) -> Result<HPhis, AllocError>
    ensures { IfOk result (λ copies. copies ≡ phis.now) }
{
    let mut copies = Seq::new(alloc);
    for (side, inst) in phis {
        let inst = inst.copy(alloc)?;
        copies.push((*side, inst))?;
    }
    Ok(copies)
}

// The block by the column.
fn column_block<C: Column>(
    column: &C,
    f: &Func,
    is_head: bool,
    n: usize,
    block: &HBlock,
    alloc: Global,
) -> Result<HBlock, AllocError>
    ensures block { IfOk result (λ r. r ≡ record block.now { list = column_list (C.parts column.now) f.now is_head n block.now.list }) }
    ensures short { IfOk result (λ r. IsShort r) }
{
    let phis = copied_phis(block.phis.items(), alloc)?;
    let list = column_list(column, f, is_head, n, block.list.items(), alloc)?;
    Ok(HBlock {
        label: block.label,
        phis,
        list,
    })
}

// Whether the block with this number is a loop head, by the marks of all.
fn is_marked(marks: &[bool], blocks: &[HBlock], n: usize) -> bool
    requires marks { AreLoopHeads (record { blocks = length blocks.now; pairs = pairs_among (map outline blocks.now) }) marks.now }
    requires within { n < length blocks.now }
    ensures { result ≡ is_loop_head (pairs_among (map outline blocks.now)) n }
{
    n < blocks.len() && marks[n]
}

// The blocks of a function by the column.
fn column_func<C: Column>(
    column: &C,
    f: &Func,
    blocks: &[HBlock],
    alloc: Global,
) -> Result<HBlocks, AllocError>
    ensures blocks { IfOk result (λ r. r ≡ column_func (C.parts column.now) f.now blocks.now) }
    ensures short { IfOk result (λ r. All IsShort r) }
{
    let heads = heads_among(blocks, alloc)?;
    let mut made = Seq::new(alloc);
    for (n, block) in blocks.iter().enumerate() {
        let is_head = is_marked(heads.as_slice(), blocks, n);
        let block = column_block(column, f, is_head, n, block, alloc)?;
        made.push(block)?;
    }
    Ok(made)
}

/// The blocks of all functions by the column: each block's list is made again out of the instructions that it retires. It takes time and memory in
/// proportion to the module and to what the column makes.
pub fn column_funcs<C: Column>(
    alloc: Global,
    column: &C,
    heads: &[Func],
    funcs: &[HBlocks],
) -> Result<HFuncs, AllocError>
    requires { length funcs.now ≡ length heads.now }
    ensures funcs { IfOk result (λ r. r ≡ column_funcs (C.parts column.now) heads.now funcs.now) }
    ensures short { IfOk result (λ r. AreShort r) }
{
    let mut made = Seq::new(alloc);
    for (n, f) in heads.iter().enumerate() {
        let blocks = column_func(column, f, funcs[n].items(), alloc)?;
        made.push(blocks)?;
    }
    Ok(made)
}
