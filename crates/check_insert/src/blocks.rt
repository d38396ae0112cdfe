//! Blocks and functions with their checks.
ghost use Rattle.std.specs.Prelude.{◌≡◌, ◌<◌, ◌++◌, length, map, IfOk, OnOk};
ghost use Rattle.std.specs.List.{All, flat_map};
ghost use Rattle.hard_ir.specs.Facts.{list_limit, IsShort, AreShort};
ghost use Rattle.check_insert.specs.Checks.{checked_item, checked_block, checked_funcs};

use crate::items::add_item;
use hard_ir::{HBlock, HBlocks, HFuncs, HInst, HInsts, HPhis, LIST_LIMIT};
use ir_core::{Copied, Inst, Seq, Side};
use std::alloc::{AllocError, Global};

// Adds the items behind their checks.
fn add_items(items: &[HInst], list: &mut HInsts, alloc: Global) -> Result<(), AllocError>
    ensures { OnOk result (list.new ≡ list.old ++ flat_map checked_item items.now) }
{
    for item in items {
        add_item(item, list, alloc)?;
    }
    Ok(())
}

// The list with its checks.
fn checked_list(items: &[HInst], alloc: Global) -> Result<HInsts, AllocError>
    ensures items { IfOk result (λ list. list ≡ flat_map checked_item items.now) }
    ensures short { IfOk result (λ list. length list < list_limit) }
{
    let mut list = Seq::new(alloc);
    add_items(items, &mut list, alloc)?;
    if list.items().len() >= LIST_LIMIT {
        return Err(AllocError);
    }
    Ok(list)
}

// The copies of phis.
fn copied_phis(phis: &[(Side, Inst)], alloc: Global) -> Result<HPhis, AllocError>
    ensures { IfOk result (λ copies. copies ≡ phis.now) }
{
    let mut copies = Seq::new(alloc);
    for (side, inst) in phis {
        let inst = inst.copy(alloc)?;
        copies.push((*side, inst))?;
    }
    Ok(copies)
}

// The block with its checks.
fn checked_block(block: &HBlock, alloc: Global) -> Result<HBlock, AllocError>
    ensures block { IfOk result (λ r. r ≡ checked_block block.now) }
    ensures short { IfOk result (λ r. IsShort r) }
{
    let phis = copied_phis(block.phis.items(), alloc)?;
    let list = checked_list(block.list.items(), alloc)?;
    Ok(HBlock {
        label: block.label,
        phis,
        list,
    })
}

// The blocks of a function with their checks.
fn checked_blocks(blocks: &[HBlock], alloc: Global) -> Result<HBlocks, AllocError>
    ensures blocks { IfOk result (λ r. r ≡ map checked_block blocks.now) }
    ensures short { IfOk result (λ r. All IsShort r) }
{
    let mut checked = Seq::new(alloc);
    for block in blocks {
        let block = checked_block(block, alloc)?;
        checked.push(block)?;
    }
    Ok(checked)
}

// The blocks of all functions with their checks.
pub(crate) fn checked_funcs(funcs: &[HBlocks], alloc: Global) -> Result<HFuncs, AllocError>
    ensures funcs { IfOk result (λ r. r ≡ checked_funcs funcs.now) }
    ensures short { IfOk result (λ r. AreShort r) }
{
    let mut checked = Seq::new(alloc);
    for blocks in funcs {
        let blocks = checked_blocks(blocks.items(), alloc)?;
        checked.push(blocks)?;
    }
    Ok(checked)
}
