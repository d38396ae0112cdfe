//! Blocks and functions with numbered ticks.
ghost use Rattle.std.specs.Prelude.{◌≡◌, map, IfOk};
ghost use Rattle.std.specs.List.{All};
ghost use Rattle.hard_ir.specs.Facts.{IsShort, AreShort};
ghost use Rattle.hard_ir.specs.Hardened.{ticked_block};

use crate::numbers::ticked_list;
use hard_ir::{HBlock, HBlocks, HFuncs, HPhis};
use ir_core::{Copied, Inst, Seq, Side};
use std::alloc::{AllocError, Global};

// The copies of phis.
fn copied_phis(phis: &[(Side, Inst)], alloc: Global) -> Result<HPhis, AllocError>
    ensures { IfOk result (λ copies. copies ≡ phis.now) }
{
    let mut copies = Seq::new(alloc);
    for (side, inst) in phis {
        let inst = inst.copy(alloc)?;
        copies.push((*side, inst))?;
    }
    Ok(copies)
}

// The block, its ticks numbered.
fn ticked_block(block: &HBlock, alloc: Global) -> Result<HBlock, AllocError>
    ensures block { IfOk result (λ r. r ≡ ticked_block block.now) }
    ensures short { IfOk result (λ r. IsShort r) }
{
    let phis = copied_phis(block.phis.items(), alloc)?;
    let list = ticked_list(block.list.items(), alloc)?;
    Ok(HBlock {
        label: block.label,
        phis,
        list,
    })
}

// The blocks of a function, their ticks numbered.
fn ticked_blocks(blocks: &[HBlock], alloc: Global) -> Result<HBlocks, AllocError>
    ensures blocks { IfOk result (λ r. r ≡ map ticked_block blocks.now) }
    ensures short { IfOk result (λ r. All IsShort r) }
{
    let mut ticked = Seq::new(alloc);
    for block in blocks {
        let block = ticked_block(block, alloc)?;
        ticked.push(block)?;
    }
    Ok(ticked)
}

// The blocks of all functions, their ticks numbered.
pub(crate) fn ticked_funcs(funcs: &[HBlocks], alloc: Global) -> Result<HFuncs, AllocError>
    ensures funcs { IfOk result (λ r. r ≡ map (map ticked_block) funcs.now) }
    ensures short { IfOk result (λ r. AreShort r) }
{
    let mut ticked = Seq::new(alloc);
    for blocks in funcs {
        let blocks = ticked_blocks(blocks.items(), alloc)?;
        ticked.push(blocks)?;
    }
    Ok(ticked)
}
