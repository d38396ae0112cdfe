//! The blocks of a function with their terminators alone, and which of them are loop heads.
ghost use Rattle.std.specs.Prelude.{◌≡◌, ◌<◌, [], ◌∷◌, ◌++◌, fold, length, map, IfOk, OnOk};
ghost use Rattle.std.specs.List.{cons_option, filter_map};
ghost use Rattle.ir_core.specs.Module.{with_inst};
ghost use Rattle.ir_check.specs.Blocks.{is_terminator};
ghost use Rattle.ir_flow.specs.Edges.{AreLoopHeads};
ghost use Rattle.column_walk.specs.Columns.{ending_by, outline, pairs_among};

use hard_ir::{HBlock, HInst};
use ir_core::{Copied, Func, Inst, Sym, Ty};
use ir_flow::{edges, loop_heads};
use std::alloc::{AllocError, Global};

// Whether the instruction ends a block.
fn is_terminator(inst: &Inst) -> bool
    ensures { result ≡ is_terminator inst.now }
{
    matches!(
        inst,
        Inst::Br { .. }
            | Inst::CondBr { .. }
            | Inst::Switch { .. }
            | Inst::Ret { .. }
            | Inst::Unreachable
    )
}

// Adds the terminator that the item does to the last block.
#[tactic(auto, using(crate::proofs::LastBlock::some_more))]
fn add_ending(item: &HInst, f: &mut Func, alloc: Global) -> Result<(), AllocError>
    requires { 0 < length f.old.blocks }
    ensures blocks { OnOk result (f.new.blocks ≡ fold with_inst f.old.blocks (cons_option (ending_by item.now) [])) }
    ensures some { OnOk result (0 < length f.new.blocks) }
{
    match item {
        HInst::Do { inst, .. } => {
            if is_terminator(inst) {
                let inst = inst.copy(alloc)?;
                f.add_inst(inst)?;
            }
            Ok(())
        }
        HInst::Cut
        | HInst::Begin
        | HInst::End
        | HInst::Tick(_)
        | HInst::Chk { .. }
        | HInst::ChkMem { .. }
        | HInst::Mov { .. } => Ok(()),
    }
}

// Adds the terminators that the items do to the last block.
#[tactic(auto, using(crate::proofs::LastBlock::fold_more))]
fn add_endings(items: &[HInst], f: &mut Func, alloc: Global) -> Result<(), AllocError>
    requires { 0 < length f.old.blocks }
    ensures { OnOk result (f.new.blocks ≡ fold with_inst f.old.blocks (filter_map ending_by items.now)) }
{
    for item in items {
        add_ending(item, f, alloc)?;
    }
    Ok(())
}

// Adds a block's label and its terminator.
#[tactic(auto, using(crate::proofs::LastBlock::fold_last))]
fn add_outline(block: &HBlock, f: &mut Func, alloc: Global) -> Result<(), AllocError>
    ensures { OnOk result (f.new.blocks ≡ f.old.blocks ++ outline block.now ∷ []) }
{
    f.add_block(block.label)?;
    add_endings(block.list.items(), f, alloc)
}

// A function of the labels and terminators of these blocks.
fn outlined(blocks: &[HBlock], alloc: Global) -> Result<Func, AllocError>
    ensures { IfOk result (λ f. f.blocks ≡ map outline blocks.now) }
{
    let mut f = Func::new(alloc, Sym(0), Ty::Void);
    for block in blocks {
        add_outline(block, &mut f, alloc)?;
    }
    Ok(f)
}

// Whether each of the blocks is a loop head.
pub(crate) fn heads_among(blocks: &[HBlock], alloc: Global) -> Result<Vec<bool>, AllocError>
    ensures { IfOk result (λ heads. AreLoopHeads
        (record { blocks = length blocks.now; pairs = pairs_among (map outline blocks.now) }) heads.items) }
{
    let f = outlined(blocks, alloc)?;
    let edges = edges(alloc, &f)?;
    loop_heads(alloc, &edges)
}
