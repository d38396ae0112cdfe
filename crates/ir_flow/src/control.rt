//! The edges of a function, and its loop heads.
ghost use Rattle.std.specs.Prelude.{◌≡◌, ◌++◌, ◌+◌, ◌<◌, ◌==◌, ◌&&◌, ◌||◌, false, nat_lt, nat_le, length, slice_index_or, ℕ, IfOk, OnOk};
ghost use Rattle.std.specs.List.{filter_map};
ghost use Rattle.ir_flow.specs.Edges.{labels_of, last_labels, edges_of, AreLoopHeads};
ghost use Rattle.ir_flow.specs.Labels.{AreNumbers, found_edge};

use crate::Edges;
use ir_core::{Block, Func, Inst, Loc};
use std::alloc::{AllocError, Global};
use std::collections::HashMap;

/// The numbers of blocks by their labels.
pub(crate) fn numbers_of(alloc: Global, blocks: &[Block]) -> Result<HashMap<u32, u32>, AllocError>
    ensures { IfOk result (λ numbers. AreNumbers blocks.now numbers) }
{
    let mut numbers = HashMap::new(alloc);
    let mut number: u32 = 0;
    for block in blocks {
        numbers.insert(block.label.0, number)?;
        number = number.checked_add(1).ok_or(AllocError)?;
    }
    Ok(numbers)
}

// Adds the labels that an instruction leads to.
fn add_labels(inst: &Inst, labels: &mut Vec<Loc>) -> Result<(), AllocError>
    ensures { OnOk result (labels.new.items ≡ labels.old.items ++ labels_of inst.now) }
{
    match inst {
        Inst::Br { to } => labels.push(*to)?,
        Inst::CondBr { yes, no, .. } => {
            labels.push(*yes)?;
            labels.push(*no)?;
        }
        Inst::Switch { default, cases, .. } => {
            labels.push(*default)?;
            for (_, label) in cases.items() {
                labels.push(*label)?;
            }
        }
        _ => {}
    }
    Ok(())
}

// The labels that a block leads to.
fn last_labels(alloc: Global, block: &Block) -> Result<Vec<Loc>, AllocError>
    ensures { IfOk result (λ labels. labels.items ≡ last_labels block.now.insts) }
{
    let mut labels = Vec::new(alloc);
    if let Some(last) = block.insts.items().last() {
        add_labels(last, &mut labels)?;
    }
    Ok(labels)
}

// Adds the edges from a block to the blocks with these labels.
fn add_edges(
    numbers: &HashMap<u32, u32>,
    from: u32,
    labels: &[Loc],
    pairs: &mut Vec<(u32, u32)>,
) -> Result<(), AllocError>
    ensures { OnOk result (pairs.new.items ≡ pairs.old.items ++
        filter_map (found_edge numbers.now from) labels.now) }
{
    for label in labels {
        if let Some(to) = numbers.get(&label.0) {
            pairs.push((from, *to))?;
        }
    }
    Ok(())
}

/// The edges of a function, in the order of its blocks and of the labels that they write.
pub fn edges(alloc: Global, f: &Func) -> Result<Edges, AllocError>
    ensures { IfOk result (λ e. e ≡ edges_of f.now) }
{
    let numbers = numbers_of(alloc, f.blocks())?;
    let mut pairs = Vec::new(alloc);
    let mut from: u32 = 0;
    for block in f.blocks() {
        let labels = last_labels(alloc, block)?;
        add_edges(&numbers, from, labels.as_slice(), &mut pairs)?;
        from = from.checked_add(1).ok_or(AllocError)?;
    }
    Ok(Edges::of(from, pairs))
}

// Marks the target of an edge from itself or from a later block.
fn mark_head(heads: &mut Vec<bool>, from: u32, to: u32)
    ensures count { length heads.new.items ≡ length heads.old.items }
    ensures each { (block : ℕ) →
        slice_index_or heads.new.items block false ≡ (slice_index_or heads.old.items block false ||
        (nat_lt block (length heads.old.items) && (to == block && nat_le block from))) }
{
    if to <= from && (to as usize) < heads.len() {
        heads[to as usize] = true;
    }
}

/// For each block whether an edge leads to it from itself or from a later block.
pub fn loop_heads(alloc: Global, e: &Edges) -> Result<Vec<bool>, AllocError>
    ensures { IfOk result (λ heads. AreLoopHeads e.now heads.items) }
{
    let mut heads = vec![in alloc; false; e.blocks() as usize]?;
    for (from, to) in e.pairs() {
        mark_head(&mut heads, *from, *to);
    }
    Ok(heads)
}
