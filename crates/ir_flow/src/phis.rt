//! Phis and the blocks that lead to them.
ghost use Rattle.std.specs.Prelude.{◌≡◌, length, MatchOption, MatchBool, IfOk, IfErr, OnOk, IsSome, None, nat_eq, true, ℕ};
ghost use Rattle.std.specs.List.{list_any};
ghost use Rattle.std.specs.HashMap.{get};
ghost use Rattle.ir_flow.specs.Labels.{AreNumbers};
ghost use Rattle.ir_flow.specs.Phis.{FitsTo, ArmsKnown, IsSetOf, HasPreds, AllFitting, IsPhiFault, FirstMismatch, phi_at, phis_of_body, phis_of};

use crate::FlowError;
use crate::same::same_val;
use ir_core::{Block, Func, Inst, Loc, Val};
use std::alloc::{AllocError, Global};
use std::collections::{HashMap, HashSet};

/// The set of some blocks.
pub(crate) fn set_of(alloc: Global, blocks: &[u32]) -> Result<HashSet<u32>, AllocError>
    ensures { IfOk result (λ set. IsSetOf blocks.now set) }
{
    let mut set = HashSet::new(alloc);
    for block in blocks {
        set.insert(*block)?;
    }
    Ok(set)
}

// The first arm of each block, or `None` where an arm is of no predecessor or two of one block differ.
fn first_arms(
    alloc: Global,
    blocks: &[Block],
    numbers: &HashMap<u32, u32>,
    preds: &[u32],
    known: &HashSet<u32>,
    arms: &[(Val, Loc)],
) -> Result<Option<HashMap<u32, usize>>, AllocError>
    requires numbers { AreNumbers blocks.now numbers.now }
    requires known { IsSetOf preds.now known.now }
    ensures { IfOk result (λ found. MatchOption found (FitsTo blocks.now preds.now arms.now → ⊥)
        (λ places. ArmsKnown blocks.now preds.now arms.now (length arms.now) places)) }
{
    let mut places: HashMap<u32, usize> = HashMap::new(alloc);
    for (place, (val, label)) in arms.iter().enumerate() {
        let Some(from) = numbers.get(&label.0).copied() else {
            return Ok(None);
        };
        if !known.contains(&from) {
            return Ok(None);
        }
        match places.get(&from).copied() {
            None => {
                places.insert(from, place)?;
            }
            Some(first) => {
                if !same_val(&arms[first].0, val) {
                    return Ok(None);
                }
            }
        }
    }
    Ok(Some(places))
}

// Whether each predecessor has an arm.
fn all_named(preds: &[u32], places: &HashMap<u32, usize>) -> bool
    ensures { MatchBool result
        ((from : ℕ) → list_any (nat_eq from) preds.now ≡ true → IsSome (get nat_eq places.now from))
        ((from : ℕ) × (list_any (nat_eq from) preds.now ≡ true) × (get nat_eq places.now from ≡ None)) }
{
    for from in preds {
        if !places.contains_key(from) {
            return false;
        }
    }
    true
}

/// Whether the labels of a phi are a block's predecessors, and no label has two values.
pub(crate) fn fits(
    alloc: Global,
    blocks: &[Block],
    numbers: &HashMap<u32, u32>,
    preds: &[u32],
    known: &HashSet<u32>,
    arms: &[(Val, Loc)],
) -> Result<bool, AllocError>
    requires numbers { AreNumbers blocks.now numbers.now }
    requires known { IsSetOf preds.now known.now }
    ensures { IfOk result (λ fits. MatchBool fits (FitsTo blocks.now preds.now arms.now)
        (FitsTo blocks.now preds.now arms.now → ⊥)) }
{
    match first_arms(alloc, blocks, numbers, preds, known, arms)? {
        None => Ok(false),
        Some(places) => Ok(all_named(preds, &places)),
    }
}

// Whether an instruction is no phi or one that fits.
fn inst_fits(
    alloc: Global,
    f: &Func,
    numbers: &HashMap<u32, u32>,
    preds: &[u32],
    known: &HashSet<u32>,
    block: u32,
    number: u32,
    inst: &Inst,
) -> Result<bool, AllocError>
    requires numbers { AreNumbers f.now.blocks numbers.now }
    requires preds { HasPreds f.now block preds.now }
    requires known { IsSetOf preds.now known.now }
    ensures { IfOk result (λ fits. MatchBool fits (AllFitting f.now (phi_at block number inst.now))
        (FirstMismatch f.now (phi_at block number inst.now) block number)) }
{
    match inst {
        Inst::Phi { arms, .. } => {
            let answer = fits(alloc, f.blocks(), numbers, preds, known, arms.items())?;
            Ok(answer)
        }
        _ => Ok(true),
    }
}

/// Refuses the first phi of a block that doesn't fit the block's predecessors.
pub(crate) fn check_body(
    alloc: Global,
    f: &Func,
    numbers: &HashMap<u32, u32>,
    preds: &[u32],
    block: u32,
    body: &[Inst],
) -> Result<(), FlowError>
    requires numbers { AreNumbers f.now.blocks numbers.now }
    requires preds { HasPreds f.now block preds.now }
    ensures ok { OnOk result (AllFitting f.now (phis_of_body block 0 body.now)) }
    ensures fault { IfErr result (λ e. IsPhiFault f.now (phis_of_body block 0 body.now) e) }
{
    let known = set_of(alloc, preds)?;
    let mut number: u32 = 0;
    for inst in body {
        if !inst_fits(alloc, f, numbers, preds, &known, block, number, inst)? {
            return Err(FlowError::PhiMismatch {
                block,
                inst: number,
            });
        }
        number = number.checked_add(1).ok_or(AllocError)?;
    }
    Ok(())
}
