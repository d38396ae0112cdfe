//! Faults of flow.
ghost use Rattle.std.specs.Prelude.{◌≡◌, length, map, IfOk, OnOk, IfErr};
ghost use Rattle.ir_flow.specs.Edges.{edges_of};
ghost use Rattle.ir_flow.specs.Searches.{HasTargets};
ghost use Rattle.ir_flow.specs.Uses.{AllAssigned};
ghost use Rattle.ir_flow.specs.Faults.{IsUseFault};
ghost use Rattle.ir_flow.specs.Phis.{AllFitting, IsPhiFault, IsFlowFault, phis_of, turned};

use crate::Edges;
use crate::control::{edges, numbers_of};
use crate::phis::check_body;
use crate::targets::targets_of;
use crate::told::{guide_of, is_settled};
use crate::uses::uses_of;
use ir_core::{Func, Loc};
use std::alloc::{AllocError, Global};

/// Why the flow of a function is faulty.
#[derive(Drop)]
pub enum FlowError {
    /// The labels of a phi aren't the block's predecessors, or one label has two values.
    PhiMismatch { block: u32, inst: u32 },
    /// Some path reaches the place, and passes no assignment of the register.
    UseBeforeDef { block: u32, inst: u32, reg: Loc },
    /// There was no memory.
    NoMemory,
}

impl From<AllocError> for FlowError {
    ghost use Rattle.std.specs.Prelude.{◌≡◌};
    ghost use Rattle.ir_flow.specs.declared.flow.FlowError.TheVariants.{NoMemory};

    ghost from_gives = { λ _ e. e ≡ NoMemory };

    fn from(_error: AllocError) -> FlowError {
        FlowError::NoMemory
    }
}

// The edges turned round.
fn turned(alloc: Global, e: &Edges) -> Result<Vec<(u32, u32)>, AllocError>
    ensures { IfOk result (λ pairs. pairs.items ≡ map turned e.now.pairs) }
{
    let mut pairs = Vec::with_capacity(alloc, e.pairs().len())?;
    for (from, to) in e.pairs() {
        pairs.push((*to, *from))?;
    }
    Ok(pairs)
}

// Where the edges to each block come from.
fn preds_of(alloc: Global, e: &Edges) -> Result<Vec<Vec<u32>>, AllocError>
    ensures { IfOk result (λ preds. HasTargets (map turned e.now.pairs) e.now.blocks preds.items) }
{
    let pairs = turned(alloc, e)?;
    targets_of(alloc, e.blocks(), pairs.as_slice())
}

// Refuses the first phi that doesn't fit.
fn check_phis(alloc: Global, f: &Func, preds: &[Vec<u32>]) -> Result<(), FlowError>
    requires { HasTargets (map turned (edges_of f.now).pairs) (length f.now.blocks) preds.now }
    ensures ok { OnOk result (AllFitting f.now (phis_of f.now)) }
    ensures fault { IfErr result (λ e. IsPhiFault f.now (phis_of f.now) e) }
{
    let numbers = numbers_of(alloc, f.blocks())?;
    let mut block: u32 = 0;
    for each in f.blocks() {
        let list = &preds[block as usize];
        let checked = check_body(
            alloc,
            f,
            &numbers,
            list.as_slice(),
            block,
            each.insts.items(),
        );
        if let Err(error) = checked {
            return Err(error);
        }
        block = block.checked_add(1).ok_or(AllocError)?;
    }
    Ok(())
}

// The first register that is read and not assigned.
fn check_uses(
    alloc: Global,
    f: &Func,
    e: &Edges,
    preds: &[Vec<u32>],
    targets: &[Vec<u32>],
) -> Result<(), FlowError>
    requires { HasTargets (edges_of f.now).pairs (length f.now.blocks) targets.now }
    ensures ok { OnOk result (AllAssigned f.now) }
    ensures fault { IfErr result (λ e. IsUseFault f.now e) }
{
    let guide = guide_of(alloc, f, targets, preds, e.pairs().len())?;
    let uses = uses_of(alloc, f)?;
    for u in &uses {
        if !is_settled(alloc, f, targets, &guide, *u)? {
            return Err(FlowError::UseBeforeDef {
                block: u.block,
                inst: u.inst,
                reg: u.reg,
            });
        }
    }
    Ok(())
}

/// Refuses the first phi that doesn't fit, else the first register that some path doesn't assign before it is read.
pub fn flow_check(alloc: Global, f: &Func) -> Result<(), FlowError>
    ensures phis { OnOk result (AllFitting f.now (phis_of f.now)) }
    ensures uses { OnOk result (AllAssigned f.now) }
    ensures fault { IfErr result (λ e. IsFlowFault f.now e) }
{
    let e = edges(alloc, f)?;
    let preds = preds_of(alloc, &e)?;
    check_phis(alloc, f, preds.as_slice())?;
    let targets = targets_of(alloc, e.blocks(), e.pairs())?;
    check_uses(alloc, f, &e, preds.as_slice(), targets.as_slice())?;
    Ok(())
}
