//! Branches that their targets check.
ghost use Rattle.std.specs.Prelude.{◌≡◌};
ghost use Rattle.std.specs.Option.{option_copied};
ghost use Rattle.inst_meaning.specs.Phis.{arm_from};
ghost use Rattle.ir_core.specs.declared.values.Side.TheVariants.{M, S};
ghost use Rattle.upset_model.specs.Windows.{is_one_bit, first_compared, assigns_on, arm_of, phi_value, is_number, is_register, checks_direction, target_checks, is_edge_checked};
ghost use Rattle.upset_model.specs.Guards.{guard_on, guard_in, guard_of, target, both_check, blocks_of, edge_checked_at};

use crate::instructions::same_side;
use hard_ir::{HBlock, HInst, Hardened, When};
use ir_core::{Inst, Loc, Side, Ty, Val, Width};

/// A conditional branch on a register to two labels: to the first where its word is 1, to the second where it is 0.
#[derive(Clone, Copy)]
pub(crate) struct Guard {
    pub on: Loc,
    pub first: Loc,
    pub second: Loc,
}

// The branch on a value to two labels.
fn guard_on(condition: &Val, first: Loc, second: Loc) -> Option<Guard>
    ensures { result ≡ guard_on condition.now first second }
{
    let Val::Reg(on) = condition else {
        return None;
    };
    if first.0 == second.0 {
        return None;
    }
    Some(Guard {
        on: *on,
        first,
        second,
    })
}

// The branch that an instruction is.
fn guard_in(inst: &HInst) -> Option<Guard>
    ensures { result ≡ guard_in inst.now }
{
    match inst {
        HInst::Do {
            inst: Inst::CondBr { cond, yes, no },
            ..
        } => guard_on(cond, *yes, *no),
        _ => None,
    }
}

/// The branch in which a list ends.
pub(crate) fn guard_of(list: &[HInst]) -> Option<Guard>
    ensures { result ≡ guard_of list.now }
{
    let count = list.len();
    if count == 0 {
        return None;
    }
    guard_in(&list[count - 1])
}

// ---- what a target compares

// Whether a type has one bit.
fn is_one_bit(ty: &Ty) -> bool
    ensures { result ≡ is_one_bit ty.now }
{
    matches!(ty, Ty::Int(Width::W1))
}

// The register whose two sides a list begins by comparing, always and as one bit.
fn first_compared(list: &[HInst]) -> Option<Loc>
    ensures { result ≡ first_compared list.now }
{
    match list.first() {
        Some(
            HInst::Chk {
                when: When::Always,
                ty,
                reg,
            },
        ) => { if is_one_bit(ty) { Some(*reg) } else { None } }
        _ => None,
    }
}

// The value that comes from a label.
fn arm_from(label: Loc, arms: &[(Val, Loc)]) -> Option<&Val>
    ensures { option_copied result ≡ arm_from label arms.now }
{
    for (value, from) in arms {
        if from.0 == label.0 {
            return Some(value);
        }
    }
    None
}

// Whether a phi of a side assigns a register.
fn assigns_on(side: Side, reg: Loc, on: Side, phi: &Inst) -> bool
    ensures { result ≡ assigns_on side reg (on, phi.now) }
{
    match phi {
        Inst::Phi { dst, .. } => same_side(side, on) && reg.0 == dst.0,
        _ => false,
    }
}

// The value that a phi takes from a label.
fn arm_of(on: Side, phi: &Inst, label: Loc) -> Option<&Val>
    ensures { option_copied result ≡ arm_of label (on, phi.now) }
{
    match phi {
        Inst::Phi { arms, .. } => arm_from(label, arms.items()),
        _ => None,
    }
}

// The value that a register of a side takes from a label, if a phi of the block assigns it.
fn phi_value(block: &HBlock, side: Side, reg: Loc, label: Loc) -> Option<&Val>
    ensures { option_copied result ≡ phi_value block.now side reg label }
{
    for (on, phi) in block.phis.items() {
        if assigns_on(side, reg, *on, phi) {
            return arm_of(*on, phi, label);
        }
    }
    None
}

// Whether the master of a register takes a number from a label.
fn takes_number(block: &HBlock, reg: Loc, label: Loc, number: u64) -> bool
    ensures { result ≡ is_number number (phi_value block.now M reg label) }
{
    match phi_value(block, Side::M, reg, label) {
        Some(Val::Int(n)) => number == *n,
        _ => false,
    }
}

// Whether the shadow of a register takes another register from a label.
fn takes_register(block: &HBlock, reg: Loc, label: Loc, from: Loc) -> bool
    ensures { result ≡ is_register from (phi_value block.now S reg label) }
{
    match phi_value(block, Side::S, reg, label) {
        Some(Val::Reg(other)) => from.0 == other.0,
        _ => false,
    }
}

/// Whether a block begins by comparing the number of a direction with the shadow of a condition, as they come from a label.
pub(crate) fn checks_direction(from: Loc, number: u64, condition: Loc, block: &HBlock) -> bool
    ensures { result ≡ checks_direction from number condition block.now }
{
    match first_compared(block.list.items()) {
        Some(d) => takes_number(block, d, from, number)
            && takes_register(block, d, from, condition),
        None => false,
    }
}

// The block with a label.
fn find(blocks: &[HBlock], label: Loc) -> Option<&HBlock>
    ensures { option_copied result ≡ target blocks.now label.0 }
{
    for block in blocks {
        if block.label.0 == label.0 {
            return Some(block);
        }
    }
    None
}

// The blocks of a function, and none where there is no such function.
fn blocks_of(h: &Hardened, func: u32) -> &[HBlock]
    ensures { result.now ≡ blocks_of h.now func }
{
    if (func as usize) < h.module().funcs().len() {
        h.blocks(func)
    } else {
        &[]
    }
}

// Whether the block with a label checks its direction.
fn target_checks(blocks: &[HBlock], from: Loc, number: u64, condition: Loc, label: Loc) -> bool
    ensures { result ≡ target_checks blocks.now from number condition label }
{
    match find(blocks, label) {
        Some(block) => checks_direction(from, number, condition, block),
        None => false,
    }
}

// Whether both targets of a branch check their directions.
fn both_check(blocks: &[HBlock], from: Loc, guard: Guard) -> bool
    ensures { result ≡ both_check blocks.now from guard }
{
    target_checks(blocks, from, 1, guard.on, guard.first)
        && target_checks(blocks, from, 0, guard.on, guard.second)
}

// Whether the branch of a block is checked by its targets.
fn is_edge_checked(blocks: &[HBlock], block: &HBlock) -> bool
    ensures { result ≡ is_edge_checked blocks.now block.now }
{
    match guard_of(block.list.items()) {
        Some(guard) => both_check(blocks, block.label, guard),
        None => false,
    }
}

/// Whether the targets of the conditional branch in which a block ends check the direction that was taken, each by a phi of one bit that
/// it compares first of all. Function and block are given by number. It takes no memory.
pub fn edge_checked(h: &Hardened, func: u32, block: u32) -> bool
    ensures { result ≡ edge_checked_at h.now func block }
{
    let blocks = blocks_of(h, func);
    match blocks.get(block as usize) {
        Some(block) => is_edge_checked(blocks, block),
        None => false,
    }
}
