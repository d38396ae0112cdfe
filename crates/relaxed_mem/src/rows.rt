//! What stands for one instruction, part by part.
ghost use Rattle.std.specs.Prelude.{◌≡◌, [], ◌∷◌, ◌++◌, true, false, OnOk, IfOk};
ghost use Rattle.hard_ir.specs.declared.instruction.HInst.TheVariants.{ChkMem, Do};
ghost use Rattle.hard_ir.specs.Image.{check_when, checks_before, core, checks_after, on_shadow};
ghost use Rattle.hard_ir.specs.declared.instruction.When.TheVariants as whens;
ghost use Rattle.ir_core.specs.declared.types.Ty.TheVariants as types;
ghost use Rattle.ir_core.specs.declared.values.Val.TheVariants as values;
ghost use Rattle.ir_core.specs.declared.values.Side.TheVariants as sides;

use check_insert::add_operands;
use hard_ir::{HInst, HInsts, HReg, HVal, When};
use ir_core::{Copied, Inst, Loc, Side, Ty, Val};
use shadow_flow::add_image;
use std::alloc::{AllocError, Global};

// Adds the check of a register.
fn add_register(
    when: When,
    ty: &Ty,
    reg: Loc,
    list: &mut HInsts,
    alloc: Global,
) -> Result<(), AllocError>
    ensures { OnOk result (list.new ≡ list.old ++ check_when when (ty.now, values.Reg reg)) }
{
    let ty = ty.copy(alloc)?;
    list.push(HInst::Chk { when, ty, reg })?;
    Ok(())
}

// Adds the check of an operand, where it is a register.
fn add_check(
    when: When,
    ty: &Ty,
    val: &Val,
    list: &mut HInsts,
    alloc: Global,
) -> Result<(), AllocError>
    ensures { OnOk result (list.new ≡ list.old ++ check_when when (ty.now, val.now)) }
{
    match val {
        Val::Reg(reg) => add_register(when, ty, *reg, list, alloc),
        Val::Int(_) | Val::Null | Val::Global(_) | Val::Gep(_) => Ok(()),
    }
}

// Adds the checks before a plain store.
fn add_two(
    ptr: &Val,
    ty: &Ty,
    word: &Val,
    list: &mut HInsts,
    alloc: Global,
) -> Result<(), AllocError>
    ensures { OnOk result
        (list.new ≡ list.old ++ (check_when whens.Plain (types.Ptr, ptr.now) ++ check_when whens.Plain (ty.now, word.now))) }
{
    add_check(When::Plain, &Ty::Ptr, ptr, list, alloc)?;
    add_check(When::Plain, ty, word, list, alloc)
}

/// Adds the checks that stand before an instruction. For want of memory a part of them may have been added.
#[tactic(auto, using(crate::proofs::Parts::always))]
pub fn add_checks_before(inst: &Inst, list: &mut HInsts, alloc: Global) -> Result<(), AllocError>
    ensures { OnOk result (list.new ≡ list.old ++ checks_before inst.now) }
{
    match inst {
        Inst::Load { atomic: false, .. } => Ok(()),
        Inst::Store {
            ty,
            val,
            ptr,
            atomic: false,
        } => add_two(ptr, ty, val, list, alloc),
        Inst::Load { atomic: true, .. }
        | Inst::Store { atomic: true, .. }
        | Inst::Bin { .. }
        | Inst::Cmp { .. }
        | Inst::Select { .. }
        | Inst::Cast { .. }
        | Inst::Gep { .. }
        | Inst::Alloca { .. }
        | Inst::Rmw { .. }
        | Inst::CmpXchg { .. }
        | Inst::Fence
        | Inst::Extract { .. }
        | Inst::Call { .. }
        | Inst::Phi { .. }
        | Inst::Br { .. }
        | Inst::CondBr { .. }
        | Inst::Switch { .. }
        | Inst::Ret { .. }
        | Inst::Unreachable => add_operands(inst, list, alloc),
    }
}

// Adds an instruction that is done on one side.
fn add_done(
    side: Side,
    inst: &Inst,
    retires: bool,
    list: &mut HInsts,
    alloc: Global,
) -> Result<(), AllocError>
    ensures { OnOk result (list.new ≡ list.old ++ Do side inst.now retires ∷ []) }
{
    let inst = inst.copy(alloc)?;
    list.push(HInst::Do {
        side,
        inst,
        retires,
    })?;
    Ok(())
}

// Adds an instruction that is done on both sides. The shadow's retires it.
fn add_twice(inst: &Inst, list: &mut HInsts, alloc: Global) -> Result<(), AllocError>
    ensures { OnOk result (list.new ≡ list.old ++ Do sides.M inst.now false ∷ Do sides.S inst.now true ∷ []) }
{
    add_done(Side::M, inst, false, list, alloc)?;
    add_done(Side::S, inst, true, list, alloc)
}

/// Adds the instruction by itself, on each side or once. For want of memory a part of it may have been added.
pub fn add_core(inst: &Inst, list: &mut HInsts, alloc: Global) -> Result<(), AllocError>
    ensures { OnOk result (list.new ≡ list.old ++ core inst.now) }
{
    match inst {
        Inst::Load { atomic: false, .. } => add_twice(inst, list, alloc),
        Inst::Load { atomic: true, .. }
        | Inst::Store { .. }
        | Inst::Bin { .. }
        | Inst::Cmp { .. }
        | Inst::Select { .. }
        | Inst::Cast { .. }
        | Inst::Gep { .. }
        | Inst::Alloca { .. }
        | Inst::Rmw { .. }
        | Inst::CmpXchg { .. }
        | Inst::Fence
        | Inst::Extract { .. }
        | Inst::Call { .. }
        | Inst::Phi { .. }
        | Inst::Br { .. }
        | Inst::CondBr { .. }
        | Inst::Switch { .. }
        | Inst::Ret { .. }
        | Inst::Unreachable => add_image(inst, list, alloc),
    }
}

// An operand on the shadow's side.
fn on_shadow(val: &Val, alloc: Global) -> Result<HVal, AllocError>
    ensures { IfOk result (λ r. r ≡ on_shadow val.now) }
{
    match val {
        Val::Reg(reg) => Ok(HVal::Reg(HReg {
            side: Side::S,
            loc: *reg,
        })),
        Val::Int(_) | Val::Null | Val::Global(_) | Val::Gep(_) => {
            let val = val.copy(alloc)?;
            Ok(HVal::Const(val))
        }
    }
}

// Adds the check of what a store has left in memory.
fn add_memory_check(
    ty: &Ty,
    ptr: &Val,
    val: &Val,
    list: &mut HInsts,
    alloc: Global,
) -> Result<(), AllocError>
    ensures { OnOk result (list.new ≡ list.old ++ ChkMem ty.now (on_shadow ptr.now) (on_shadow val.now) ∷ []) }
{
    let ty = ty.copy(alloc)?;
    let ptr = on_shadow(ptr, alloc)?;
    let val = on_shadow(val, alloc)?;
    list.push(HInst::ChkMem { ty, ptr, val })?;
    Ok(())
}

/// Adds the checks that stand after an instruction. For want of memory a part of them may have been added.
pub fn add_checks_after(inst: &Inst, list: &mut HInsts, alloc: Global) -> Result<(), AllocError>
    ensures { OnOk result (list.new ≡ list.old ++ checks_after inst.now) }
{
    match inst {
        Inst::Store {
            ty,
            val,
            ptr,
            atomic: false,
        } => {
            add_check(When::Tx, &Ty::Ptr, ptr, list, alloc)?;
            add_memory_check(ty, ptr, val, list, alloc)
        }
        Inst::Store { atomic: true, .. }
        | Inst::Load { .. }
        | Inst::Bin { .. }
        | Inst::Cmp { .. }
        | Inst::Select { .. }
        | Inst::Cast { .. }
        | Inst::Gep { .. }
        | Inst::Alloca { .. }
        | Inst::Rmw { .. }
        | Inst::CmpXchg { .. }
        | Inst::Fence
        | Inst::Extract { .. }
        | Inst::Call { .. }
        | Inst::Phi { .. }
        | Inst::Br { .. }
        | Inst::CondBr { .. }
        | Inst::Switch { .. }
        | Inst::Ret { .. }
        | Inst::Unreachable => Ok(()),
    }
}
