//! One item of a list, and the checks before it.
ghost use Rattle.std.specs.Prelude.{◌≡◌, [], ◌∷◌, ◌++◌, OnOk};
ghost use Rattle.std.specs.List.{flat_map};
ghost use Rattle.hard_ir.specs.Image.{check, checked};
ghost use Rattle.ir_core.specs.declared.types.Ty.TheVariants as types;
ghost use Rattle.ir_core.specs.declared.values.Val.TheVariants as values;
ghost use Rattle.check_insert.specs.Checks.{checks_of, checked_item};

use hard_ir::{HInst, HInsts, When};
use ir_core::{Copied, Inst, Loc, Ty, Val, Width};
use std::alloc::{AllocError, Global};

// Adds the check of a register.
fn add_register(ty: &Ty, reg: Loc, list: &mut HInsts, alloc: Global) -> Result<(), AllocError>
    ensures { OnOk result (list.new ≡ list.old ++ check (ty.now, values.Reg reg)) }
{
    let ty = ty.copy(alloc)?;
    list.push(HInst::Chk {
        when: When::Always,
        ty,
        reg,
    })?;
    Ok(())
}

// Adds the check of an operand, where it is a register.
fn add_check(ty: &Ty, val: &Val, list: &mut HInsts, alloc: Global) -> Result<(), AllocError>
    ensures { OnOk result (list.new ≡ list.old ++ check (ty.now, val.now)) }
{
    match val {
        Val::Reg(reg) => add_register(ty, *reg, list, alloc),
        Val::Int(_) | Val::Null | Val::Global(_) | Val::Gep(_) => Ok(()),
    }
}

// Adds the checks of a pointer and of a word.
fn add_two(
    ptr: &Val,
    ty: &Ty,
    word: &Val,
    list: &mut HInsts,
    alloc: Global,
) -> Result<(), AllocError>
    ensures { OnOk result
        (list.new ≡ list.old ++ flat_map check ((types.Ptr, ptr.now) ∷ (ty.now, word.now) ∷ [])) }
{
    add_check(&Ty::Ptr, ptr, list, alloc)?;
    add_check(ty, word, list, alloc)
}

// Adds the checks of a pointer and of two words.
fn add_three(
    ptr: &Val,
    ty: &Ty,
    first: &Val,
    second: &Val,
    list: &mut HInsts,
    alloc: Global,
) -> Result<(), AllocError>
    ensures { OnOk result
        (list.new ≡ list.old ++ flat_map check ((types.Ptr, ptr.now) ∷ (ty.now, first.now) ∷ (ty.now, second.now) ∷ [])) }
{
    add_two(ptr, ty, first, list, alloc)?;
    add_check(ty, second, list, alloc)
}

// Adds the checks of arguments.
fn add_all(args: &[(Ty, Val)], list: &mut HInsts, alloc: Global) -> Result<(), AllocError>
    ensures { OnOk result (list.new ≡ list.old ++ flat_map check args.now) }
{
    for (ty, val) in args {
        add_check(ty, val, list, alloc)?;
    }
    Ok(())
}

/// Adds the checks of an instruction's operands. For want of memory a part of them may have been added.
pub fn add_operands(inst: &Inst, list: &mut HInsts, alloc: Global) -> Result<(), AllocError>
    ensures { OnOk result (list.new ≡ list.old ++ flat_map check (checked inst.now)) }
{
    match inst {
        Inst::Load { ptr, .. } => add_check(&Ty::Ptr, ptr, list, alloc),
        Inst::Store { ty, val, ptr, .. } | Inst::Rmw { ty, val, ptr, .. } => {
            add_two(ptr, ty, val, list, alloc)
        }
        Inst::CmpXchg {
            ptr,
            ty,
            old,
            new,
            ..
        } => add_three(ptr, ty, old, new, list, alloc),
        Inst::Call { args, .. } => add_all(args.items(), list, alloc),
        Inst::CondBr { cond, .. } => add_check(&Ty::Int(Width::W1), cond, list, alloc),
        Inst::Switch { ty, on, .. } => add_check(ty, on, list, alloc),
        Inst::Ret { ty, val: Some(val) } => add_check(ty, val, list, alloc),
        Inst::Bin { .. }
        | Inst::Cmp { .. }
        | Inst::Select { .. }
        | Inst::Cast { .. }
        | Inst::Gep { .. }
        | Inst::Alloca { .. }
        | Inst::Fence
        | Inst::Extract { .. }
        | Inst::Phi { .. }
        | Inst::Br { .. }
        | Inst::Ret { val: None, .. }
        | Inst::Unreachable => Ok(()),
    }
}

// Adds the checks of an item's operands.
fn add_checks(item: &HInst, list: &mut HInsts, alloc: Global) -> Result<(), AllocError>
    ensures { OnOk result (list.new ≡ list.old ++ checks_of item.now) }
{
    match item {
        HInst::Do { inst, .. } => add_operands(inst, list, alloc),
        HInst::Cut
        | HInst::Begin
        | HInst::End
        | HInst::Tick(_)
        | HInst::Chk { .. }
        | HInst::ChkMem { .. }
        | HInst::Mov { .. } => Ok(()),
    }
}

// Adds an item behind its checks.
pub(crate) fn add_item(item: &HInst, list: &mut HInsts, alloc: Global) -> Result<(), AllocError>
    ensures { OnOk result (list.new ≡ list.old ++ checked_item item.now) }
{
    add_checks(item, list, alloc)?;
    let copy = item.copy(alloc)?;
    list.push(copy)?;
    Ok(())
}
