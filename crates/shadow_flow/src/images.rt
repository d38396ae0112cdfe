//! What stands for one instruction.
ghost use Rattle.std.specs.Prelude.{◌≡◌, true, false, [], ◌∷◌, ◌++◌, Some, IfOk, OnOk};
ghost use Rattle.hard_ir.specs.declared.instruction.HInst.TheVariants.{Do};
ghost use Rattle.hard_ir.specs.Image.{unflagged, is_doubled, pair_of, single_result, copies, done_by, flow, phi_image};
ghost use Rattle.ir_core.specs.declared.values.Side.TheVariants as sides;

use hard_ir::{HInst, HInsts, HPhis};
use ir_core::{Copied, Flags, Inst, Loc, Seq, Side, Ty, Width};
use std::alloc::{AllocError, Global};

const NO_FLAGS: Flags = Flags {
    nuw: false,
    nsw: false,
    exact: false,
};

// The instruction without flags.
fn without_flags(inst: Inst) -> Inst
    ensures { result ≡ unflagged inst }
{
    match inst {
        Inst::Bin {
            dst,
            op,
            w,
            a,
            b,
            ..
        } => Inst::Bin {
            dst,
            op,
            flags: NO_FLAGS,
            w,
            a,
            b,
        },
        other => other,
    }
}

// The copy of an instruction, without flags.
fn unflagged(inst: &Inst, alloc: Global) -> Result<Inst, AllocError>
    ensures { IfOk result (λ copy. copy ≡ unflagged inst.now) }
{
    let copy = inst.copy(alloc)?;
    Ok(without_flags(copy))
}

// Adds an instruction that is done on one side.
fn add_done(
    side: Side,
    inst: &Inst,
    retires: bool,
    list: &mut HInsts,
    alloc: Global,
) -> Result<(), AllocError>
    ensures { OnOk result (list.new ≡ list.old ++ Do side (unflagged inst.now) retires ∷ []) }
{
    let inst = unflagged(inst, alloc)?;
    list.push(HInst::Do {
        side,
        inst,
        retires,
    })?;
    Ok(())
}

// Adds an instruction that is done on both sides. The shadow's retires it.
fn add_doubled(inst: &Inst, list: &mut HInsts, alloc: Global) -> Result<(), AllocError>
    ensures { OnOk result (list.new ≡ list.old ++ done_by true (unflagged inst.now)) }
{
    add_done(Side::M, inst, false, list, alloc)?;
    add_done(Side::S, inst, true, list, alloc)
}

// A register with a copy of its type.
fn typed(ty: &Ty, reg: Loc, alloc: Global) -> Result<Option<(Ty, Loc)>, AllocError>
    ensures { IfOk result (λ r. r ≡ Some (ty.now, reg)) }
{
    let ty = ty.copy(alloc)?;
    Ok(Some((ty, reg)))
}

// A register of what a `cmpxchg` gives.
fn paired(ty: &Ty, reg: Loc, alloc: Global) -> Result<Option<(Ty, Loc)>, AllocError>
    ensures { IfOk result (λ r. r ≡ Some (pair_of ty.now, reg)) }
{
    let mut parts = Seq::new(alloc);
    parts.push(ty.copy(alloc)?)?;
    parts.push(Ty::Int(Width::W1))?;
    Ok(Some((Ty::Struct(parts), reg)))
}

// The result of an instruction that is done once, with its type.
fn single_result(inst: &Inst, alloc: Global) -> Result<Option<(Ty, Loc)>, AllocError>
    ensures { IfOk result (λ r. r ≡ single_result inst.now) }
{
    match inst {
        Inst::Alloca { dst, .. } => Ok(Some((Ty::Ptr, *dst))),
        Inst::Load { dst, ty, .. } | Inst::Rmw { dst, ty, .. } => typed(ty, *dst, alloc),
        Inst::CmpXchg { dst, ty, .. } => paired(ty, *dst, alloc),
        Inst::Call {
            dst: Some(dst),
            ret,
            ..
        } => typed(ret, *dst, alloc),
        Inst::Bin { .. }
        | Inst::Cmp { .. }
        | Inst::Select { .. }
        | Inst::Cast { .. }
        | Inst::Gep { .. }
        | Inst::Store { .. }
        | Inst::Fence
        | Inst::Extract { .. }
        | Inst::Call { dst: None, .. }
        | Inst::Phi { .. }
        | Inst::Br { .. }
        | Inst::CondBr { .. }
        | Inst::Switch { .. }
        | Inst::Ret { .. }
        | Inst::Unreachable => Ok(None),
    }
}

// Adds the copy of a register to its shadow.
fn add_copy(copied: Option<(Ty, Loc)>, list: &mut HInsts) -> Result<(), AllocError>
    ensures { OnOk result (list.new ≡ list.old ++ copies copied) }
{
    if let Some((ty, reg)) = copied {
        list.push(HInst::Mov { ty, reg })?;
    }
    Ok(())
}

// Adds an instruction that is done once, and the copy of its result.
fn add_single(inst: &Inst, list: &mut HInsts, alloc: Global) -> Result<(), AllocError>
    ensures { OnOk result (list.new ≡ list.old ++ Do sides.M (unflagged inst.now) true ∷ copies (single_result inst.now)) }
{
    add_done(Side::M, inst, true, list, alloc)?;
    let copied = single_result(inst, alloc)?;
    add_copy(copied, list)
}

// Whether an instruction is done on both sides.
fn is_doubled(inst: &Inst) -> bool
    ensures { result ≡ is_doubled inst.now }
{
    matches!(
        inst,
        Inst::Bin { .. }
            | Inst::Cmp { .. }
            | Inst::Select { .. }
            | Inst::Cast { .. }
            | Inst::Gep { .. }
            | Inst::Extract { .. }
    )
}

/// Adds what stands for an instruction in the two flows. For want of memory a part of it may have been added.
pub fn add_image(inst: &Inst, list: &mut HInsts, alloc: Global) -> Result<(), AllocError>
    ensures { OnOk result (list.new ≡ list.old ++ flow inst.now) }
{
    if inst.is_phi() {
        return Ok(());
    }
    if is_doubled(inst) {
        add_doubled(inst, list, alloc)
    } else {
        add_single(inst, list, alloc)
    }
}

// Adds a phi of one side.
fn add_phi(side: Side, phi: &Inst, phis: &mut HPhis, alloc: Global) -> Result<(), AllocError>
    ensures { OnOk result (phis.new ≡ phis.old ++ (side, phi.now) ∷ []) }
{
    let phi = phi.copy(alloc)?;
    phis.push((side, phi))?;
    Ok(())
}

// Adds a phi for each side, where the instruction is one.
pub(crate) fn add_phis(inst: &Inst, phis: &mut HPhis, alloc: Global) -> Result<(), AllocError>
    ensures { OnOk result (phis.new ≡ phis.old ++ phi_image inst.now) }
{
    if inst.is_phi() {
        add_phi(Side::M, inst, phis, alloc)?;
        add_phi(Side::S, inst, phis, alloc)?;
    }
    Ok(())
}
