//! What hardened instructions do with a register.
ghost use Rattle.std.specs.Prelude.{◌≡◌, ◌++◌, OnOk, IfOk};
ghost use Rattle.std.specs.List.{flat_map};
ghost use Rattle.ir_flow.specs.Uses.{reg_in, reg_in_arg, reg_in_index, regs_in};
ghost use Rattle.upset_model.specs.Windows.{is_active, same_side, same_reg, is_reg, checks, is_between, is_effect, uses, is_copy, copies};
ghost use Rattle.upset_model.specs.Intervals.{is_in, used_by};

use hard_ir::{HInst, HReg, HVal, When};
use ir_core::{Inst, Loc, Side, Ty, Val, Width};
use std::alloc::{AllocError, Global};

/// Whether two sides are the same.
pub(crate) fn same_side(a: Side, b: Side) -> bool
    ensures { result ≡ same_side a b }
{
    match a {
        Side::M => matches!(b, Side::M),
        Side::S => matches!(b, Side::S),
    }
}

/// Whether two registers are the same.
pub(crate) fn same_reg(a: HReg, b: HReg) -> bool
    ensures { result ≡ same_reg a b }
{
    same_side(a.side, b.side) && a.loc.0 == b.loc.0
}

// Whether a check compares, inside a transaction or outside.
fn is_active(when: When, inside: bool) -> bool
    ensures { result ≡ is_active when inside }
{
    match when {
        When::Always => true,
        When::Plain => !inside,
        When::Tx => inside,
    }
}

// Whether an operand of a check of memory is a register.
fn is_reg(r: HReg, val: &HVal) -> bool
    ensures { result ≡ is_reg r val.now }
{
    match val {
        HVal::Reg(reg) => same_reg(r, *reg),
        HVal::Const(_) => false,
    }
}

/// Whether an instruction is a check that is active, inside a transaction or outside, with a register among its operands.
pub(crate) fn checks(inst: &HInst, r: HReg, inside: bool) -> bool
    ensures { result ≡ checks inside r inst.now }
{
    match inst {
        HInst::Chk { when, reg, .. } => is_active(*when, inside) && r.loc.0 == reg.0,
        HInst::ChkMem { ptr, val, .. } => inside && (is_reg(r, ptr) || is_reg(r, val)),
        HInst::Cut
        | HInst::Begin
        | HInst::End
        | HInst::Tick(_)
        | HInst::Mov { .. }
        | HInst::Do { .. } => false,
    }
}

/// Whether an instruction is a check of any kind or `end`.
pub(crate) fn is_between(inst: &HInst) -> bool
    ensures { result ≡ is_between inst.now }
{
    match inst {
        HInst::End | HInst::Chk { .. } | HInst::ChkMem { .. } => true,
        HInst::Cut | HInst::Begin | HInst::Tick(_) | HInst::Mov { .. } | HInst::Do { .. } => false,
    }
}

/// Whether an instruction is a copy.
pub(crate) fn is_copy(inst: &HInst) -> bool
    ensures { result ≡ is_copy inst.now }
{
    match inst {
        HInst::Mov { .. } => true,
        HInst::Cut
        | HInst::Begin
        | HInst::End
        | HInst::Tick(_)
        | HInst::Chk { .. }
        | HInst::ChkMem { .. }
        | HInst::Do { .. } => false,
    }
}

/// Whether an instruction copies a register.
pub(crate) fn copies(inst: &HInst, r: HReg) -> bool
    ensures { result ≡ copies r inst.now }
{
    match inst {
        HInst::Mov { reg, .. } => same_reg(
            r,
            HReg {
                side: Side::M,
                loc: *reg,
            },
        ),
        HInst::Cut
        | HInst::Begin
        | HInst::End
        | HInst::Tick(_)
        | HInst::Chk { .. }
        | HInst::ChkMem { .. }
        | HInst::Do { .. } => false,
    }
}

/// Whether an instruction is an effect, inside a transaction or outside, in a block whose branch is checked by its targets or not.
pub(crate) fn is_effect(inst: &Inst, inside: bool, checked: bool) -> bool
    ensures { result ≡ is_effect inside checked inst.now }
{
    match inst {
        Inst::Load { atomic, .. } => *atomic,
        Inst::Store { atomic, .. } => *atomic || !inside,
        Inst::Rmw { .. }
        | Inst::CmpXchg { .. }
        | Inst::Call { .. }
        | Inst::Switch { .. }
        | Inst::Ret { .. } => true,
        Inst::CondBr { .. } => !checked,
        Inst::Bin { .. }
        | Inst::Cmp { .. }
        | Inst::Select { .. }
        | Inst::Cast { .. }
        | Inst::Gep { .. }
        | Inst::Alloca { .. }
        | Inst::Fence
        | Inst::Extract { .. }
        | Inst::Phi { .. }
        | Inst::Br { .. }
        | Inst::Unreachable => false,
    }
}

// ---- the registers that an instruction reads

// Whether a value is a register.
fn is_value(reg: Loc, val: &Val) -> bool
    ensures { result ≡ is_in reg (reg_in val.now) }
{
    match val {
        Val::Reg(at) => reg.0 == at.0,
        Val::Int(_) | Val::Null | Val::Global(_) | Val::Gep(_) => false,
    }
}

// Whether a register is one of two values.
fn is_of_two(reg: Loc, a: &Val, b: &Val) -> bool
    ensures { result ≡ is_in reg (reg_in a.now ++ reg_in b.now) }
{
    is_value(reg, a) || is_value(reg, b)
}

// Whether a register is one of three values.
fn is_of_three(reg: Loc, a: &Val, b: &Val, c: &Val) -> bool
    ensures { result ≡ is_in reg (reg_in a.now ++ reg_in b.now ++ reg_in c.now) }
{
    is_value(reg, a) || is_of_two(reg, b, c)
}

// Whether a register is among arguments.
fn is_argument(reg: Loc, args: &[(Ty, Val)]) -> bool
    ensures { result ≡ is_in reg (flat_map reg_in_arg args.now) }
{
    for (_, val) in args {
        if is_value(reg, val) {
            return true;
        }
    }
    false
}

// Whether a register is among indices.
fn is_index(reg: Loc, index: &[(Width, Val)]) -> bool
    ensures { result ≡ is_in reg (flat_map reg_in_index index.now) }
{
    for (_, val) in index {
        if is_value(reg, val) {
            return true;
        }
    }
    false
}

// Whether a register is a pointer or among its indices.
fn is_of_address(reg: Loc, ptr: &Val, index: &[(Width, Val)]) -> bool
    ensures { result ≡ is_in reg (reg_in ptr.now ++ flat_map reg_in_index index.now) }
{
    is_value(reg, ptr) || is_index(reg, index)
}

// Whether an instruction reads a register where it stands.
fn reads(inst: &Inst, reg: Loc) -> bool
    ensures { result ≡ is_in reg (regs_in inst.now) }
{
    match inst {
        Inst::Bin { a, b, .. } | Inst::Cmp { a, b, .. } => is_of_two(reg, a, b),
        Inst::Select { cond, a, b, .. } => is_of_three(reg, cond, a, b),
        Inst::Cast { a, .. } => is_value(reg, a),
        Inst::Gep { ptr, index, .. } => is_of_address(reg, ptr, index.items()),
        Inst::Load { ptr, .. } => is_value(reg, ptr),
        Inst::Store { val, ptr, .. } => is_of_two(reg, val, ptr),
        Inst::Rmw { ptr, val, .. } => is_of_two(reg, ptr, val),
        Inst::CmpXchg { ptr, old, new, .. } => is_of_three(reg, ptr, old, new),
        Inst::Extract { pair, .. } => reg.0 == pair.0,
        Inst::Call { args, .. } => is_argument(reg, args.items()),
        Inst::CondBr { cond, .. } => is_value(reg, cond),
        Inst::Switch { on, .. } => is_value(reg, on),
        Inst::Ret { val: Some(val), .. } => is_value(reg, val),
        Inst::Alloca { .. }
        | Inst::Fence
        | Inst::Phi { .. }
        | Inst::Br { .. }
        | Inst::Ret { val: None, .. }
        | Inst::Unreachable => false,
    }
}

/// Whether an instruction is an effect that uses a register, inside a transaction or outside, in a block whose branch is checked by its
/// targets or not.
pub(crate) fn uses(inst: &HInst, r: HReg, inside: bool, checked: bool) -> bool
    ensures { result ≡ uses inside checked r inst.now }
{
    match inst {
        HInst::Do { side, inst, .. } => {
            is_effect(inst, inside, checked) && same_side(r.side, *side) && reads(inst, r.loc)
        }
        HInst::Cut
        | HInst::Begin
        | HInst::End
        | HInst::Tick(_)
        | HInst::Chk { .. }
        | HInst::ChkMem { .. }
        | HInst::Mov { .. } => false,
    }
}

// Adds the register of a value.
fn add_value(val: &Val, regs: &mut Vec<Loc>) -> Result<(), AllocError>
    ensures { OnOk result (regs.new.items ≡ regs.old.items ++ reg_in val.now) }
{
    if let Val::Reg(at) = val {
        regs.push(*at)?;
    }
    Ok(())
}

// Adds the registers of two values.
fn add_two(a: &Val, b: &Val, regs: &mut Vec<Loc>) -> Result<(), AllocError>
    ensures { OnOk result (regs.new.items ≡ regs.old.items ++ (reg_in a.now ++ reg_in b.now)) }
{
    add_value(a, regs)?;
    add_value(b, regs)
}

// Adds the registers of three values.
fn add_three(a: &Val, b: &Val, c: &Val, regs: &mut Vec<Loc>) -> Result<(), AllocError>
    ensures { OnOk result (regs.new.items ≡ regs.old.items ++ (reg_in a.now ++ reg_in b.now ++ reg_in c.now)) }
{
    add_two(a, b, regs)?;
    add_value(c, regs)
}

// Adds the registers of arguments.
fn add_arguments(args: &[(Ty, Val)], regs: &mut Vec<Loc>) -> Result<(), AllocError>
    ensures { OnOk result (regs.new.items ≡ regs.old.items ++ flat_map reg_in_arg args.now) }
{
    for (_, val) in args {
        add_value(val, regs)?;
    }
    Ok(())
}

// Adds the registers that an instruction reads where it stands, if it is one that can be an effect.
fn add_used(inst: &Inst, regs: &mut Vec<Loc>) -> Result<(), AllocError>
    ensures { OnOk result (regs.new.items ≡ regs.old.items ++ used_by inst.now) }
{
    match inst {
        Inst::Load { ptr, .. } => add_value(ptr, regs),
        Inst::Store { val, ptr, .. } => add_two(val, ptr, regs),
        Inst::Rmw { ptr, val, .. } => add_two(ptr, val, regs),
        Inst::CmpXchg { ptr, old, new, .. } => add_three(ptr, old, new, regs),
        Inst::Call { args, .. } => add_arguments(args.items(), regs),
        Inst::CondBr { cond, .. } => add_value(cond, regs),
        Inst::Switch { on, .. } => add_value(on, regs),
        Inst::Ret { val: Some(val), .. } => add_value(val, regs),
        Inst::Bin { .. }
        | Inst::Cmp { .. }
        | Inst::Select { .. }
        | Inst::Cast { .. }
        | Inst::Gep { .. }
        | Inst::Alloca { .. }
        | Inst::Fence
        | Inst::Extract { .. }
        | Inst::Phi { .. }
        | Inst::Br { .. }
        | Inst::Ret { val: None, .. }
        | Inst::Unreachable => Ok(()),
    }
}

/// The registers that an instruction reads where it stands, if it is one that can be an effect, and else none.
pub(crate) fn used_by(alloc: Global, inst: &Inst) -> Result<Vec<Loc>, AllocError>
    ensures { IfOk result (λ regs. regs.items ≡ used_by inst.now) }
{
    let mut regs = Vec::new(alloc);
    add_used(inst, &mut regs)?;
    Ok(regs)
}
