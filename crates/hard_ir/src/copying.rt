//! Copies of hardened instructions. A copy equals its source, as contracts see both.
ghost use Rattle.std.specs.Prelude.{◌≡◌, IfOk};

use crate::{HInst, HVal};
use ir_core::Copied;
use std::alloc::{AllocError, Global};

// The copies of three values.
fn copy_three<A: Copied + Drop, B: Copied + Drop, C: Copied>(
    a: &A,
    b: &B,
    c: &C,
    alloc: Global,
) -> Result<(A, B, C), AllocError>
    ensures { IfOk result
        (λ copies. (copies.0 ≡ a.now) × (copies.1 ≡ b.now) × (copies.2 ≡ c.now)) }
{
    let first = a.copy(alloc)?;
    let second = b.copy(alloc)?;
    let third = c.copy(alloc)?;
    Ok((first, second, third))
}

impl Copied for HVal {
    fn copy(&self, alloc: Global) -> Result<HVal, AllocError> {
        match self {
            HVal::Reg(reg) => Ok(HVal::Reg(*reg)),
            HVal::Const(val) => Ok(HVal::Const(val.copy(alloc)?)),
        }
    }
}

impl Copied for HInst {
    /// The copy. For want of memory there is none.
    fn copy(&self, alloc: Global) -> Result<HInst, AllocError> {
        match self {
            HInst::Cut => Ok(HInst::Cut),
            HInst::Begin => Ok(HInst::Begin),
            HInst::End => Ok(HInst::End),
            HInst::Tick(work) => Ok(HInst::Tick(*work)),
            HInst::Chk { when, ty, reg } => {
                let ty = ty.copy(alloc)?;
                Ok(HInst::Chk {
                    when: *when,
                    ty,
                    reg: *reg,
                })
            }
            HInst::ChkMem { ty, ptr, val } => {
                let (ty, ptr, val) = copy_three(ty, ptr, val, alloc)?;
                Ok(HInst::ChkMem { ty, ptr, val })
            }
            HInst::Mov { ty, reg } => {
                let ty = ty.copy(alloc)?;
                Ok(HInst::Mov { ty, reg: *reg })
            }
            HInst::Do {
                side,
                inst,
                retires,
            } => {
                let inst = inst.copy(alloc)?;
                Ok(HInst::Do {
                    side: *side,
                    inst,
                    retires: *retires,
                })
            }
        }
    }
}
