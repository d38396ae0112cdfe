//! Instructions and blocks.
ghost use Rattle.ir_numbering.specs.Places.{places_of_inst, places_of_block};
ghost use Rattle.ir_numbering.specs.Renaming.{renamed_inst, renamed_block};

use crate::trees::{
    add_five, add_four, add_three, add_two, renamed_both, renamed_four, renamed_three,
};
use crate::{Numbered, Numbers, Places};
use ir_core::{Block, Inst};
use std::alloc::{AllocError, Global};

impl Numbered for Inst {
    ghost places = { places_of_inst };

    ghost renamed_by = { renamed_inst };

    fn add_places(&self, list: &mut Places) -> Result<(), AllocError> {
        match self {
            Inst::Bin { dst, a, b, .. } => add_three(dst, a, b, list),
            Inst::Cmp { dst, ty, a, b, .. } => add_four(dst, ty, a, b, list),
            Inst::Select {
                dst,
                cond,
                ty,
                a,
                b,
            } => add_five(dst, cond, ty, a, b, list),
            Inst::Cast {
                dst,
                from,
                a,
                to,
                ..
            } => add_four(dst, from, a, to, list),
            Inst::Gep {
                dst,
                base,
                ptr,
                index,
            } => add_four(dst, base, ptr, index, list),
            Inst::Alloca { dst, ty } => add_two(dst, ty, list),
            Inst::Load { dst, ty, ptr, .. } => add_three(dst, ty, ptr, list),
            Inst::Store { ty, val, ptr, .. } => add_three(ty, val, ptr, list),
            Inst::Rmw {
                dst,
                ptr,
                ty,
                val,
                ..
            } => add_four(dst, ptr, ty, val, list),
            Inst::CmpXchg {
                dst,
                ptr,
                ty,
                old,
                new,
            } => add_five(dst, ptr, ty, old, new, list),
            Inst::Fence | Inst::Unreachable => Ok(()),
            Inst::Extract {
                dst,
                elem,
                pair,
                ..
            } => add_three(dst, elem, pair, list),
            Inst::Call {
                dst,
                ret,
                callee,
                args,
            } => add_four(dst, ret, callee, args, list),
            Inst::Phi { dst, ty, arms } => add_three(dst, ty, arms, list),
            Inst::Br { to } => to.add_places(list),
            Inst::CondBr { cond, yes, no } => add_three(cond, yes, no, list),
            Inst::Switch {
                ty,
                on,
                default,
                cases,
            } => add_four(ty, on, default, cases, list),
            Inst::Ret { ty, val } => add_two(ty, val, list),
        }
    }

    fn renamed(&self, numbers: &Numbers<'_>, alloc: Global) -> Result<Inst, AllocError> {
        match self {
            Inst::Bin {
                dst,
                op,
                flags,
                w,
                a,
                b,
            } => {
                let (a, b) = renamed_both(a, b, numbers, alloc)?;
                Ok(Inst::Bin {
                    dst: numbers.loc(*dst),
                    op: *op,
                    flags: *flags,
                    w: *w,
                    a,
                    b,
                })
            }
            Inst::Cmp {
                dst,
                pred,
                ty,
                a,
                b,
            } => {
                let (ty, a, b) = renamed_three(ty, a, b, numbers, alloc)?;
                Ok(Inst::Cmp {
                    dst: numbers.loc(*dst),
                    pred: *pred,
                    ty,
                    a,
                    b,
                })
            }
            Inst::Select {
                dst,
                cond,
                ty,
                a,
                b,
            } => {
                let (cond, ty, a, b) = renamed_four(cond, ty, a, b, numbers, alloc)?;
                Ok(Inst::Select {
                    dst: numbers.loc(*dst),
                    cond,
                    ty,
                    a,
                    b,
                })
            }
            Inst::Cast {
                dst,
                op,
                from,
                a,
                to,
            } => {
                let (from, a, to) = renamed_three(from, a, to, numbers, alloc)?;
                Ok(Inst::Cast {
                    dst: numbers.loc(*dst),
                    op: *op,
                    from,
                    a,
                    to,
                })
            }
            Inst::Gep {
                dst,
                base,
                ptr,
                index,
            } => {
                let (base, ptr, index) = renamed_three(base, ptr, index, numbers, alloc)?;
                Ok(Inst::Gep {
                    dst: numbers.loc(*dst),
                    base,
                    ptr,
                    index,
                })
            }
            Inst::Alloca { dst, ty } => {
                let ty = ty.renamed(numbers, alloc)?;
                Ok(Inst::Alloca {
                    dst: numbers.loc(*dst),
                    ty,
                })
            }
            Inst::Load {
                dst,
                ty,
                ptr,
                atomic,
            } => {
                let (ty, ptr) = renamed_both(ty, ptr, numbers, alloc)?;
                Ok(Inst::Load {
                    dst: numbers.loc(*dst),
                    ty,
                    ptr,
                    atomic: *atomic,
                })
            }
            Inst::Store {
                ty,
                val,
                ptr,
                atomic,
            } => {
                let (ty, val, ptr) = renamed_three(ty, val, ptr, numbers, alloc)?;
                Ok(Inst::Store {
                    ty,
                    val,
                    ptr,
                    atomic: *atomic,
                })
            }
            Inst::Rmw {
                dst,
                op,
                ptr,
                ty,
                val,
            } => {
                let (ptr, ty, val) = renamed_three(ptr, ty, val, numbers, alloc)?;
                Ok(Inst::Rmw {
                    dst: numbers.loc(*dst),
                    op: *op,
                    ptr,
                    ty,
                    val,
                })
            }
            Inst::CmpXchg {
                dst,
                ptr,
                ty,
                old,
                new,
            } => {
                let (ptr, ty, old, new) = renamed_four(ptr, ty, old, new, numbers, alloc)?;
                Ok(Inst::CmpXchg {
                    dst: numbers.loc(*dst),
                    ptr,
                    ty,
                    old,
                    new,
                })
            }
            Inst::Fence => Ok(Inst::Fence),
            Inst::Extract {
                dst,
                elem,
                pair,
                index,
            } => {
                let elem = elem.renamed(numbers, alloc)?;
                Ok(Inst::Extract {
                    dst: numbers.loc(*dst),
                    elem,
                    pair: numbers.loc(*pair),
                    index: *index,
                })
            }
            Inst::Call {
                dst,
                ret,
                callee,
                args,
            } => {
                let (dst, ret, args) = renamed_three(dst, ret, args, numbers, alloc)?;
                Ok(Inst::Call {
                    dst,
                    ret,
                    callee: numbers.sym(*callee),
                    args,
                })
            }
            Inst::Phi { dst, ty, arms } => {
                let (ty, arms) = renamed_both(ty, arms, numbers, alloc)?;
                Ok(Inst::Phi {
                    dst: numbers.loc(*dst),
                    ty,
                    arms,
                })
            }
            Inst::Br { to } => Ok(Inst::Br {
                to: numbers.loc(*to),
            }),
            Inst::CondBr { cond, yes, no } => {
                let cond = cond.renamed(numbers, alloc)?;
                Ok(Inst::CondBr {
                    cond,
                    yes: numbers.loc(*yes),
                    no: numbers.loc(*no),
                })
            }
            Inst::Switch {
                ty,
                on,
                default,
                cases,
            } => {
                let (ty, on, cases) = renamed_three(ty, on, cases, numbers, alloc)?;
                Ok(Inst::Switch {
                    ty,
                    on,
                    default: numbers.loc(*default),
                    cases,
                })
            }
            Inst::Ret { ty, val } => {
                let (ty, val) = renamed_both(ty, val, numbers, alloc)?;
                Ok(Inst::Ret { ty, val })
            }
            Inst::Unreachable => Ok(Inst::Unreachable),
        }
    }
}

impl Numbered for Block {
    ghost places = { places_of_block };

    ghost renamed_by = { renamed_block };

    fn add_places(&self, list: &mut Places) -> Result<(), AllocError> {
        add_two(&self.label, &self.insts, list)
    }

    fn renamed(&self, numbers: &Numbers<'_>, alloc: Global) -> Result<Block, AllocError> {
        let insts = self.insts.renamed(numbers, alloc)?;
        Ok(Block {
            label: numbers.loc(self.label),
            insts,
        })
    }
}
