//! Copies. A copy equals its source, as contracts see both.
ghost use Rattle.std.specs.Prelude.{◌≡◌, IfOk};

use crate::{
    Block, Boxed, ConstGep, Declare, GlobalVar, Init, Inst, Loc, Name, Out, Seq, Tid, Ty, TypeId,
    Val, Width,
};
use std::alloc::{AllocError, Global};

/// A type whose values can be copied into new memory.
pub trait Copied: Sized {
    /// The copy. For want of memory there is none.
    fn copy(&self, alloc: Global) -> Result<Self, AllocError>
        ensures { IfOk result (λ copy. copy ≡ self.now) };
}

// The copies of the items, in order.
pub(crate) fn copy_items<T: Copied + Drop>(items: &[T], alloc: Global) -> Result<Vec<T>, AllocError>
    ensures { IfOk result (λ copies. copies.items ≡ items.now) }
{
    let mut copies = Vec::with_capacity(alloc, items.len())?;
    for item in items {
        copies.push(item.copy(alloc)?)?;
    }
    Ok(copies)
}

// The copies of two values.
pub(crate) fn copy_both<A: Copied + Drop, B: Copied>(
    a: &A,
    b: &B,
    alloc: Global,
) -> Result<(A, B), AllocError>
    ensures { IfOk result (λ copies. (copies.0 ≡ a.now) × (copies.1 ≡ b.now)) }
{
    let first = a.copy(alloc)?;
    paired(first, b.copy(alloc))
}

// The copies of three values.
pub(crate) fn copy_three<A: Copied + Drop, B: Copied + Drop, C: Copied>(
    a: &A,
    b: &B,
    c: &C,
    alloc: Global,
) -> Result<(A, B, C), AllocError>
    ensures { IfOk result
        (λ copies. (copies.0 ≡ a.now) × (copies.1 ≡ b.now) × (copies.2 ≡ c.now)) }
{
    let (first, second) = copy_both(a, b, alloc)?;
    let third = c.copy(alloc)?;
    Ok((first, second, third))
}

// The copies of four values.
pub(crate) fn copy_four<A: Copied + Drop, B: Copied + Drop, C: Copied + Drop, D: Copied>(
    a: &A,
    b: &B,
    c: &C,
    d: &D,
    alloc: Global,
) -> Result<(A, B, C, D), AllocError>
    ensures { IfOk result
        (λ copies. (copies.0 ≡ a.now)
        × (copies.1 ≡ b.now)
        × (copies.2 ≡ c.now)
        × (copies.3 ≡ d.now)) }
{
    let (first, second, third) = copy_three(a, b, c, alloc)?;
    let fourth = d.copy(alloc)?;
    Ok((first, second, third, fourth))
}

// The pair of a value and of one that may have found no memory. The first is then dropped.
fn paired<A: Drop, B>(first: A, second: Result<B, AllocError>) -> Result<(A, B), AllocError>
    ensures { IfOk result (λ pair. (pair.0 ≡ first) × (second ≡ Ok pair.1)) }
{
    let second = second?;
    Ok((first, second))
}

impl Copied for u64 {
    fn copy(&self, _alloc: Global) -> Result<u64, AllocError> {
        Ok(*self)
    }
}

impl Copied for Width {
    fn copy(&self, _alloc: Global) -> Result<Width, AllocError> {
        Ok(*self)
    }
}

impl Copied for Loc {
    fn copy(&self, _alloc: Global) -> Result<Loc, AllocError> {
        Ok(*self)
    }
}

impl Copied for TypeId {
    fn copy(&self, _alloc: Global) -> Result<TypeId, AllocError> {
        Ok(*self)
    }
}

impl Copied for Tid {
    fn copy(&self, _alloc: Global) -> Result<Tid, AllocError> {
        Ok(*self)
    }
}

impl Copied for Out {
    fn copy(&self, _alloc: Global) -> Result<Out, AllocError> {
        Ok(*self)
    }
}

impl<A: Copied + Drop, B: Copied> Copied for (A, B) {
    fn copy(&self, alloc: Global) -> Result<(A, B), AllocError> {
        copy_both(&self.0, &self.1, alloc)
    }
}

impl<T: Copied> Copied for Option<T> {
    fn copy(&self, alloc: Global) -> Result<Option<T>, AllocError> {
        match self {
            None => Ok(None),
            Some(value) => Ok(Some(value.copy(alloc)?)),
        }
    }
}

impl<T: Copied + Drop> Copied for Seq<T> {
    fn copy(&self, alloc: Global) -> Result<Seq<T>, AllocError> {
        Ok(Seq::from_vec(copy_items(self.items(), alloc)?))
    }
}

impl Copied for Name {
    fn copy(&self, alloc: Global) -> Result<Name, AllocError> {
        Name::new(alloc, self.bytes())
    }
}

impl Copied for Ty {
    fn copy(&self, alloc: Global) -> Result<Ty, AllocError> {
        match self {
            Ty::Void => Ok(Ty::Void),
            Ty::Int(width) => Ok(Ty::Int(*width)),
            Ty::Ptr => Ok(Ty::Ptr),
            Ty::Array(count, element) => {
                let copy = element.get().copy(alloc)?;
                Ok(Ty::Array(*count, Boxed::new(alloc, copy)?))
            }
            Ty::Struct(parts) => {
                let mut copies = Seq::new(alloc);
                for part in parts.items() {
                    copies.push(part.copy(alloc)?)?;
                }
                Ok(Ty::Struct(copies))
            }
            Ty::Named(id) => Ok(Ty::Named(*id)),
        }
    }
}

impl Copied for ConstGep {
    fn copy(&self, alloc: Global) -> Result<ConstGep, AllocError> {
        let (base, index) = copy_both(&self.base, &self.index, alloc)?;
        Ok(ConstGep {
            base,
            sym: self.sym,
            index,
        })
    }
}

impl Copied for Val {
    fn copy(&self, alloc: Global) -> Result<Val, AllocError> {
        match self {
            Val::Reg(at) => Ok(Val::Reg(*at)),
            Val::Int(word) => Ok(Val::Int(*word)),
            Val::Null => Ok(Val::Null),
            Val::Global(sym) => Ok(Val::Global(*sym)),
            Val::Gep(gep) => Ok(Val::Gep(gep.copy(alloc)?)),
        }
    }
}

impl Copied for Init {
    fn copy(&self, alloc: Global) -> Result<Init, AllocError> {
        match self {
            Init::Zero => Ok(Init::Zero),
            Init::Int(word) => Ok(Init::Int(*word)),
            Init::Null => Ok(Init::Null),
            Init::Addr(sym) => Ok(Init::Addr(*sym)),
            Init::Gep(gep) => Ok(Init::Gep(gep.copy(alloc)?)),
            Init::Bytes(bytes) => Ok(Init::Bytes(bytes.copy(alloc)?)),
            Init::Parts(parts) => {
                let mut copies = Seq::new(alloc);
                for (ty, init) in parts.items() {
                    let ty = ty.copy(alloc)?;
                    let part = paired(ty, init.copy(alloc))?;
                    copies.push(part)?;
                }
                Ok(Init::Parts(copies))
            }
        }
    }
}

impl Copied for GlobalVar {
    fn copy(&self, alloc: Global) -> Result<GlobalVar, AllocError> {
        let (ty, init) = copy_both(&self.ty, &self.init, alloc)?;
        Ok(GlobalVar {
            sym: self.sym,
            ty,
            init,
        })
    }
}

impl Copied for Declare {
    fn copy(&self, alloc: Global) -> Result<Declare, AllocError> {
        let (ret, params) = copy_both(&self.ret, &self.params, alloc)?;
        Ok(Declare {
            sym: self.sym,
            ret,
            params,
        })
    }
}

impl Copied for Block {
    fn copy(&self, alloc: Global) -> Result<Block, AllocError> {
        let insts = self.insts.copy(alloc)?;
        Ok(Block {
            label: self.label,
            insts,
        })
    }
}

impl Copied for Inst {
    fn copy(&self, alloc: Global) -> Result<Inst, AllocError> {
        match self {
            Inst::Bin {
                dst,
                op,
                flags,
                w,
                a,
                b,
            } => {
                let (a, b) = copy_both(a, b, alloc)?;
                Ok(Inst::Bin {
                    dst: *dst,
                    op: *op,
                    flags: *flags,
                    w: *w,
                    a,
                    b,
                })
            }
            Inst::Cmp {
                dst,
                pred,
                ty,
                a,
                b,
            } => {
                let (ty, a, b) = copy_three(ty, a, b, alloc)?;
                Ok(Inst::Cmp {
                    dst: *dst,
                    pred: *pred,
                    ty,
                    a,
                    b,
                })
            }
            Inst::Select {
                dst,
                cond,
                ty,
                a,
                b,
            } => {
                let (cond, ty, a, b) = copy_four(cond, ty, a, b, alloc)?;
                Ok(Inst::Select {
                    dst: *dst,
                    cond,
                    ty,
                    a,
                    b,
                })
            }
            Inst::Cast {
                dst,
                op,
                from,
                a,
                to,
            } => {
                let (from, a, to) = copy_three(from, a, to, alloc)?;
                Ok(Inst::Cast {
                    dst: *dst,
                    op: *op,
                    from,
                    a,
                    to,
                })
            }
            Inst::Gep {
                dst,
                base,
                ptr,
                index,
            } => {
                let (base, ptr, index) = copy_three(base, ptr, index, alloc)?;
                Ok(Inst::Gep {
                    dst: *dst,
                    base,
                    ptr,
                    index,
                })
            }
            Inst::Alloca { dst, ty } => {
                let ty = ty.copy(alloc)?;
                Ok(Inst::Alloca { dst: *dst, ty })
            }
            Inst::Load {
                dst,
                ty,
                ptr,
                atomic,
            } => {
                let (ty, ptr) = copy_both(ty, ptr, alloc)?;
                Ok(Inst::Load {
                    dst: *dst,
                    ty,
                    ptr,
                    atomic: *atomic,
                })
            }
            Inst::Store {
                ty,
                val,
                ptr,
                atomic,
            } => {
                let (ty, val, ptr) = copy_three(ty, val, ptr, alloc)?;
                Ok(Inst::Store {
                    ty,
                    val,
                    ptr,
                    atomic: *atomic,
                })
            }
            Inst::Rmw {
                dst,
                op,
                ptr,
                ty,
                val,
            } => {
                let (ptr, ty, val) = copy_three(ptr, ty, val, alloc)?;
                Ok(Inst::Rmw {
                    dst: *dst,
                    op: *op,
                    ptr,
                    ty,
                    val,
                })
            }
            Inst::CmpXchg {
                dst,
                ptr,
                ty,
                old,
                new,
            } => {
                let (ptr, ty, old, new) = copy_four(ptr, ty, old, new, alloc)?;
                Ok(Inst::CmpXchg {
                    dst: *dst,
                    ptr,
                    ty,
                    old,
                    new,
                })
            }
            Inst::Fence => Ok(Inst::Fence),
            Inst::Extract {
                dst,
                elem,
                pair,
                index,
            } => {
                let elem = elem.copy(alloc)?;
                Ok(Inst::Extract {
                    dst: *dst,
                    elem,
                    pair: *pair,
                    index: *index,
                })
            }
            Inst::Call {
                dst,
                ret,
                callee,
                args,
            } => {
                let (ret, args) = copy_both(ret, args, alloc)?;
                Ok(Inst::Call {
                    dst: *dst,
                    ret,
                    callee: *callee,
                    args,
                })
            }
            Inst::Phi { dst, ty, arms } => {
                let (ty, arms) = copy_both(ty, arms, alloc)?;
                Ok(Inst::Phi {
                    dst: *dst,
                    ty,
                    arms,
                })
            }
            Inst::Br { to } => Ok(Inst::Br { to: *to }),
            Inst::CondBr { cond, yes, no } => {
                let cond = cond.copy(alloc)?;
                Ok(Inst::CondBr {
                    cond,
                    yes: *yes,
                    no: *no,
                })
            }
            Inst::Switch {
                ty,
                on,
                default,
                cases,
            } => {
                let (ty, on, cases) = copy_three(ty, on, cases, alloc)?;
                Ok(Inst::Switch {
                    ty,
                    on,
                    default: *default,
                    cases,
                })
            }
            Inst::Ret { ty, val } => {
                let (ty, val) = copy_both(ty, val, alloc)?;
                Ok(Inst::Ret { ty, val })
            }
            Inst::Unreachable => Ok(Inst::Unreachable),
        }
    }
}
