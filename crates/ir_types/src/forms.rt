//! What instructions ask of types beside their operands and labels (`specs/Types.antt`).
ghost use Rattle.std.specs.Prelude.{◌≡◌};
ghost use Rattle.ir_types.specs.Firsts.{first_of};
ghost use Rattle.ir_types.specs.Types.{as_constant, cast_fits, form_fits, indices_fit, inst_fits, is_narrower, is_pair_of, ret_fits};

use crate::labels::labels_fit;
use crate::meaning::Names;
use crate::operands::Scope;
use crate::type_kinds::{bits, int_width, is_int, is_ptr, is_void};
use ir_core::{CastOp, Inst, Loc, Ty, Val, Width};
use ir_layout::Layout;
use ir_lines::same_ty;

// Whether both are there and the first has fewer bits.
fn is_narrower(a: Option<Width>, b: Option<Width>) -> bool
    ensures { result ≡ is_narrower a b }
{
    match (a, b) {
        (Some(a), Some(b)) => bits(a) < bits(b),
        _ => false,
    }
}

// Whether a conversion goes from the one type to the other.
fn cast_fits(op: CastOp, from: &Ty, to: &Ty) -> bool
    ensures { result ≡ cast_fits op from.now to.now }
{
    match op {
        CastOp::Zext | CastOp::Sext => is_narrower(int_width(from), int_width(to)),
        CastOp::Trunc => is_narrower(int_width(to), int_width(from)),
        CastOp::Ptrtoint => is_ptr(from) && is_int(to),
        CastOp::Inttoptr => is_int(from) && is_ptr(to),
    }
}

// An index as a constant: a register counts as the number 0 of 64 bits.
fn as_constant(index: &(Width, Val)) -> (Width, u64)
    ensures { result ≡ as_constant index.now }
{
    let (width, val) = index;
    match val {
        Val::Int(n) => (*width, *n),
        _ => (Width::W64, 0),
    }
}

// Whether the indices of a `getelementptr` fit.
fn indices_fit(layout: &Layout, base: &Ty, indices: &[(Width, Val)]) -> bool
    ensures { result ≡ indices_fit layout.now.types base.now indices.now }
{
    let [_, further @ ..] = indices else {
        return true;
    };
    let mut at = base;
    for index in further {
        match layout.entered(at, as_constant(index)) {
            Some(inner) => at = inner,
            None => return false,
        }
    }
    true
}

// Whether a name stands for the result of a `cmpxchg` on this type.
fn is_pair_of(names: &Names<'_>, ty: &Ty, at: Loc) -> bool
    ensures { result ≡ is_pair_of ty.now (first_of names.now at) }
{
    match names.get(at) {
        Some(meaning) => meaning.is_pair_of(ty),
        None => false,
    }
}

// Whether a `ret` fits the result of its function.
fn ret_fits(ret: &Ty, ty: &Ty, val: &Option<Val>) -> bool
    ensures { result ≡ ret_fits ret.now ty.now val.now }
{
    match val {
        Some(_) => same_ty(ty, ret),
        None => same_ty(ty, ret) && is_void(ty),
    }
}

// Whether an instruction fits, beside its operands and labels.
fn form_fits(scope: &Scope<'_, '_>, ret: &Ty, inst: &Inst) -> bool
    ensures { result ≡ form_fits scope.now.layout.now.types scope.now.names.now ret.now inst.now }
{
    match inst {
        Inst::Cast { op, from, to, .. } => cast_fits(*op, from, to),
        Inst::Gep { base, index, .. } => indices_fit(scope.layout, base, index.items()),
        Inst::Extract { elem, pair, .. } => is_pair_of(scope.names, elem, *pair),
        Inst::Ret { ty, val } => ret_fits(ret, ty, val),
        _ => true,
    }
}

/// Whether the types of an instruction fit, in a function with this result.
pub(crate) fn inst_fits(scope: &Scope<'_, '_>, ret: &Ty, inst: &Inst) -> bool
    ensures { result ≡ inst_fits scope.now.layout.now.types scope.now.names.now ret.now inst.now }
{
    scope.operands_fit(inst) && labels_fit(scope.names, inst) && form_fits(scope, ret, inst)
}
