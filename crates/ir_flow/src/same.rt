//! Whether values are written alike.
ghost use Rattle.std.specs.Prelude.{◌≡◌, ◌↔◌, IsTrue};

use ir_core::{ConstGep, Ty, Val, Width};

// Whether two widths are the same.
fn same_width(a: Width, b: Width) -> bool
    ensures { IsTrue result ↔ (a ≡ b) }
{
    a == b
}

// Whether two types are the same.
fn same_ty(a: &Ty, b: &Ty) -> bool
    ensures { IsTrue result ↔ (a.now ≡ b.now) }
{
    match a {
        Ty::Void => matches!(b, Ty::Void),
        Ty::Ptr => matches!(b, Ty::Ptr),
        Ty::Int(width) => match b {
            Ty::Int(other) => same_width(*width, *other),
            _ => false,
        },
        Ty::Named(id) => match b {
            Ty::Named(other) => id.0 == other.0,
            _ => false,
        },
        Ty::Array(count, element) => match b {
            Ty::Array(other, part) => *count == *other && same_ty(element.get(), part.get()),
            _ => false,
        },
        Ty::Struct(parts) => match b {
            Ty::Struct(others) => {
                let (parts, others) = (parts.items(), others.items());
                if parts.len() != others.len() {
                    return false;
                }
                for place in 0..parts.len() {
                    if !same_ty(&parts[place], &others[place]) {
                        return false;
                    }
                }
                true
            }
            _ => false,
        },
    }
}

// Whether two lists of indices are the same.
fn same_indices(a: &[(Width, u64)], b: &[(Width, u64)]) -> bool
    ensures { IsTrue result ↔ (a.now ≡ b.now) }
{
    if a.len() != b.len() {
        return false;
    }
    for place in 0..a.len() {
        if !same_width(a[place].0, b[place].0) || a[place].1 != b[place].1 {
            return false;
        }
    }
    true
}

// Whether two constant `getelementptr`s are the same.
fn same_gep(a: &ConstGep, b: &ConstGep) -> bool
    ensures { IsTrue result ↔ (a.now ≡ b.now) }
{
    a.sym.0 == b.sym.0
        && same_ty(&a.base, &b.base)
        && same_indices(a.index.items(), b.index.items())
}

/// Whether two values are the same.
pub(crate) fn same_val(a: &Val, b: &Val) -> bool
    ensures { IsTrue result ↔ (a.now ≡ b.now) }
{
    match a {
        Val::Null => matches!(b, Val::Null),
        Val::Reg(at) => match b {
            Val::Reg(other) => at.0 == other.0,
            _ => false,
        },
        Val::Int(n) => match b {
            Val::Int(other) => *n == *other,
            _ => false,
        },
        Val::Global(sym) => match b {
            Val::Global(other) => sym.0 == other.0,
            _ => false,
        },
        Val::Gep(gep) => match b {
            Val::Gep(other) => same_gep(gep, other),
            _ => false,
        },
    }
}
