//! Whether types are the same (`specs/SameTypes.antt`).
ghost use Rattle.std.specs.Prelude.{◌≡◌};
ghost use Rattle.ir_lines.specs.SameTypes as same;

use ir_core::{Ty, Width};

/// Whether two widths are the same.
pub fn same_width(a: Width, b: Width) -> bool
    ensures { result ≡ same.same_width a b }
{
    match (a, b) {
        (Width::W1, Width::W1)
        | (Width::W8, Width::W8)
        | (Width::W16, Width::W16)
        | (Width::W32, Width::W32)
        | (Width::W64, Width::W64) => true,
        _ => false,
    }
}

/// Whether two types are built alike, of the same names.
pub fn same_ty(a: &Ty, b: &Ty) -> bool
    ensures { result ≡ same.same_ty a.now b.now }
{
    match a {
        Ty::Void => matches!(b, Ty::Void),
        Ty::Ptr => matches!(b, Ty::Ptr),
        Ty::Int(width) => match b {
            Ty::Int(other) => same_width(*width, *other),
            _ => false,
        },
        Ty::Named(id) => match b {
            Ty::Named(other) => id.0 == other.0,
            _ => false,
        },
        Ty::Array(count, element) => match b {
            Ty::Array(other, part) => *count == *other && same_ty(element.get(), part.get()),
            _ => false,
        },
        Ty::Struct(parts) => match b {
            Ty::Struct(others) => {
                let (parts, others) = (parts.items(), others.items());
                if parts.len() != others.len() {
                    return false;
                }
                for place in 0..parts.len() {
                    if !same_ty(&parts[place], &others[place]) {
                        return false;
                    }
                }
                true
            }
            _ => false,
        },
    }
}

/// Whether each type is the same as the one beside it, and there are as many.
pub fn same_types(a: &[Ty], b: &[Ty]) -> bool
    ensures { result ≡ same.same_types a.now b.now }
{
    if a.len() != b.len() {
        return false;
    }
    for place in 0..a.len() {
        if !same_ty(&a[place], &b[place]) {
            return false;
        }
    }
    true
}
