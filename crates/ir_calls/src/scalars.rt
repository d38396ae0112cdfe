//! The types in the signatures of externals, without memory (`specs/Scalars.antt`).
ghost use Rattle.std.specs.Prelude.{◌≡◌, map};
ghost use Rattle.ir_lines.specs.SameTypes.{same_ty, same_types};
ghost use Rattle.ir_calls.specs.Scalars.{type_of};

use ir_core::{Ty, Width};

/// A type in a signature.
#[derive(Clone, Copy)]
pub(crate) enum Scalar {
    Void,
    I32,
    I64,
    Ptr,
}

impl Scalar {
    /// Whether a type is this one.
    pub(crate) fn is(self, ty: &Ty) -> bool
        ensures { result ≡ same_ty ty.now (type_of self) }
    {
        match (self, ty) {
            (Scalar::Void, Ty::Void)
            | (Scalar::I32, Ty::Int(Width::W32))
            | (Scalar::I64, Ty::Int(Width::W64))
            | (Scalar::Ptr, Ty::Ptr) => true,
            _ => false,
        }
    }
}

/// Whether each type is the one beside it, and there are as many.
pub(crate) fn are(types: &[Ty], scalars: &[Scalar]) -> bool
    ensures { result ≡ same_types types.now (map type_of scalars.now) }
{
    let mut left = scalars;
    for ty in types {
        let [scalar, rest @ ..] = left else {
            return false;
        };
        if !scalar.is(ty) {
            return false;
        }
        left = rest;
    }
    left.is_empty()
}
