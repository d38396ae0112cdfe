//! Kinds of types (`specs/Types.antt`), and how many bits their words have.
ghost use Rattle.std.specs.Prelude.{◌≡◌, ◌<◌};
ghost use Rattle.ir_core.specs.declared.types.Ty.TheVariants as types;
ghost use Rattle.ir_lines.specs.SameTypes.{same_ty};
ghost use Rattle.ir_types.specs.Meanings.{bits, word_bits};
ghost use Rattle.ir_types.specs.Types.{int_width, is_aggregate, is_int, is_ptr, is_void, pair_type};

use ir_core::{Ty, Width};
use ir_lines::{same_ty, same_width};

/// How many bits a width has.
pub(crate) fn bits(width: Width) -> u32
    ensures bits { result ≡ bits width }
    ensures small { result < 65 }
{
    match width {
        Width::W1 => 1,
        Width::W8 => 8,
        Width::W16 => 16,
        Width::W32 => 32,
        Width::W64 => 64,
    }
}

/// The width of an integer type.
pub(crate) fn int_width(ty: &Ty) -> Option<Width>
    ensures { result ≡ int_width ty.now }
{
    match ty {
        Ty::Int(width) => Some(*width),
        _ => None,
    }
}

/// Whether a type is an integer type.
pub(crate) fn is_int(ty: &Ty) -> bool
    ensures { result ≡ is_int ty.now }
{
    matches!(ty, Ty::Int(_))
}

/// Whether a type is `ptr`.
pub(crate) fn is_ptr(ty: &Ty) -> bool
    ensures { result ≡ is_ptr ty.now }
{
    matches!(ty, Ty::Ptr)
}

/// Whether a type is `void`.
pub(crate) fn is_void(ty: &Ty) -> bool
    ensures { result ≡ is_void ty.now }
{
    matches!(ty, Ty::Void)
}

/// Whether a type has parts.
pub(crate) fn is_aggregate(ty: &Ty) -> bool
    ensures { result ≡ is_aggregate ty.now }
{
    matches!(ty, Ty::Array(..) | Ty::Struct(_) | Ty::Named(_))
}

/// Whether a type is the integer type of this width.
pub(crate) fn is_int_of(ty: &Ty, width: Width) -> bool
    ensures { result ≡ same_ty (types.Int width) ty.now }
{
    match ty {
        Ty::Int(own) => same_width(width, *own),
        _ => false,
    }
}

/// Whether a type is that of what a `cmpxchg` on another gives.
pub(crate) fn is_pair_type(ty: &Ty, of: &Ty) -> bool
    ensures { result ≡ same_ty (pair_type of.now) ty.now }
{
    match ty {
        Ty::Struct(parts) => match parts.items() {
            [word, done] => same_ty(of, word) && is_int_of(done, Width::W1),
            _ => false,
        },
        _ => false,
    }
}

/// How many bits a word of a type has, and 0 for a type that has no word.
pub(crate) fn word_bits(ty: &Ty) -> u32
    ensures bits { result ≡ word_bits ty.now }
    ensures small { result < 65 }
{
    match ty {
        Ty::Int(width) => bits(*width),
        Ty::Ptr => 64,
        _ => 0,
    }
}
