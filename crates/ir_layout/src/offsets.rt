//! How far the indices of a `getelementptr` go (LLVM Language Reference, 'getelementptr Instruction').
ghost use Rattle.std.specs.Prelude.{◌≡◌, ◌*◌, ℕ, List, map, fold};
ghost use Rattle.std.specs.Option.{option_map, option_copied};
ghost use Rattle.ir_core.specs.declared.types.Ty.{Ty};
ghost use Rattle.ir_layout.specs.Shapes.{known_shape, size_of, with_field, nothing};
ghost use Rattle.ir_layout.specs.KeptShapes.{word, kept};
ghost use Rattle.ir_layout.specs.Offsets.{sign_bit, signed_word, is_i32, own_fields, fields, field_offset, numbered_field, entered, offset_of, Reaches};

use crate::shapes::KeptShape;
use crate::type_table::TypeTable;
use ir_core::{Ty, Width};

// The least word of a width that stands for a negative number.
fn sign_bit(width: Width) -> u64
    ensures { result ≡ sign_bit width }
{
    match width {
        Width::W1 => 1,
        Width::W8 => 128,
        Width::W16 => 32_768,
        Width::W32 => 2_147_483_648,
        Width::W64 => 9_223_372_036_854_775_808,
    }
}

// The signed number of an index, as a word of 64 bits.
fn signed_word(width: Width, n: u64) -> u64
    ensures { result ≡ word (signed_word width n) }
{
    let sign = sign_bit(width);
    if n < sign {
        n
    } else {
        n.wrapping_sub(sign).wrapping_sub(sign)
    }
}

// The fields of a struct.
fn own_fields(ty: &Ty) -> Option<&[Ty]>
    ensures { option_copied result ≡ own_fields ty.now }
{
    match ty {
        Ty::Struct(parts) => Some(parts.items()),
        _ => None,
    }
}

/// The fields of a struct, and of one that has a name.
pub(crate) fn fields<'a>(types: &'a TypeTable, ty: &'a Ty) -> Option<&'a [Ty]>
    ensures { option_copied result ≡ fields types.now ty.now }
{
    match ty {
        Ty::Struct(parts) => Some(parts.items()),
        Ty::Named(id) => own_fields(types.body(*id)?),
        _ => None,
    }
}

// What the fields take, one behind another.
fn taken(types: &TypeTable, parts: &[Ty]) -> KeptShape
    ensures { result ≡ kept (fold with_field nothing (map (known_shape types.now) parts.now)) }
{
    let mut taken = KeptShape::nothing();
    for part in parts {
        taken = taken.with_field(types.known_shape(part));
    }
    taken
}

// The field with this number, and where it stands.
fn field_at<'a>(types: &TypeTable, parts: &'a [Ty], n: u64) -> Option<(&'a Ty, u64)>
    ensures { Reaches (numbered_field types.now n parts.now) result }
{
    if n >= parts.len() as u64 {
        return None;
    }
    let place = n as usize;
    let field = &parts[place];
    let before = taken(types, &parts[..place]);
    Some((field, types.known_shape(field).start_behind(before)))
}

// So many whole values of a type, in bytes modulo 2^64.
fn whole_values(types: &TypeTable, ty: &Ty, width: Width, n: u64) -> u64
    ensures { result ≡ word (signed_word width n * size_of types.now ty.now) }
{
    signed_word(width, n).wrapping_mul(types.known_shape(ty).size)
}

/// The type that an index goes into, and how many bytes further that stands.
pub(crate) fn entered<'a>(
    types: &'a TypeTable,
    ty: &'a Ty,
    width: Width,
    n: u64,
) -> Option<(&'a Ty, u64)>
    ensures { Reaches (entered types.now (width, n) ty.now) result }
{
    match ty {
        Ty::Array(_, element) => {
            let element = element.get();
            Some((element, whole_values(types, element, width, n)))
        }
        _ => {
            let parts = fields(types, ty)?;
            match width {
                Width::W32 => field_at(types, parts, n),
                _ => None,
            }
        }
    }
}

/// The offset of indices into a type, modulo 2^64, or `None` where an index doesn't fit.
pub(crate) fn offset(types: &TypeTable, base: &Ty, index: &[(Width, u64)]) -> Option<u64>
    ensures { result ≡ offset_of types.now base.now index.now }
{
    let [(width, n), rest @ ..] = index else {
        return Some(0);
    };
    let mut total = whole_values(types, base, *width, *n);
    let mut at = base;
    for (width, n) in rest {
        let (inner, start) = entered(types, at, *width, *n)?;
        at = inner;
        total = total.wrapping_add(start);
    }
    Some(total)
}
