//! Whether initialisers fit their types (`specs/Types.antt`).
ghost use Rattle.std.specs.Prelude.{◌≡◌};
ghost use Rattle.ir_types.specs.Types.{init_fits, is_byte_array};

use crate::operands::gep_fits;
use crate::type_kinds::{is_int, is_int_of, is_ptr};
use ir_core::{Init, Ty, Width};
use ir_layout::Layout;
use ir_lines::same_ty;

// Whether a type is an array of just so many `i8`.
fn is_byte_array(count: u64, ty: &Ty) -> bool
    ensures { result ≡ is_byte_array count ty.now }
{
    match ty {
        Ty::Array(own, element) => *own == count && is_int_of(element.get(), Width::W8),
        _ => false,
    }
}

/// Whether an initialiser fits a type.
pub(crate) fn init_fits(layout: &Layout, init: &Init, ty: &Ty) -> bool
    ensures { result ≡ init_fits layout.now.types init.now ty.now }
{
    match init {
        Init::Zero => true,
        Init::Int(_) => is_int(ty),
        Init::Null | Init::Addr(_) => is_ptr(ty),
        Init::Gep(gep) => is_ptr(ty) && gep_fits(layout, gep),
        Init::Bytes(bytes) => is_byte_array(bytes.bytes().len() as u64, ty),
        Init::Parts(parts) => match (layout.fields(ty), ty) {
            (Some(mut fields), _) => {
                for (written, part) in parts.items() {
                    let [field, rest @ ..] = fields else {
                        return false;
                    };
                    if !same_ty(written, field) || !init_fits(layout, part, field) {
                        return false;
                    }
                    fields = rest;
                }
                fields.is_empty()
            }
            (None, Ty::Array(count, element)) => {
                let (parts, element) = (parts.items(), element.get());
                for (own, part) in parts {
                    if !same_ty(own, element) || !init_fits(layout, part, element) {
                        return false;
                    }
                }
                *count == parts.len() as u64
            }
            (None, _) => false,
        },
    }
}
