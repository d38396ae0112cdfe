//! Limits, and what a refused layout answers.
ghost use Rattle.std.specs.Prelude.{◌≡◌, ◌∷◌, not, Some, None, if◌then◌else◌, IfOk};
ghost use Rattle.ir_layout.specs.Limits.{limit_of, limit_among, is_too_large, is_too_deep, Refuses};
ghost use Rattle.ir_layout.specs.declared.limits.LimitKind.TheVariants.{TypeSize, TypeDepth};
ghost use Rattle.ir_layout.specs.WrittenTypes.{types_in_global, types_in_declare, types_in_head, types_in_inst};

use crate::type_table::TypeTable;
use crate::written_types::{TypeTest, declare_passes, global_passes, head_passes, inst_passes};
use ir_core::{Declare, Func, GlobalVar, Inst, Name, Ty};
use std::alloc::{AllocError, Global};

/// The limits of a module.
#[derive(Clone, Copy, PartialEq, Eq)]
pub enum LimitKind {
    /// The last byte of each global lies below 0x110000.
    Globals,
    /// A type has at most 1,048,576 bytes.
    TypeSize,
    /// Types nest at most 16 deep.
    TypeDepth,
    /// A function has at most 32 parameters.
    Params,
    /// A function has at most 65,536 `%` names.
    Registers,
}

/// Why a module has no layout.
#[derive(Drop)]
pub enum LayoutError {
    /// The first limit that is broken, and the name of the type or global whose line breaks it.
    Limit { kind: LimitKind, at: Name },
    /// There was no memory.
    NoMemory,
}

impl From<AllocError> for LayoutError {
    ghost use Rattle.std.specs.Prelude.{◌≡◌};
    ghost use Rattle.ir_layout.specs.declared.limits.LayoutError.TheVariants.{NoMemory};

    ghost from_gives = { λ _ e. e ≡ NoMemory };

    fn from(_error: AllocError) -> LayoutError {
        LayoutError::NoMemory
    }
}

// The sigil of a name and its bytes.
fn place_text(alloc: Global, sigil: u8, name: &[u8]) -> Result<Name, AllocError>
    ensures { IfOk result (λ at. at ≡ sigil ∷ name.now) }
{
    let mut text = Vec::with_capacity(alloc, name.len().saturating_add(1))?;
    text.push(sigil)?;
    text.extend_from_slice(name)?;
    Name::new(alloc, text.as_slice())
}

/// The refusal for a limit that is broken at a name.
pub(crate) fn refusal(alloc: Global, kind: LimitKind, sigil: u8, name: &[u8]) -> LayoutError
    ensures { Refuses (Some (kind, sigil ∷ name.now)) result }
{
    match place_text(alloc, sigil, name) {
        Ok(at) => LayoutError::Limit { kind, at },
        Err(_) => LayoutError::NoMemory,
    }
}

// The tests whether a type keeps the limits.
#[derive(Drop)]
struct NotTooLarge<'a> {
    types: &'a TypeTable,
}

#[derive(Drop)]
struct NotTooDeep<'a> {
    types: &'a TypeTable,
}

impl TypeTest for NotTooLarge<'_> {
    ghost passes = { λ test ty. not (is_too_large (limit_of test.types.now ty)) };

    fn passes(&self, ty: &Ty) -> bool {
        self.types.limit(ty) != Some(LimitKind::TypeSize)
    }
}

impl TypeTest for NotTooDeep<'_> {
    ghost passes = { λ test ty. not (is_too_deep (limit_of test.types.now ty)) };

    fn passes(&self, ty: &Ty) -> bool {
        self.types.limit(ty) != Some(LimitKind::TypeDepth)
    }
}

// The limit of types that is broken, by whether all are small enough, and whether none nests too deep.
fn first_broken(small: bool, shallow: bool) -> Option<LimitKind>
    ensures { result ≡ (if not small then Some TypeSize else if not shallow then Some TypeDepth else None) }
{
    if !small {
        Some(LimitKind::TypeSize)
    } else if !shallow {
        Some(LimitKind::TypeDepth)
    } else {
        None
    }
}

/// The first limit of types that a global's line breaks.
pub(crate) fn limit_among(types: &TypeTable, global: &GlobalVar) -> Option<LimitKind>
    ensures { result ≡ limit_among types.now (types_in_global global.now) }
{
    let small = global_passes(global, &NotTooLarge { types });
    first_broken(small, global_passes(global, &NotTooDeep { types }))
}

/// The first limit of types that a declare's line breaks.
pub(crate) fn limit_of_declare(types: &TypeTable, declare: &Declare) -> Option<LimitKind>
    ensures { result ≡ limit_among types.now (types_in_declare declare.now) }
{
    let small = declare_passes(declare, &NotTooLarge { types });
    first_broken(small, declare_passes(declare, &NotTooDeep { types }))
}

/// The first limit of types that a function's head breaks.
pub(crate) fn limit_of_head(types: &TypeTable, f: &Func) -> Option<LimitKind>
    ensures { result ≡ limit_among types.now (types_in_head f.now) }
{
    let small = head_passes(f, &NotTooLarge { types });
    first_broken(small, head_passes(f, &NotTooDeep { types }))
}

/// The first limit of types that an instruction breaks.
pub(crate) fn limit_of_inst(types: &TypeTable, inst: &Inst) -> Option<LimitKind>
    ensures { result ≡ limit_among types.now (types_in_inst inst.now) }
{
    let small = inst_passes(inst, &NotTooLarge { types });
    first_broken(small, inst_passes(inst, &NotTooDeep { types }))
}
