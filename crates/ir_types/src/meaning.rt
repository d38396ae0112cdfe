//! What the `%` names of a function stand for (`specs/Meanings.antt`).
ghost use Rattle.std.specs.Prelude.{◌≡◌, ◌++◌, Some, map, IfOk, OnOk};
ghost use Rattle.std.specs.List.{flat_map, filter_map};
ghost use Rattle.ir_core.specs.declared.types.Ty.TheVariants as types;
ghost use Rattle.ir_types.specs.Meanings.{Label, Pair, Register, block_meanings, extracted, meanings, param_meaning, result_of, width_of_meaning};
ghost use Rattle.ir_types.specs.Types.{is_label, is_pair_of, is_register_of};

use crate::firsts::Firsts;
use crate::type_kinds::{bits, is_int_of, is_pair_type, is_ptr, word_bits};
use ir_core::{Block, Func, Inst, Loc, Ty, Width};
use ir_lines::same_ty;
use std::alloc::{AllocError, Global};
use std::marker::Model;

/// What the `%` names of a function stand for, the first definition of each.
pub(crate) type Names<'m> = Firsts<Meaning<'m>>;

// What a name stands for.
#[derive(Clone, Copy)]
enum Kind<'m> {
    Label,
    Int(Width),
    Ptr,
    Value(&'m Ty),
    Pair(&'m Ty),
}

/// What a `%` name stands for: a label, a register of a type, or the result of a `cmpxchg` on one.
#[derive(Drop)]
pub(crate) struct Meaning<'m> {
    kind: Kind<'m>,
}

impl<'m> Model for Meaning<'m> {
    ghost use Rattle.std.specs.Coded.{codes};
    ghost use Rattle.ir_core.specs.contracts.types.Ty as ty;
    ghost use Rattle.ir_types.specs.Meanings.{Meaning};

    ghost Value = { Meaning };

    ghost coded = { Prim.hlevel (codes, ty.the_row.coded) };

    ghost use Rattle.ir_types.specs.Kinds.{meaning_of_kind};

    ghost view = { λ m. meaning_of_kind m.kind };
}

impl<'m> Meaning<'m> {
    // A label.
    fn label() -> Meaning<'m>
        ensures { result ≡ Label }
    {
        Meaning { kind: Kind::Label }
    }

    // A register of an integer type.
    fn int(width: Width) -> Meaning<'m>
        ensures { result ≡ Register (types.Int width) }
    {
        Meaning {
            kind: Kind::Int(width),
        }
    }

    // A register of type `ptr`.
    fn ptr() -> Meaning<'m>
        ensures { result ≡ Register types.Ptr }
    {
        Meaning { kind: Kind::Ptr }
    }

    // A register of this type.
    fn value(ty: &'m Ty) -> Meaning<'m>
        ensures { result ≡ Register ty.now }
    {
        Meaning {
            kind: Kind::Value(ty),
        }
    }

    // The result of a `cmpxchg` on this type.
    fn pair(ty: &'m Ty) -> Meaning<'m>
        ensures { result ≡ Pair ty.now }
    {
        Meaning {
            kind: Kind::Pair(ty),
        }
    }

    // What an `extractvalue` takes out of such a result.
    fn extracted(ty: &'m Ty, index: u8) -> Meaning<'m>
        ensures { result ≡ Register (extracted ty.now index) }
    {
        if index == 0 {
            Meaning::value(ty)
        } else {
            Meaning::int(Width::W1)
        }
    }

    /// Whether it is a label.
    pub(crate) fn is_label(&self) -> bool
        ensures { result ≡ is_label (Some self.now) }
    {
        matches!(self.kind, Kind::Label)
    }

    /// Whether it is a register of this type.
    pub(crate) fn is_register_of(&self, ty: &Ty) -> bool
        ensures { result ≡ is_register_of ty.now (Some self.now) }
    {
        match self.kind {
            Kind::Label => false,
            Kind::Int(width) => is_int_of(ty, width),
            Kind::Ptr => is_ptr(ty),
            Kind::Value(own) => same_ty(own, ty),
            Kind::Pair(own) => is_pair_type(ty, own),
        }
    }

    /// Whether it is the result of a `cmpxchg` on this type.
    pub(crate) fn is_pair_of(&self, ty: &Ty) -> bool
        ensures { result ≡ is_pair_of ty.now (Some self.now) }
    {
        match self.kind {
            Kind::Pair(own) => same_ty(own, ty),
            _ => false,
        }
    }

    /// How many bits the register holds, and 0 for a label.
    pub(crate) fn width(&self) -> u32
        ensures { result ≡ width_of_meaning self.now }
    {
        match self.kind {
            Kind::Label => 0,
            Kind::Int(width) => bits(width),
            Kind::Ptr => 64,
            Kind::Value(ty) => word_bits(ty),
            Kind::Pair(ty) => word_bits(ty) + 1,
        }
    }
}

// The register that an instruction assigns, and what it holds then.
fn result_of<'m>(inst: &'m Inst) -> Option<(Loc, Meaning<'m>)>
    ensures { result ≡ result_of inst.now }
{
    match inst {
        Inst::Bin { dst, w, .. } => Some((*dst, Meaning::int(*w))),
        Inst::Cmp { dst, .. } => Some((*dst, Meaning::int(Width::W1))),
        Inst::Select { dst, ty, .. }
        | Inst::Cast { dst, to: ty, .. }
        | Inst::Load { dst, ty, .. }
        | Inst::Rmw { dst, ty, .. }
        | Inst::Phi { dst, ty, .. } => Some((*dst, Meaning::value(ty))),
        Inst::Gep { dst, .. } | Inst::Alloca { dst, .. } => Some((*dst, Meaning::ptr())),
        Inst::CmpXchg { dst, ty, .. } => Some((*dst, Meaning::pair(ty))),
        Inst::Extract {
            dst,
            elem,
            index,
            ..
        } => Some((*dst, Meaning::extracted(elem, *index))),
        Inst::Call { dst, ret, .. } => {
            let dst = (*dst)?;
            Some((dst, Meaning::value(ret)))
        }
        Inst::Store { .. }
        | Inst::Fence
        | Inst::Br { .. }
        | Inst::CondBr { .. }
        | Inst::Switch { .. }
        | Inst::Ret { .. }
        | Inst::Unreachable => None,
    }
}

// Adds the results of instructions.
fn add_results<'m>(insts: &'m [Inst], names: &mut Vec<(Loc, Meaning<'m>)>) -> Result<(), AllocError>
    ensures { OnOk result (names.new.items ≡ names.old.items ++ filter_map result_of insts.now) }
{
    for inst in insts {
        if let Some(entry) = result_of(inst) {
            names.push(entry)?;
        }
    }
    Ok(())
}

// Adds blocks, each with its label and its results.
fn add_blocks<'m>(
    blocks: &'m [Block],
    names: &mut Vec<(Loc, Meaning<'m>)>,
) -> Result<(), AllocError>
    ensures { OnOk result (names.new.items ≡ names.old.items ++ flat_map block_meanings blocks.now) }
{
    for block in blocks {
        names.push((block.label, Meaning::label()))?;
        add_results(block.insts.items(), names)?;
    }
    Ok(())
}

// Adds parameters.
fn add_params<'m>(
    params: &'m [(Ty, Loc)],
    names: &mut Vec<(Loc, Meaning<'m>)>,
) -> Result<(), AllocError>
    ensures { OnOk result (names.new.items ≡ names.old.items ++ map param_meaning params.now) }
{
    for (ty, at) in params {
        names.push((*at, Meaning::value(ty)))?;
    }
    Ok(())
}

/// What the `%` names of a function stand for, in the order of their definitions.
pub(crate) fn meanings<'m>(
    alloc: Global,
    f: &'m Func,
) -> Result<Vec<(Loc, Meaning<'m>)>, AllocError>
    ensures { IfOk result (λ names. names.items ≡ meanings f.now) }
{
    let mut names = Vec::new(alloc);
    add_params(f.params(), &mut names)?;
    add_blocks(f.blocks(), &mut names)?;
    Ok(names)
}

/// The same as a table.
pub(crate) fn names_of<'m>(alloc: Global, f: &'m Func) -> Result<Names<'m>, AllocError>
    ensures { IfOk result (λ names. names ≡ meanings f.now) }
{
    let names = meanings(alloc, f)?;
    Firsts::new(alloc, names)
}
