//! What a layout answers.
ghost use Rattle.std.specs.Prelude.{◌≡◌, None, IfOk};
ghost use Rattle.ir_layout.specs.Shapes.{size_of, known_shape, field_start};
ghost use Rattle.ir_layout.specs.KeptShapes.{word};
ghost use Rattle.std.specs.Option.{option_map, option_copied};
ghost use Rattle.ir_layout.specs.Offsets.{entered, fields, offset_of};
ghost use Rattle.ir_layout.specs.Memory.{address_of, is_valid, AreAddresses, AreApart};
ghost use Rattle.ir_layout.specs.Limits.{limit_of, limit_among};
ghost use Rattle.ir_layout.specs.WrittenTypes.{types_in_declare, types_in_head, types_in_inst};

use crate::kept_places::GlobalPlaces;
use crate::limits::{self, LimitKind};
use crate::offsets;
use crate::spans::{self, Span};
use crate::type_table::TypeTable;
use ir_core::{Declare, Func, Inst, Sym, Ty, Width};
use std::alloc::{AllocError, Global};
use std::collections::HashMap;
use std::marker::Model;

/// Sizes, offsets and addresses of a module. Contracts see its named types and where its globals stand.
#[derive(Drop)]
pub struct Layout {
    types: TypeTable,
    globals: Vec<Span>,
    addresses: HashMap<u32, u64>,
}

impl Model for Layout {
    ghost use Rattle.std.specs.Coded.{codes};
    ghost use Rattle.ir_core.specs.contracts.types.Ty as ty;
    ghost use Rattle.ir_layout.specs.Memory.{LayoutParts, AreAddresses, AreApart};

    ghost Value = { LayoutParts };

    ghost coded = { Prim.hlevel (codes, ty.the_row.coded) };

    ghost view = { λ l. record { types = l.types; globals = l.globals.items } };

    ghost invariant = { λ l. AreAddresses l.globals.items l.addresses × AreApart l.globals.items };
}

impl Layout {
    /// The layout of named types and of globals that have their places.
    pub(crate) fn of(types: TypeTable, globals: Vec<Span>, addresses: HashMap<u32, u64>) -> Layout
        requires addresses { AreAddresses globals.items addresses }
        requires apart { AreApart globals.items }
        ensures { result ≡ record { types = types; globals = globals.items } }
    {
        Layout {
            types,
            globals,
            addresses,
        }
    }

    /// The limit that a type breaks: `TypeDepth` where it nests too deep, else `TypeSize` where it has too many bytes.
    pub fn limit(&self, ty: &Ty) -> Option<LimitKind>
        ensures { result ≡ limit_of self.now.types ty.now }
    {
        self.types.limit(ty)
    }

    /// The first limit of types that a declare's line breaks, `TypeSize` before `TypeDepth`.
    pub fn limit_of_declare(&self, declare: &Declare) -> Option<LimitKind>
        ensures { result ≡ limit_among self.now.types (types_in_declare declare.now) }
    {
        limits::limit_of_declare(&self.types, declare)
    }

    /// The first limit of types that a function's head breaks, `TypeSize` before `TypeDepth`.
    pub fn limit_of_head(&self, f: &Func) -> Option<LimitKind>
        ensures { result ≡ limit_among self.now.types (types_in_head f.now) }
    {
        limits::limit_of_head(&self.types, f)
    }

    /// The first limit of types that an instruction breaks, `TypeSize` before `TypeDepth`.
    pub fn limit_of_inst(&self, inst: &Inst) -> Option<LimitKind>
        ensures { result ≡ limit_among self.now.types (types_in_inst inst.now) }
    {
        limits::limit_of_inst(&self.types, inst)
    }

    /// How many bytes a type takes.
    pub fn size_of(&self, ty: &Ty) -> u64
        requires { limit_of self.now.types ty.now ≡ None }
        ensures { result ≡ size_of self.now.types ty.now }
    {
        self.types.known_shape(ty).size
    }

    /// Where a field stands behind so many bytes, modulo 2^64.
    pub fn field_start(&self, taken: u64, field: &Ty) -> u64
        ensures { result ≡ word (field_start taken (known_shape self.now.types field.now).align) }
    {
        self.types.known_shape(field).align.round_up(taken)
    }

    /// The places of the globals, in memory of their own.
    pub fn global_places(&self, alloc: Global) -> Result<GlobalPlaces, AllocError>
        ensures { IfOk result (λ places. places ≡ self.now.globals) }
    {
        GlobalPlaces::copy_of(alloc, self.globals.as_slice())
    }

    /// The address of a global, or `None` exactly for a name that is no global.
    pub fn address(&self, sym: Sym) -> Option<u64>
        ensures { result ≡ address_of self.now.globals sym }
    {
        self.addresses.get(&sym.0).copied()
    }

    /// The offset of indices into a type, modulo 2^64, or `None` exactly where an index doesn't fit.
    pub fn offset(&self, base: &Ty, index: &[(Width, u64)]) -> Option<u64>
        ensures { result ≡ offset_of self.now.types base.now index.now }
    {
        offsets::offset(&self.types, base, index)
    }

    /// The type that an index goes into, or `None` exactly where it fits nothing there.
    pub fn entered<'a>(&'a self, ty: &'a Ty, index: (Width, u64)) -> Option<&'a Ty>
        ensures { option_copied result ≡ option_map (λ step. step.0) (entered self.now.types index ty.now) }
    {
        let (width, n) = index;
        let (inner, _) = offsets::entered(&self.types, ty, width, n)?;
        Some(inner)
    }

    /// The fields of a struct, named or not, or `None` for any other type.
    pub fn fields<'a>(&'a self, ty: &'a Ty) -> Option<&'a [Ty]>
        ensures { option_copied result ≡ fields self.now.types ty.now }
    {
        offsets::fields(&self.types, ty)
    }

    /// Whether an access of so many bytes at an address is valid.
    pub fn valid(&self, addr: u64, size: u64) -> bool
        ensures { result ≡ is_valid self.now.globals addr size }
    {
        spans::is_valid(self.globals.as_slice(), addr, size)
    }
}
