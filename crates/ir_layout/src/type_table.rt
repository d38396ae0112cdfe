//! The named types of a module, and the shape of every type over them.
ghost use Rattle.std.specs.Prelude.{◌≡◌, IfOk};
ghost use Rattle.std.specs.Option.{option_map, option_copied};
ghost use Rattle.ir_layout.specs.Shapes.{definition_of, shape_of, known_shape};
ghost use Rattle.ir_layout.specs.KeptShapes.{kept};
ghost use Rattle.ir_layout.specs.Limits.{limit_of};

use crate::limits::LimitKind;
use crate::named_types::NamedTypes;
use crate::shapes::KeptShape;
use ir_core::{Ty, TypeId};
use std::alloc::{AllocError, Global};
use std::marker::Model;

/// The named types of a module. Contracts see the list of their definitions.
#[derive(Drop)]
pub(crate) struct TypeTable {
    named: NamedTypes,
}

impl Model for TypeTable {
    ghost use Rattle.std.specs.Prelude.{◌≡◌, List};
    ghost use Rattle.std.specs.Coded.{codes};
    ghost use Rattle.ir_core.specs.contracts.types.Ty as ty;
    ghost use Rattle.ir_core.specs.declared.types.Ty.{Ty};
    ghost use Rattle.ir_core.specs.declared.types.TypeId.{TypeId};
    ghost use Rattle.ir_layout.specs.Shapes.{depth_limit};

    ghost Value = { List (TypeId × Ty) };

    ghost coded = { Prim.hlevel (codes, ty.the_row.coded) };

    ghost view = { λ t. t.named.types };

    ghost invariant = { λ t. t.named.rounds ≡ depth_limit };
}

impl TypeTable {
    /// The table of these definitions.
    pub(crate) fn new(alloc: Global, types: &[(TypeId, Ty)]) -> Result<TypeTable, AllocError>
        ensures { IfOk result (λ table. table ≡ types.now) }
    {
        let named = NamedTypes::new(alloc, types)?;
        Ok(TypeTable { named })
    }

    /// The body of a named type.
    pub(crate) fn body(&self, id: TypeId) -> Option<&Ty>
        ensures { option_copied result ≡
            option_map (λ definition. definition.1) (definition_of self.now id.0) }
    {
        self.named.body(id)
    }

    /// The shape of a type, or `None` where it nests too deep.
    pub(crate) fn shape(&self, ty: &Ty) -> Option<KeptShape>
        ensures { result ≡ option_map kept (shape_of self.now ty.now) }
    {
        self.named.shape_within(ty, 16)
    }

    /// The shape of a type, and nothing where it nests too deep.
    pub(crate) fn known_shape(&self, ty: &Ty) -> KeptShape
        ensures { result ≡ kept (known_shape self.now ty.now) }
    {
        match self.shape(ty) {
            Some(shape) => shape,
            None => KeptShape::nothing(),
        }
    }

    /// The limit that a type breaks.
    pub(crate) fn limit(&self, ty: &Ty) -> Option<LimitKind>
        ensures { result ≡ limit_of self.now ty.now }
    {
        match self.shape(ty) {
            None => Some(LimitKind::TypeDepth),
            Some(shape) if shape.large => Some(LimitKind::TypeSize),
            Some(_) => None,
        }
    }
}
