//! The named types of a module, each found by its number, and their shapes.
ghost use Rattle.std.specs.Prelude.{◌≡◌, ◌+◌, ◌≤◌, ◌<◌, map, IfOk, OnOk, IfSome};
ghost use Rattle.std.specs.Option.{option_map, option_copied};
ghost use Rattle.ir_layout.specs.Shapes.{shape_with, within, named_shape, body_shape, depth_limit, definition_of};
ghost use Rattle.ir_layout.specs.KeptShapes.{kept};
ghost use Rattle.ir_layout.specs.NamedTypes.{ArePlaced};

use crate::shapes::{Align, KeptShape};
use ir_core::{Copied, Seq, Ty, TypeId};
use std::alloc::{AllocError, Global};
use std::collections::HashMap;
use std::marker::Model;

/// The named types of a module with their shapes, where names are followed so many rounds deep.
#[derive(Drop)]
pub(crate) struct NamedTypes {
    types: Seq<(TypeId, Ty)>,
    places: HashMap<u32, usize>,
    shapes: Vec<Option<KeptShape>>,
    rounds: u32,
}

impl Model for NamedTypes {
    ghost use Rattle.std.specs.Coded.{codes};
    ghost use Rattle.ir_core.specs.contracts.types.Ty as ty;
    ghost use Rattle.ir_layout.specs.Followed.{Followed};

    ghost Value = { Followed };

    ghost coded = { Prim.hlevel (codes, ty.the_row.coded) };

    ghost use Rattle.ir_layout.specs.NamedTypes.{ArePlaced, AreKnown};

    ghost view = { λ n. record { types = n.types; rounds = n.rounds } };

    ghost invariant = { λ n. ArePlaced n.types n.places × AreKnown n.types n.rounds n.places n.shapes.items };
}

// The place of each name's definition.
fn places_of(alloc: Global, types: &[(TypeId, Ty)]) -> Result<HashMap<u32, usize>, AllocError>
    ensures { IfOk result (λ places. ArePlaced types.now places) }
{
    let mut places = HashMap::new(alloc);
    for (place, (id, _)) in types.iter().enumerate() {
        places.insert(id.0, place)?;
    }
    Ok(places)
}

// A copy of the definitions.
fn copy_of(alloc: Global, types: &[(TypeId, Ty)]) -> Result<Seq<(TypeId, Ty)>, AllocError>
    ensures { IfOk result (λ copy. copy ≡ types.now) }
{
    let mut copy = Seq::new(alloc);
    for named in types {
        copy.push(named.copy(alloc)?)?;
    }
    Ok(copy)
}

impl NamedTypes {
    /// The named types, followed so far that every type that nests at most as deep as the limit has its shape.
    pub(crate) fn new(alloc: Global, types: &[(TypeId, Ty)]) -> Result<NamedTypes, AllocError>
        ensures { IfOk result (λ named. (named.types ≡ types.now) × (named.rounds ≡ depth_limit)) }
    {
        let mut named = NamedTypes::unfollowed(alloc, types)?;
        for _round in 0..16_u32 {
            named.follow(alloc)?;
        }
        Ok(named)
    }

    // The named types, none of them followed.
    fn unfollowed(alloc: Global, types: &[(TypeId, Ty)]) -> Result<NamedTypes, AllocError>
        ensures { IfOk result (λ named. (named.types ≡ types.now) × (named.rounds ≡ 0)) }
    {
        let places = places_of(alloc, types)?;
        let types = copy_of(alloc, types)?;
        Ok(NamedTypes {
            types,
            places,
            shapes: Vec::new(alloc),
            rounds: 0,
        })
    }

    // Follows names one deeper.
    fn follow(&mut self, alloc: Global) -> Result<(), AllocError>
        requires { self.old.rounds < 16 }
        ensures ok { OnOk result
            (self.new ≡ record self.old { rounds = self.old.rounds + 1 }) }
    {
        let shapes = self.body_shapes(alloc)?;
        self.shapes = shapes;
        self.rounds += 1;
        Ok(())
    }

    // The shapes of the bodies, in order.
    fn body_shapes(&self, alloc: Global) -> Result<Vec<Option<KeptShape>>, AllocError>
        ensures { IfOk result (λ shapes. shapes.items ≡ map
            (λ definition. option_map kept
            (body_shape (named_shape self.now.types self.now.rounds) definition))
            self.now.types) }
    {
        let mut shapes = Vec::with_capacity(alloc, self.types.items().len())?;
        for (_, body) in self.types.items() {
            shapes.push(self.shape_within(body, 16))?;
        }
        Ok(shapes)
    }

    // The shape of a named type.
    fn look_up(&self, id: TypeId) -> Option<KeptShape>
        ensures { result ≡ option_map kept (named_shape self.now.types self.now.rounds id.0) }
    {
        let place = *self.places.get(&id.0)?;
        *self.shapes.get(place)?
    }

    /// The body of a named type.
    pub(crate) fn body(&self, id: TypeId) -> Option<&Ty>
        ensures { option_copied result ≡
            option_map (λ definition. definition.1) (definition_of self.now.types id.0) }
    {
        let place = *self.places.get(&id.0)?;
        let (_, body) = self.types.items().get(place)?;
        Some(body)
    }

    /// The shape of a type that nests at most as deep as the limit.
    pub(crate) fn shape_within(&self, ty: &Ty, limit: u32) -> Option<KeptShape>
        requires { limit ≤ 16 }
        ensures shape { result ≡ option_map kept
            (within limit (shape_with (named_shape self.now.types self.now.rounds) ty.now)) }
        ensures depth { IfSome result (λ shape. shape.depth ≤ limit) }
    {
        match ty {
            Ty::Void => Some(KeptShape::nothing()),
            Ty::Int(width) => Some(KeptShape::scalar(Align::of(*width))),
            Ty::Ptr => Some(KeptShape::scalar(Align::Eight)),
            Ty::Array(count, element) => {
                if limit == 0 {
                    return None;
                }
                let element = self.shape_within(element.get(), limit - 1)?;
                Some(element.array(*count))
            }
            Ty::Struct(parts) => {
                if limit == 0 {
                    return None;
                }
                let mut fields = KeptShape::nothing();
                for part in parts.items() {
                    let field = self.shape_within(part, limit - 1)?;
                    fields = fields.with_field(field);
                }
                Some(fields.into_struct())
            }
            Ty::Named(id) => {
                let shape = self.look_up(*id)?;
                if shape.depth <= limit {
                    Some(shape)
                } else {
                    None
                }
            }
        }
    }
}
