//! Places of names in a text.
use ir_core::{Loc, Seq, Sym, TypeId};

/// Where a name begins in a text, and what it names. The number is the place.
#[derive(Clone, Copy)]
pub enum Place {
    /// A register or a label of a function.
    Local(Loc),
    /// A named type.
    Struct(TypeId),
    /// An `@` name.
    Global(Sym),
}

/// Places in order.
pub type Places = Seq<Place>;
