//! What the first token of a part says, where it decides what the rest is.
use ir_core::{BinOp, CastOp, Loc, RmwOp, Sym, TypeId, Width};

/// The first token of a type.
#[derive(Clone, Copy)]
pub enum TypeHead {
    /// `i1` to `i64`.
    Int(Width),
    /// `ptr`
    Ptr,
    /// The name of a struct.
    Named(TypeId),
    /// `[`, and then a count, `x` and the type of the elements.
    Array,
    /// `{`, and then the types of the parts.
    Struct,
}

/// The first token of a result's type.
#[derive(Clone, Copy)]
pub enum ResultHead {
    /// `void`
    Void,
    /// The first token of another type.
    Some(TypeHead),
}

/// The first token of a value.
#[derive(Clone, Copy)]
pub enum ValueHead {
    /// A register.
    Reg(Loc),
    /// An integer in the range of its type, modulo two to the power of the type's width.
    Int(u64),
    /// `null`
    Null,
    /// An `@` name.
    Global(Sym),
    /// `getelementptr`, and then its flags and its operands in parentheses.
    Gep,
}

/// A flag of an operator.
#[derive(Clone, Copy)]
pub enum Flag {
    /// `nuw`: no unsigned wrap.
    Nuw,
    /// `nsw`: no signed wrap.
    Nsw,
    /// `exact`: no remainder.
    Exact,
    /// A flag that is read and dropped.
    Dropped,
}

/// Which flags may stand.
#[derive(Clone, Copy)]
pub enum FlagSet {
    /// Those of an operator.
    Binary(BinOp),
    /// Those of a cast.
    Cast(CastOp),
    /// Those of `getelementptr`.
    Gep,
    /// Those of `icmp`.
    Icmp,
}

/// What a token does to the brackets that stand open.
#[derive(Clone, Copy)]
pub enum Bracket {
    /// `(`, `[` or `{`
    Opens,
    /// `)`, `]` or `}`
    Closes,
}

/// The first token of an attribute.
#[derive(Clone, Copy)]
pub enum AttributeHead {
    /// A word that is a whole attribute.
    Whole,
    /// `align`, and then a number.
    Align,
    /// A word with a number in parentheses.
    Sized,
    /// `captures`, and then `none` in parentheses.
    Captures,
}

/// The word by which an instruction line with a result goes on behind the `=`.
#[derive(Clone, Copy)]
pub enum ResultOpcode {
    Bin(BinOp),
    Icmp,
    Select,
    Cast(CastOp),
    Gep,
    Alloca,
    Load,
    Rmw,
    CmpXchg,
    Extract,
    Call,
    /// `tail` or `notail`, and then `call`.
    MarkedCall,
    Phi,
}

/// The word by which an instruction line without a result begins.
#[derive(Clone, Copy)]
pub enum PlainOpcode {
    Store,
    Fence,
    Call,
    /// `tail` or `notail`, and then `call`.
    MarkedCall,
    Br,
    Switch,
    Ret,
    Unreachable,
}
