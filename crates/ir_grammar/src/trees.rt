//! What whole lines stand for.
use ir_core::{Declare, GlobalVar, Inst, Loc, Seq, Sym, Ty, TypeId};

/// Parameters of a function in order, each with the place of its name where one is written.
pub type Params = Seq<(Ty, Option<Loc>)>;

/// The line that begins a function (LLVM Language Reference, 'Functions').
#[derive(Drop)]
pub struct Head {
    pub sym: Sym,
    pub ret: Ty,
    pub params: Params,
}

/// A line outside functions. A name is told by the place where it begins.
#[derive(Drop)]
pub enum TopLine {
    /// A named struct type.
    Type(TypeId, Ty),
    /// A global variable.
    Global(GlobalVar),
    /// An external function.
    Declare(Declare),
    /// The line that begins a function.
    Define(Head),
}

/// A line inside a function.
#[derive(Drop)]
pub enum BodyLine {
    /// A label begins a block.
    Label(Loc),
    /// `}` ends the function.
    End,
    /// An instruction.
    Inst(Inst),
}

/// The first token of an initialiser.
#[derive(Clone, Copy)]
pub enum InitHead {
    /// `zeroinitializer`
    Zero,
    /// An integer of the type, modulo two to the power of its width.
    Int(u64),
    /// `null`
    Null,
    /// An `@` name.
    Addr(Sym),
    /// `getelementptr`, and then its flags and its operands in parentheses.
    Gep,
    /// `c"..."`, as many bytes as the array has.
    Bytes,
    /// `[`, and then parts up to a `]`.
    Array,
    /// `{`, and then parts up to a `}`.
    Struct,
}

/// The word by which a line outside functions begins.
#[derive(Clone, Copy)]
pub enum TopWord {
    Declare,
    Define,
}

/// The first token of what stands behind the parameters and says nothing.
#[derive(Clone, Copy)]
pub enum TailHead {
    /// A word or a `#` token that is all.
    Whole,
    /// A `!` name, and then another one.
    Metadata,
}
