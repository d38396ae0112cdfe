//! Operands, initialisers and the globals that have them, and what a run gives out.
use crate::{Loc, Name, Seq, Sym, Ty, Tys, Width};

/// An operand of an instruction.
#[derive(Drop)]
pub enum Val {
    /// A register of the function.
    Reg(Loc),
    /// An integer, below two to the power of its type's width.
    Int(u64),
    /// The null pointer.
    Null,
    /// The address of a global, or a function as a value.
    Global(Sym),
    /// A constant `getelementptr`.
    Gep(ConstGep),
}

/// `getelementptr ( T , ptr @g , iN K .. )` with constant indices
/// (LLVM Language Reference, 'Constant Expressions').
#[derive(Drop)]
pub struct ConstGep {
    pub base: Ty,
    pub sym: Sym,
    pub index: Indices,
}

/// Constant indices, each with the width of its type.
pub type Indices = Seq<(Width, u64)>;

/// A global variable and its first contents.
#[derive(Drop)]
pub struct GlobalVar {
    pub sym: Sym,
    pub ty: Ty,
    pub init: Init,
}

/// An initialiser of a global.
#[derive(Drop)]
pub enum Init {
    /// `zeroinitializer`
    Zero,
    /// An integer, below two to the power of its type's width.
    Int(u64),
    /// `null`
    Null,
    /// The address of a global.
    Addr(Sym),
    /// An address inside a global.
    Gep(ConstGep),
    /// `c"..."`, the bytes of an array of `i8`.
    Bytes(Name),
    /// The parts of an array or of a struct.
    Parts(Inits),
}

/// Initialisers in order, each with its type.
pub type Inits = Seq<(Ty, Init)>;

/// An external function, by its name and signature.
#[derive(Drop)]
pub struct Declare {
    pub sym: Sym,
    pub ret: Ty,
    pub params: Tys,
}

/// The two flows of a hardened program.
#[derive(Clone, Copy, PartialEq, Eq)]
pub enum Side {
    /// The master flow, `%m.x` in hardened text.
    M,
    /// The shadow flow, `%s.x` in hardened text.
    S,
}

/// One output of a run.
#[derive(Clone, Copy, PartialEq, Eq)]
pub enum Out {
    /// A number given to `haft_out`.
    Num(u64),
    /// A byte given to `putchar`.
    Put(u8),
}
