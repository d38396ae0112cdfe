//! Types, and the numbers by which a module names things (LLVM Language Reference, 'Type System').
use crate::Seq;
pub use sqlite_items::Boxed;

/// A thread of the run. Thread 0 runs `main`; a run has at most 64.
#[derive(Clone, Copy, PartialEq, Eq)]
pub struct Tid(pub u32);

/// An `@` name of a module: a global, a declare or a function.
#[derive(Clone, Copy, PartialEq, Eq)]
pub struct Sym(pub u32);

/// A named struct type of a module.
#[derive(Clone, Copy, PartialEq, Eq)]
pub struct TypeId(pub u32);

/// A `%` name of one function: a register or a label.
#[derive(Clone, Copy, PartialEq, Eq)]
pub struct Loc(pub u32);

/// The widths of integers, in bits.
#[derive(Clone, Copy, PartialEq, Eq)]
pub enum Width {
    /// `i1`
    W1,
    /// `i8`
    W8,
    /// `i16`
    W16,
    /// `i32`
    W32,
    /// `i64`
    W64,
}

/// A type (LLVM Language Reference, 'Type System').
#[derive(Drop)]
pub enum Ty {
    /// `void`, the result of a function that gives none.
    Void,
    /// An integer type, as `i64`.
    Int(Width),
    /// `ptr`
    Ptr,
    /// `[ N x T ]`: so many elements of one type.
    Array(u64, Boxed<Ty>),
    /// `{ T, .. }`: a struct by its parts.
    Struct(Tys),
    /// `%name`: a struct that the module names.
    Named(TypeId),
}

/// Types in order, as the parts of a struct or the parameters of a function.
pub type Tys = Seq<Ty>;
