//! The operators at each width, by tables of cases.
ghost use Rattle.std.specs.Prelude.{◌≡◌, ◌%◌, ◌^◌, ◌<◌, IfOk};
ghost use Rattle.op_table.specs.Operators.{bits, sv, reduced, binary, compares, IsCast, converted, updated};

use crate::OpCause;
use crate::words::Word;
use ir_core::{BinOp, CastOp, Flags, Pred, RmwOp, Width};

/// A function of `Word<W>`, called at the width.
macro_rules! at_width {
    ($width:expr, $function:ident($($argument:expr),+)) => {
        match $width {
            Width::W1 => Word::<1>::$function($($argument),+),
            Width::W8 => Word::<8>::$function($($argument),+),
            Width::W16 => Word::<16>::$function($($argument),+),
            Width::W32 => Word::<32>::$function($($argument),+),
            Width::W64 => Word::<64>::$function($($argument),+),
        }
    };
}

/// How many bits a word has (LLVM Language Reference, 'Integer Type').
#[inline]
pub fn bit_count(w: Width) -> u32
    ensures { result ≡ bits w }
{
    match w {
        Width::W1 => 1,
        Width::W8 => 8,
        Width::W16 => 16,
        Width::W32 => 32,
        Width::W64 => 64,
    }
}

/// What a binary operator gives on two words of `w` bits, or why it has no result; a division that is undefined
/// comes before poison (LLVM Language Reference, 'Binary Operations', 'Bitwise Binary Operations').
#[inline]
pub fn bin(op: BinOp, flags: Flags, w: Width, a: u64, b: u64) -> Result<u64, OpCause>
    requires left { a < 2 ^ bits w }
    requires right { b < 2 ^ bits w }
    ensures value { result ≡ binary op flags (bits w) a b }
    ensures below { IfOk result (λ word. word < 2 ^ bits w) }
{
    at_width!(w, operate(op, flags, a, b))
}

/// Whether a predicate holds of two words of `w` bits; a pointer is a word of 64 bits (LLVM Language Reference,
/// 'icmp' Instruction).
#[inline]
pub fn cmp(pred: Pred, w: Width, a: u64, b: u64) -> bool
    requires left { a < 2 ^ bits w }
    requires right { b < 2 ^ bits w }
    ensures { result ≡ compares pred (bits w) a b }
{
    at_width!(w, compare(pred, a, b))
}

/// The signed value of a word.
fn signed_value(w: Width, a: u64) -> i64
    requires { a < 2 ^ bits w }
    ensures { result ≡ sv (bits w) a }
{
    at_width!(w, signed_value(a))
}

/// A signed number modulo 2^w.
fn signed_word(w: Width, z: i64) -> u64
    ensures value { result ≡ reduced (bits w) z }
    ensures below { result < 2 ^ bits w }
{
    at_width!(w, signed_word(z))
}

/// A number modulo 2^w: the word of `w` bits that it ends in.
#[inline]
pub fn low_word(w: Width, n: u64) -> u64
    ensures value { result ≡ n % 2 ^ bits w }
    ensures below { result < 2 ^ bits w }
{
    at_width!(w, low_word(n))
}

/// What a cast gives on a word of `from` bits, as a word of `to` bits; a pointer is a word of 64 bits (LLVM
/// Language Reference, 'Conversion Operations').
#[inline]
#[tactic(auto, using(std::proofs::lemmas::Nat::pow_below), unfolding(crate::specs::Operators::converted))]
pub fn cast(op: CastOp, from: Width, to: Width, a: u64) -> u64
    requires word { a < 2 ^ bits from }
    requires widths { IsCast op from to }
    ensures value { result ≡ converted op (bits from) (bits to) a }
    ensures below { result < 2 ^ bits to }
{
    match op {
        CastOp::Zext => a,
        CastOp::Sext => signed_word(to, signed_value(from, a)),
        CastOp::Trunc => low_word(to, a),
        CastOp::Ptrtoint => low_word(to, a),
        CastOp::Inttoptr => low_word(to, a),
    }
}

/// The new word of `w` bits that an atomic operation leaves; its own result is the old one (LLVM Language
/// Reference, 'atomicrmw' Instruction).
#[inline]
pub fn rmw(op: RmwOp, w: Width, old: u64, arg: u64) -> u64
    requires old { old < 2 ^ bits w }
    requires argument { arg < 2 ^ bits w }
    ensures value { result ≡ updated op (bits w) old arg }
    ensures below { result < 2 ^ bits w }
{
    at_width!(w, update(op, old, arg))
}
