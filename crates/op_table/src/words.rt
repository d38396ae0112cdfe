//! Words of so many bits, and their signed values.
ghost use Rattle.std.specs.Prelude.{◌≡◌, ◌+◌, ◌-◌, ◌%◌, ◌^◌, ◌<◌, ◌≤◌, ◌↔◌, IsTrue, SomeIff, int_div, int_rem};
ghost use Rattle.std.specs.Int.{w64, CanDivide};
ghost use Rattle.op_table.specs.Operators.{IsWidth, sv, reduced, is_within, is_signed};

use std::marker::Model;

/// A whole number below 2^W: a word of W bits. Contracts see the number.
#[derive(Clone, Copy)]
pub struct Word<const W: u32> {
    number: u64,
}

impl<const W: u32> Model for Word<W> {
    ghost use Rattle.std.specs.Prelude.{ℕ, ◌^◌, ◌<◌};

    ghost Value = { ℕ };

    ghost view = { λ w. w.number };

    ghost invariant = { λ w. w.number < 2 ^ W };

    ghost inverse = { λ n. record { number = n } };
}

/// The lowest bits of a word of 64 bits.
pub fn low_bits(n: u64, count: u64) -> u64
    requires { count < 64 }
    ensures { result ≡ n % 2 ^ count }
{
    n & ((1 << count) - 1)
}

/// A signed number modulo 2^count.
pub fn signed_low_bits(z: i64, count: u64) -> u64
    requires { count < 64 }
    ensures { result ≡ reduced count z }
{
    low_bits(z.cast_unsigned(), count)
}

/// A signed quotient, toward zero, and its remainder, which has the dividend's sign.
pub fn quotient_and_remainder(a: i64, b: i64) -> (i64, i64)
    requires { CanDivide w64 a b }
    ensures quotient { result.0 ≡ int_div a b }
    ensures remainder { result.1 ≡ int_rem a b }
{
    (a / b, a % b)
}

/// Whether a number is below 2^count.
#[tactic(auto, using(crate::proofs::Powers::below_from_shift, crate::proofs::Powers::shift_from_below))]
fn is_below(n: u64, count: u32) -> bool
    ensures { IsTrue result ↔ (n < 2 ^ count) }
{
    count >= 64 || n >> count == 0
}

/// Whether -half ≤ z < half.
pub fn lies_within(z: i64, half: u64) -> bool
    requires positive { 1 ≤ half }
    requires fits { half ≤ 2 ^ 63 }
    ensures { result ≡ is_within half z }
{
    z.cast_unsigned().wrapping_add(half) <= half - 1 + half
}

impl<const W: u32> Word<W> {
    /// The word of a number, where the number is below 2^W.
    pub fn new(v: u64) -> Option<Self>
        ensures { SomeIff result (v < 2 ^ W) v }
    {
        if is_below(v, W) {
            Some(Word { number: v })
        } else {
            None
        }
    }

    /// The number.
    pub fn get(&self) -> u64
        ensures same { result ≡ self.now }
        ensures below { result < 2 ^ W }
    {
        self.number
    }

    /// The word of a number that is below 2^W.
    pub(crate) fn below(v: u64) -> Self
        requires { v < 2 ^ W }
        ensures { result ≡ v }
    {
        Word { number: v }
    }

    /// The greatest word.
    pub(crate) fn greatest() -> u64
        requires { IsWidth W }
        ensures { result ≡ 2 ^ W - 1 }
    {
        u64::MAX >> (64 - W)
    }

    /// The word that has the highest bit alone: the least signed value.
    pub(crate) fn half() -> u64
        requires { IsWidth W }
        ensures { result ≡ 2 ^ (W - 1) }
    {
        1 << (W - 1)
    }

    /// A number modulo 2^W.
    pub(crate) fn wrapped(n: u64) -> Self
        requires { IsWidth W }
        ensures { result ≡ n % 2 ^ W }
    {
        Word {
            number: n & Self::greatest(),
        }
    }

    /// The signed value.
    pub(crate) fn signed(&self) -> i64
        requires { IsWidth W }
        ensures value { result ≡ sv W self.now }
        ensures below { self.now < 2 ^ W }
    {
        if self.number < Self::half() {
            self.number.cast_signed()
        } else {
            self.number
                .wrapping_sub(Self::greatest())
                .wrapping_sub(1)
                .cast_signed()
        }
    }

    /// A signed number modulo 2^W.
    pub(crate) fn wrapped_signed(z: i64) -> Self
        requires { IsWidth W }
        ensures { result ≡ reduced W z }
    {
        Self::wrapped(z.cast_unsigned())
    }

    /// Whether a signed number is the signed value of a word.
    pub(crate) fn is_signed(z: i64) -> bool
        requires { IsWidth W }
        ensures { result ≡ is_signed W z }
    {
        lies_within(z, Self::half())
    }

    /// The signed value of the word of a number.
    pub(crate) fn signed_value(n: u64) -> i64
        requires width { IsWidth W }
        requires word { n < 2 ^ W }
        ensures { result ≡ sv W n }
    {
        Self::below(n).signed()
    }

    /// The word of a signed number modulo 2^W.
    pub(crate) fn signed_word(z: i64) -> u64
        requires { IsWidth W }
        ensures value { result ≡ reduced W z }
        ensures below { result < 2 ^ W }
    {
        Self::wrapped_signed(z).get()
    }

    /// The word of a number modulo 2^W.
    pub(crate) fn low_word(n: u64) -> u64
        requires { IsWidth W }
        ensures value { result ≡ n % 2 ^ W }
        ensures below { result < 2 ^ W }
    {
        Self::wrapped(n).get()
    }
}
