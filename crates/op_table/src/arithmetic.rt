//! The binary operators on words of one width (LLVM Language Reference, 'Binary Operations', 'Bitwise
//! Binary Operations').
ghost use Rattle.std.specs.Prelude.{◌≡◌, ◌+◌, ◌*◌, ◌%◌, ◌^◌, ◌<◌, ◌≤◌, ◌+ℤ◌, ◌-ℤ◌, ◌*ℤ◌, pos, false, ◌==◌, ◌&&◌, int_div, int_rem, IfOk};
ghost use Rattle.std.specs.Int.{int_div_euclid};
ghost use Rattle.op_table.specs.Operators.{IsWidth, sv, is_word, is_signed, is_divide, reduced, least, minus_one, binary};

use crate::OpCause;
use crate::words::{Word, lies_within, low_bits, quotient_and_remainder, signed_low_bits};
use ir_core::{BinOp, Flags};

/// Whether a number of 64 bits, if it is one, is a word.
macro_rules! is_word {
    ($whole:expr) => {
        match $whole {
            Some(n) => n <= Self::greatest(),
            None => false,
        }
    };
}

/// Whether a signed number of 64 bits, if it is one, is the signed value of a word.
macro_rules! is_signed {
    ($whole:expr) => {
        match $whole {
            Some(z) => Self::is_signed(z),
            None => false,
        }
    };
}

/// Returns poison where one of the conditions holds.
macro_rules! poison_if {
    ($($broken:expr),+) => {
        $(if $broken {
            return Err(OpCause::Poison);
        })+
    };
}

impl<const W: u32> Word<W> {
    /// Whether the sum is a word.
    fn sum_is_word(&self, other: &Self) -> bool
        requires { IsWidth W }
        ensures { result ≡ is_word W (self.now + other.now) }
    {
        is_word!(self.get().checked_add(other.get()))
    }

    /// Whether the sum of the signed values is a signed value.
    fn sum_is_signed(&self, other: &Self) -> bool
        requires { IsWidth W }
        ensures { result ≡ is_signed W (sv W self.now +ℤ sv W other.now) }
    {
        is_signed!(self.signed().checked_add(other.signed()))
    }

    /// Whether the difference of the signed values is a signed value.
    fn difference_is_signed(&self, other: &Self) -> bool
        requires { IsWidth W }
        ensures { result ≡ is_signed W (sv W self.now -ℤ sv W other.now) }
    {
        is_signed!(self.signed().checked_sub(other.signed()))
    }

    /// Whether the product is a word.
    fn product_is_word(&self, other: &Self) -> bool
        requires { IsWidth W }
        ensures { result ≡ is_word W (self.now * other.now) }
    {
        is_word!(self.get().checked_mul(other.get()))
    }

    /// Whether the product of the signed values is a signed value.
    fn product_is_signed(&self, other: &Self) -> bool
        requires { IsWidth W }
        ensures { result ≡ is_signed W (sv W self.now *ℤ sv W other.now) }
    {
        is_signed!(self.signed().checked_mul(other.signed()))
    }

    /// The sum modulo 2^W.
    #[tactic(auto, using(crate::proofs::Powers::mod_again))]
    pub(crate) fn sum(&self, other: &Self) -> Self
        requires { IsWidth W }
        ensures { result ≡ (self.now + other.now) % 2 ^ W }
    {
        Self::wrapped(self.get().wrapping_add(other.get()))
    }

    /// The difference modulo 2^W.
    #[tactic(auto, using(crate::proofs::Powers::difference_mod))]
    pub(crate) fn difference(&self, other: &Self) -> Self
        requires { IsWidth W }
        ensures { result ≡ reduced W (pos self.now -ℤ pos other.now) }
    {
        Self::wrapped(self.get().wrapping_sub(other.get()))
    }

    /// The product modulo 2^W.
    #[tactic(auto, using(crate::proofs::Powers::mod_again))]
    fn product(&self, other: &Self) -> Self
        requires { IsWidth W }
        ensures { result ≡ (self.now * other.now) % 2 ^ W }
    {
        Self::wrapped(self.get().wrapping_mul(other.get()))
    }

    /// 'add' Instruction.
    #[tactic(auto, unfolding(crate::specs::Operators::binary))]
    fn add(&self, other: &Self, flags: Flags) -> Result<Self, OpCause>
        requires { IsWidth W }
        ensures { result ≡ binary BinOp.Add flags W self.now other.now }
    {
        poison_if!(
            flags.nuw && !self.sum_is_word(other),
            flags.nsw && !self.sum_is_signed(other)
        );
        Ok(self.sum(other))
    }

    /// 'sub' Instruction.
    #[tactic(auto, unfolding(crate::specs::Operators::binary))]
    fn sub(&self, other: &Self, flags: Flags) -> Result<Self, OpCause>
        requires { IsWidth W }
        ensures { result ≡ binary BinOp.Sub flags W self.now other.now }
    {
        poison_if!(
            flags.nuw && self.get() < other.get(),
            flags.nsw && !self.difference_is_signed(other)
        );
        Ok(self.difference(other))
    }

    /// 'mul' Instruction.
    #[tactic(auto, unfolding(crate::specs::Operators::binary))]
    fn mul(&self, other: &Self, flags: Flags) -> Result<Self, OpCause>
        requires { IsWidth W }
        ensures { result ≡ binary BinOp.Mul flags W self.now other.now }
    {
        poison_if!(
            flags.nuw && !self.product_is_word(other),
            flags.nsw && !self.product_is_signed(other)
        );
        Ok(self.product(other))
    }

    /// 'udiv' Instruction.
    #[tactic(auto, unfolding(crate::specs::Operators::binary))]
    fn udiv(&self, other: &Self, flags: Flags) -> Result<Self, OpCause>
        requires { IsWidth W }
        ensures { result ≡ binary BinOp.Udiv flags W self.now other.now }
    {
        let (a, b) = (self.get(), other.get());
        if b == 0 {
            return Err(OpCause::Divide);
        }
        poison_if!(flags.exact && a % b != 0);
        Ok(Self::wrapped(a / b))
    }

    /// 'urem' Instruction. It has no flags.
    #[tactic(auto, unfolding(crate::specs::Operators::binary))]
    fn urem(&self, other: &Self, flags: Flags) -> Result<Self, OpCause>
        requires { IsWidth W }
        ensures { result ≡ binary BinOp.Urem flags W self.now other.now }
    {
        let (a, b) = (self.get(), other.get());
        if b == 0 {
            return Err(OpCause::Divide);
        }
        Ok(Self::wrapped(a % b))
    }

    /// Whether the signed quotient is past the greatest signed value.
    fn quotient_overflows(&self, other: &Self) -> bool
        requires { IsWidth W }
        ensures { result ≡ (self.now == least W && other.now == minus_one W) }
    {
        self.get() == Self::half() && other.get() == Self::greatest()
    }

    /// The signed quotient, toward zero, and its remainder, which has the dividend's sign.
    fn signed_quotient(&self, other: &Self) -> (i64, i64)
        requires width { IsWidth W }
        requires divides { is_divide BinOp.Sdiv W self.now other.now ≡ false }
        ensures quotient { result.0 ≡ int_div (sv W self.now) (sv W other.now) }
        ensures remainder { result.1 ≡ int_rem (sv W self.now) (sv W other.now) }
    {
        quotient_and_remainder(self.signed(), other.signed())
    }

    /// 'sdiv' Instruction.
    #[tactic(auto, unfolding(crate::specs::Operators::binary))]
    fn sdiv(&self, other: &Self, flags: Flags) -> Result<Self, OpCause>
        requires { IsWidth W }
        ensures { result ≡ binary BinOp.Sdiv flags W self.now other.now }
    {
        if other.get() == 0 || self.quotient_overflows(other) {
            return Err(OpCause::Divide);
        }
        let (quotient, remainder) = self.signed_quotient(other);
        poison_if!(flags.exact && remainder.unsigned_abs() != 0);
        Ok(Self::wrapped_signed(quotient))
    }

    /// 'srem' Instruction. It has no flags.
    #[tactic(auto, unfolding(crate::specs::Operators::binary))]
    fn srem(&self, other: &Self, flags: Flags) -> Result<Self, OpCause>
        requires { IsWidth W }
        ensures { result ≡ binary BinOp.Srem flags W self.now other.now }
    {
        if other.get() == 0 || self.quotient_overflows(other) {
            return Err(OpCause::Divide);
        }
        let (_, remainder) = self.signed_quotient(other);
        Ok(Self::wrapped_signed(remainder))
    }

    /// Whether the number times 2^by is a word.
    fn shifted_is_word(&self, by: &Self) -> bool
        requires width { IsWidth W }
        requires shift { by.now < W }
        ensures { result ≡ is_word W (self.now * 2 ^ by.now) }
    {
        self.get() <= Self::greatest() >> by.get()
    }

    /// Whether the signed value times 2^by is a signed value.
    fn shifted_is_signed(&self, by: &Self) -> bool
        requires width { IsWidth W }
        requires shift { by.now < W }
        ensures { result ≡ is_signed W (sv W self.now *ℤ pos (2 ^ by.now)) }
    {
        lies_within(self.signed(), Self::half() >> by.get())
    }

    /// The number times 2^by, modulo 2^W.
    #[tactic(auto, using(crate::proofs::Powers::mod_again))]
    fn shifted_left(&self, by: &Self) -> Self
        requires width { IsWidth W }
        requires shift { by.now < W }
        ensures { result ≡ (self.now * 2 ^ by.now) % 2 ^ W }
    {
        Self::wrapped(self.get() << by.get())
    }

    /// The signed value divided by 2^by, rounded down.
    fn shifted_down(&self, by: &Self) -> Self
        requires width { IsWidth W }
        requires shift { by.now < W }
        ensures { result ≡ reduced W (int_div_euclid (sv W self.now) (pos (2 ^ by.now))) }
    {
        Self::wrapped_signed(self.signed() >> by.get())
    }

    /// The remainder that such a division leaves.
    fn signed_low_bits(&self, by: &Self) -> u64
        requires width { IsWidth W }
        requires shift { by.now < W }
        ensures { result ≡ reduced by.now (sv W self.now) }
    {
        signed_low_bits(self.signed(), by.get())
    }

    /// 'shl' Instruction.
    #[tactic(auto, unfolding(crate::specs::Operators::binary))]
    fn shl(&self, by: &Self, flags: Flags) -> Result<Self, OpCause>
        requires { IsWidth W }
        ensures { result ≡ binary BinOp.Shl flags W self.now by.now }
    {
        poison_if!(
            by.get() >= W as u64,
            flags.nuw && !self.shifted_is_word(by),
            flags.nsw && !self.shifted_is_signed(by)
        );
        Ok(self.shifted_left(by))
    }

    /// 'lshr' Instruction.
    #[tactic(auto, unfolding(crate::specs::Operators::binary))]
    fn lshr(&self, by: &Self, flags: Flags) -> Result<Self, OpCause>
        requires { IsWidth W }
        ensures { result ≡ binary BinOp.Lshr flags W self.now by.now }
    {
        poison_if!(
            by.get() >= W as u64,
            flags.exact && low_bits(self.get(), by.get()) != 0
        );
        Ok(Self::wrapped(self.get() >> by.get()))
    }

    /// 'ashr' Instruction.
    #[tactic(auto, unfolding(crate::specs::Operators::binary))]
    fn ashr(&self, by: &Self, flags: Flags) -> Result<Self, OpCause>
        requires { IsWidth W }
        ensures { result ≡ binary BinOp.Ashr flags W self.now by.now }
    {
        poison_if!(
            by.get() >= W as u64,
            flags.exact && self.signed_low_bits(by) != 0
        );
        Ok(self.shifted_down(by))
    }

    /// A binary operator on two words.
    #[tactic(auto, unfolding(crate::specs::Operators::binary))]
    pub(crate) fn binary(op: BinOp, flags: Flags, a: &Self, b: &Self) -> Result<Self, OpCause>
        requires { IsWidth W }
        ensures { result ≡ binary op flags W a.now b.now }
    {
        match op {
            BinOp::Add => a.add(b, flags),
            BinOp::Sub => a.sub(b, flags),
            BinOp::Mul => a.mul(b, flags),
            BinOp::Udiv => a.udiv(b, flags),
            BinOp::Sdiv => a.sdiv(b, flags),
            BinOp::Urem => a.urem(b, flags),
            BinOp::Srem => a.srem(b, flags),
            BinOp::Shl => a.shl(b, flags),
            BinOp::Lshr => a.lshr(b, flags),
            BinOp::Ashr => a.ashr(b, flags),
            BinOp::And => Ok(Self::wrapped(a.get() & b.get())),
            BinOp::Or => Ok(Self::wrapped(a.get() | b.get())),
            BinOp::Xor => Ok(Self::wrapped(a.get() ^ b.get())),
        }
    }

    /// A binary operator on the words of two numbers.
    pub(crate) fn operate(op: BinOp, flags: Flags, a: u64, b: u64) -> Result<u64, OpCause>
        requires width { IsWidth W }
        requires left { a < 2 ^ W }
        requires right { b < 2 ^ W }
        ensures value { result ≡ binary op flags W a b }
        ensures below { IfOk result (λ word. word < 2 ^ W) }
    {
        match Self::binary(op, flags, &Self::below(a), &Self::below(b)) {
            Ok(word) => Ok(word.get()),
            Err(cause) => Err(cause),
        }
    }
}
