//! Predicates and atomic operations on words of one width (LLVM Language Reference, 'icmp' and 'atomicrmw'
//! Instruction).
ghost use Rattle.std.specs.Prelude.{◌≡◌, ◌^◌, ◌<◌};
ghost use Rattle.op_table.specs.Operators.{IsWidth, compares, updated};

use crate::words::Word;
use ir_core::{Pred, RmwOp};

impl<const W: u32> Word<W> {
    /// Whether a predicate holds of two words.
    #[tactic(auto, unfolding(crate::specs::Operators::compares))]
    pub(crate) fn compare(pred: Pred, a: u64, b: u64) -> bool
        requires width { IsWidth W }
        requires left { a < 2 ^ W }
        requires right { b < 2 ^ W }
        ensures { result ≡ compares pred W a b }
    {
        let (left, right) = (Self::below(a), Self::below(b));
        match pred {
            Pred::Eq => a == b,
            Pred::Ne => a != b,
            Pred::Ugt => a > b,
            Pred::Uge => a >= b,
            Pred::Ult => a < b,
            Pred::Ule => a <= b,
            Pred::Sgt => left.signed() > right.signed(),
            Pred::Sge => left.signed() >= right.signed(),
            Pred::Slt => left.signed() < right.signed(),
            Pred::Sle => left.signed() <= right.signed(),
        }
    }

    /// The new word of an atomic operation.
    #[tactic(auto, unfolding(crate::specs::Operators::updated))]
    pub(crate) fn update(op: RmwOp, old: u64, arg: u64) -> u64
        requires width { IsWidth W }
        requires old { old < 2 ^ W }
        requires argument { arg < 2 ^ W }
        ensures value { result ≡ updated op W old arg }
        ensures below { result < 2 ^ W }
    {
        let (a, b) = (Self::below(old), Self::below(arg));
        match op {
            RmwOp::Xchg => arg,
            RmwOp::Add => a.sum(&b).get(),
            RmwOp::Sub => a.difference(&b).get(),
            RmwOp::And => Self::wrapped(old & arg).get(),
            RmwOp::Or => Self::wrapped(old | arg).get(),
            RmwOp::Xor => Self::wrapped(old ^ arg).get(),
            RmwOp::Nand => Self::greatest() - (old & arg),
            RmwOp::Max => if a.signed() < b.signed() { arg } else { old },
            RmwOp::Min => if b.signed() < a.signed() { arg } else { old },
            RmwOp::Umax => if old < arg { arg } else { old },
            RmwOp::Umin => if arg < old { arg } else { old },
        }
    }
}
