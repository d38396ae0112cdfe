//! Numbers, as words of a width and as counts.
ghost use Rattle.std.specs.Prelude.{◌≡◌, ◌+◌, ◌-◌, ◌*◌, ◌^◌, ◌<◌, ◌≤◌, Some, None, nat_lt, if◌then◌else◌};
ghost use Rattle.ir_grammar.specs.Numbers.{bits, decimal, negative, positive, word_written, count_written, count_of, count};
ghost use Rattle.ir_grammar.specs.Values.{truth, integer_of, integer};
ghost use Rattle.ir_parse_parts.specs.Numbers.{below_2_64, digits_from};
ghost use Rattle.ir_parse_parts.specs.Views.{tok_view};
ghost use Rattle.ir_parse_parts.specs.Reads.{Gave};

use crate::{Reader, Stop, Tok};
use ir_core::{TokKind, Width};

/// The number with one more digit, or `None` from 2^64 on.
fn with_digit(number: u64, digit: u8) -> Option<u64>
    ensures { result ≡ below_2_64 (10 * number + (digit - 48)) }
{
    number
        .checked_mul(10)?
        .checked_add(u64::from(digit.saturating_sub(b'0')))
}

#[tactic(auto, unfolding(crate::specs::Numbers::digits_from))]
fn read_digits(digits: &[u8]) -> Option<u64>
    ensures { result ≡ digits_from 0 digits.now }
{
    let mut number = 0;
    for &digit in digits {
        number = with_digit(number, digit)?;
    }
    Some(number)
}

/// The number that the digits write, or `None` from 2^64 on.
fn magnitude(digits: &[u8]) -> Option<u64>
    ensures { result ≡ below_2_64 (decimal digits.now) }
{
    read_digits(digits)
}

/// The greatest word of the width.
fn greatest(width: Width) -> u64
    ensures { result + 1 ≡ 2 ^ bits width }
{
    match width {
        Width::W1 => 1,
        Width::W8 => 0xff,
        Width::W16 => 0xffff,
        Width::W32 => 0xffff_ffff,
        Width::W64 => 0xffff_ffff_ffff_ffff,
    }
}

/// The least negative number of the width, without its sign.
fn least(width: Width) -> u64
    ensures { result ≡ 2 ^ (bits width - 1) }
{
    match width {
        Width::W1 => 1,
        Width::W8 => 0x80,
        Width::W16 => 0x8000,
        Width::W32 => 0x8000_0000,
        Width::W64 => 0x8000_0000_0000_0000,
    }
}

/// The word of a negative number, by its digits.
fn negative(width: Width, digits: &[u8]) -> Option<u64>
    ensures { result ≡ negative (bits width) (decimal digits.now) }
{
    let number = magnitude(digits)?;
    if number > least(width) {
        return None;
    }
    if number == 0 {
        return Some(0);
    }
    Some(greatest(width) - (number - 1))
}

/// The word of a number without a sign, by its digits.
fn positive(width: Width, digits: &[u8]) -> Option<u64>
    ensures { result ≡ positive (bits width) (decimal digits.now) }
{
    let number = magnitude(digits)?;
    if number > greatest(width) {
        return None;
    }
    Some(number)
}

/// The word that a number's text writes, where it is in the range of the width.
fn word_written(width: Width, text: &[u8]) -> Option<u64>
    ensures { result ≡ word_written (bits width) text.now }
{
    match text {
        [] => None,
        [b'-', digits @ ..] => negative(width, digits),
        _ => positive(width, text),
    }
}

/// `true` and `false`, the integers of `i1`.
fn truth(width: Width, word: &[u8]) -> Option<u64>
    ensures { result ≡ truth width word.now }
{
    match width {
        Width::W1 if word == b"true".as_slice() => Some(1),
        Width::W1 if word == b"false".as_slice() => Some(0),
        _ => None,
    }
}

/// The word of the width that a token writes.
pub(crate) fn integer_of(width: Width, tok: &Tok) -> Option<u64>
    ensures { result ≡ integer_of width (tok_view tok.now) }
{
    match tok.kind {
        TokKind::Num => word_written(width, tok.text),
        TokKind::Word => truth(width, tok.text),
        _ => None,
    }
}

/// A count without a sign of at most `last`.
fn count_written(last: u64, text: &[u8]) -> Option<u64>
    ensures { result ≡ count_written (last + 1) text.now }
{
    match text {
        [] | [b'-', ..] => None,
        _ => magnitude(text).filter(|count| *count <= last),
    }
}

fn count_of(last: u64, tok: &Tok) -> Option<u64>
    ensures { result ≡ count_of (last + 1) (tok_view tok.now) }
{
    match tok.kind {
        TokKind::Num => count_written(last, tok.text),
        _ => None,
    }
}

impl Reader<'_> {
    /// A number of the width, or `true` or `false` of `i1`.
    pub fn integer(&mut self, width: Width) -> Result<u64, Stop>
        ensures { Gave result self.new ((integer width).reads self.old) }
    {
        let found = match self.peek() {
            Some(tok) => integer_of(width, &tok),
            None => None,
        };
        self.take(found)
    }

    /// 0 or 1.
    pub fn bit(&mut self) -> Result<u8, Stop>
        ensures { Gave result self.new ((count 2).reads self.old) }
    {
        let bit = self.count(1)?;
        Ok(bit as u8)
    }

    /// A count without a sign of at most `last`.
    pub fn count(&mut self, last: u64) -> Result<u64, Stop>
        ensures { Gave result self.new ((count (last + 1)).reads self.old) }
    {
        let found = match self.peek() {
            Some(tok) => count_of(last, &tok),
            None => None,
        };
        self.take(found)
    }
}
