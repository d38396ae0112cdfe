//! Numbers and registers, as single fields.
ghost use Rattle.std.specs.Prelude.{◌≡◌, ◌<◌, ◌^◌, IfSome};
ghost use Rattle.std.specs.List.{list_all};
ghost use Rattle.std.specs.Option.{option_map};
ghost use Rattle.ir_core.specs.Tokens.{is_digit, is_letter, begins_name, is_name_byte, is_name};
ghost use Rattle.sched_file.specs.Reading.{with_digit, number_from, number_in, number_below, side_in, register_in};

use ir_core::Side;

/// Two to the power of 64.
pub(crate) const WORDS: u128 = 18_446_744_073_709_551_616;

/// The number with one more digit, or `None` where it would be too great.
#[tactic(auto, unfolding(crate::specs::Reading::with_digit))]
fn with_digit(number: u128, digit: u8) -> Option<u128>
    ensures { result ≡ with_digit number digit }
{
    if !digit.is_ascii_digit() {
        return None;
    }
    number
        .checked_mul(10)?
        .checked_add(u128::from(digit - b'0'))
}

/// The number that the field writes, below two to the power of 128.
#[tactic(auto, unfolding(crate::specs::Reading::number_in, crate::specs::Reading::number_from))]
pub(crate) fn number(field: &[u8]) -> Option<u128>
    ensures { result ≡ number_in field.now }
{
    if field.is_empty() {
        return None;
    }
    let mut number = 0;
    for &digit in field {
        number = with_digit(number, digit)?;
    }
    Some(number)
}

/// The number that the field writes, where it is below the limit.
#[tactic(auto, unfolding(crate::specs::Reading::number_below))]
pub(crate) fn number_below(limit: u128, field: &[u8]) -> Option<u128>
    ensures number { result ≡ number_below limit field.now }
    ensures below { IfSome result (λ n. n < limit) }
{
    let number = number(field)?;
    if number < limit { Some(number) } else { None }
}

fn is_letter(byte: u8) -> bool
    ensures { result ≡ is_letter byte }
{
    byte.is_ascii_lowercase() || byte.is_ascii_uppercase()
}

fn begins_name(byte: u8) -> bool
    ensures { result ≡ begins_name byte }
{
    is_letter(byte) || byte == b'-' || byte == b'$' || byte == b'.' || byte == b'_'
}

fn is_name_byte(byte: u8) -> bool
    ensures { result ≡ is_name_byte byte }
{
    begins_name(byte) || byte.is_ascii_digit()
}

fn are_digits(bytes: &[u8]) -> bool
    ensures { result ≡ list_all is_digit bytes.now }
{
    bytes.iter().all(|byte| byte.is_ascii_digit())
}

fn are_name_bytes(bytes: &[u8]) -> bool
    ensures { result ≡ list_all is_name_byte bytes.now }
{
    bytes.iter().all(|byte| is_name_byte(*byte))
}

fn is_name(bytes: &[u8]) -> bool
    ensures { result ≡ is_name bytes.now }
{
    match bytes {
        [] => false,
        [first, rest @ ..] => begins_name(*first) && are_name_bytes(rest) || are_digits(bytes),
    }
}

#[tactic(auto, unfolding(crate::specs::Reading::side_in))]
fn side(byte: u8) -> Option<Side>
    ensures { result ≡ side_in byte }
{
    match byte {
        b'm' => Some(Side::M),
        b's' => Some(Side::S),
        _ => None,
    }
}

/// The side and the name of a register that is written as `m.x` or `s.x`.
#[tactic(auto, unfolding(crate::specs::Reading::register_in))]
pub(crate) fn register(field: &[u8]) -> Option<(Side, &[u8])>
    ensures { option_map (λ x. (x.0, x.1.now)) result ≡ register_in field.now }
{
    match field {
        [first, b'.', name @ ..] if is_name(name) => Some((side(*first)?, name)),
        _ => None,
    }
}
