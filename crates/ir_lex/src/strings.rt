//! The bytes that a string stands for.
ghost use Rattle.std.specs.Prelude.{◌≡◌, ◌<◌, [], ◌∷◌, length, IfOk, IfSome, IfNone, IsTrue};
ghost use Rattle.ir_core.specs.Strings.{is_hex, hex_value, string_bytes, between_quotes};

use std::alloc::{AllocError, Global};

fn is_hex(byte: u8) -> bool
    ensures { result ≡ is_hex byte }
{
    byte.is_ascii_digit() || (b'a'..=b'f').contains(&byte) || (b'A'..=b'F').contains(&byte)
}

/// The number that a hexadecimal digit writes.
fn hex_value(digit: u8) -> u8
    requires { IsTrue (is_hex digit) }
    ensures value { result ≡ hex_value digit }
    ensures below { result < 16 }
{
    match digit {
        b'0'..=b'9' => digit - b'0',
        b'a'..=b'f' => digit - b'a' + 10,
        _ => digit - b'A' + 10,
    }
}

/// The first byte that the text of a string stands for, and the text behind what stands for it.
#[tactic(auto, unfolding(ir_core::specs::Strings::string_bytes))]
fn next_byte(text: &[u8]) -> Option<(u8, &[u8])>
    ensures byte { IfSome result (λ next. string_bytes text.now ≡ next.0 ∷ string_bytes next.1.now) }
    ensures shorter { IfSome result (λ next. length next.1.now < length text.now) }
    ensures none { IfNone result (string_bytes text.now ≡ []) }
{
    match text {
        [b'\\', high, low, rest @ ..] if is_hex(*high) && is_hex(*low) => {
            Some((hex_value(*high) * 16 + hex_value(*low), rest))
        }
        [b'\\', b'\\', rest @ ..] => Some((b'\\', rest)),
        [byte, rest @ ..] => Some((*byte, rest)),
        [] => None,
    }
}

/// The text between the quotes of a token `c"..."`.
fn between_quotes(token: &[u8]) -> &[u8]
    ensures { result.now ≡ between_quotes token.now }
{
    match token {
        [_, _, inside @ .., _] => inside,
        _ => &[],
    }
}

/// The bytes that the text `c"..."` of a token stands for: from left to right, `\` and two hexadecimal
/// digits is one byte, `\\` is a backslash, and any other byte between the quotes is itself.
pub fn string_bytes(alloc: Global, token: &[u8]) -> Result<Vec<u8>, AllocError>
    ensures { IfOk result (λ bytes. bytes.items ≡ string_bytes (between_quotes token.now)) }
{
    let mut rest = between_quotes(token);
    let mut bytes = Vec::new(alloc);
    'bytes: while let Some((byte, left)) = next_byte(rest) {
        bytes.push(byte)?;
        rest = left;
    }
    Ok(bytes)
}

/// How many bytes the text `c"..."` of a token stands for.
pub fn string_len(token: &[u8]) -> usize
    ensures { result ≡ length (string_bytes (between_quotes token.now)) }
{
    let mut rest = between_quotes(token);
    let mut count = 0;
    'bytes: while let Some((_, left)) = next_byte(rest) {
        count += 1;
        rest = left;
    }
    count
}
