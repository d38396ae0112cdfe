//! Names in a text.
ghost use Rattle.std.specs.Prelude.{◌≡◌, ◌≤◌, length};
ghost use Rattle.ir_core.specs.TokenLengths.{name_from};

use crate::lengths::name_len;

/// The longest name that begins at a place of the text; empty where none does.
pub fn name_from(text: &[u8], at: usize) -> &[u8]
    requires { at ≤ length text.now }
    ensures { result.now ≡ name_from text.now at }
{
    let rest = &text[at..];
    &rest[..name_len(rest)]
}
