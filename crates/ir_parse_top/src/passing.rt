//! Lines that say something, behind those that are dropped or blank.
ghost use Rattle.std.specs.Prelude.{◌≡◌, ◌≤◌, ◌+◌, ℕ, [], length, IfOk, IfErr, IfSome, IfNone, OnOk};
ghost use Rattle.ir_core.specs.Tokens.{HasBadColumn};
ghost use Rattle.ir_parse_top.specs.Text as texts;
ghost use Rattle.ir_parse_top.specs.Reading.{AddsTokens, FindsText, FindsNothing, FindsBad, Told};

use crate::ParseError;
use crate::cursor::{Lines, TextLine, add_tokens};
use ir_core::{LinePlace, Token};
use ir_lex::{LexError, is_dropped};
use std::alloc::Global;

/// Adds the tokens of a line, told by their places in its text.
fn add_line(alloc: Global, line: &TextLine, tokens: &mut Vec<Token>) -> Result<(), ParseError>
    requires short { line.now.at + length line.now.bytes.now ≤ 4194304 }
    ensures tokens { OnOk result
        (AddsTokens (record { at = line.now.at; bytes = line.now.bytes.now }) tokens.old.items tokens.new.items) }
    ensures err { IfErr result (Told (λ n fault.
        (n ≡ line.now.number)
        × ((column : ℕ) × HasBadColumn line.now.bytes.now column × (fault ≡ texts.BadByte column)))) }
{
    match add_tokens(alloc, line, tokens) {
        Ok(()) => Ok(()),
        Err(LexError::BadByte(col)) => Err(ParseError::BadByte {
            line: line.number,
            col,
        }),
        Err(LexError::NoMemory) => Err(ParseError::NoMemory),
    }
}

/// Takes lines up to the next one at this place that is neither dropped nor without tokens, adds these, and
/// gives its number; nothing where there is no such line.
pub(crate) fn next_text(
    alloc: Global,
    place: LinePlace,
    lines: &mut Lines,
    tokens: &mut Vec<Token>,
) -> Result<Option<u32>, ParseError>
    requires { tokens.old.items ≡ [] }
    ensures found { IfOk result (λ found. IfSome found (λ number. FindsText place lines.old lines.new number tokens.new.items)) }
    ensures nothing { IfOk result (λ found. IfNone found (FindsNothing place lines.old lines.new)) }
    ensures err { IfErr result (Told (FindsBad place lines.old)) }
{
    'lines: while let Some(line) = lines.next() {
        if is_dropped(place, line.bytes) {
            continue;
        }
        add_line(alloc, &line, tokens)?;
        match tokens.as_slice() {
            [] => {}
            [_, ..] => return Ok(Some(line.number)),
        }
    }
    Ok(None)
}
