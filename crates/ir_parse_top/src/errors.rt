//! Why a text stands for no module.
ghost use Rattle.std.specs.Prelude.{◌≡◌, length};
ghost use Rattle.ir_core.specs.Tokens.{AreWithin};
ghost use Rattle.ir_parse_top.specs.Text.{word_at};
ghost use Rattle.ir_parse_top.specs.Reading.{Told, IsAt};
ghost use Rattle.ir_parse_top.specs.declared.errors.ParseError.TheVariants.{NoMemory};
ghost use Rattle.ir_parse_top.specs.Text as texts;

use ir_core::{Name, Token};
use std::alloc::{AllocError, AllocFailed, Global};

/// Why a text stands for no module. Lines and columns are counted from 1.
#[derive(Drop)]
pub enum ParseError {
    /// A line fits no form at its place. The word is the text of its first token that can't stand there, or `end` where
    /// its tokens end too early. Where the text ends inside a function, the line is the one behind the last.
    Refused { line: u32, word: Name },
    /// No token begins at this column of a line.
    BadByte { line: u32, col: u32 },
    /// Memory was refused.
    NoMemory,
}

impl From<AllocError> for ParseError {
    ghost from_gives = { λ _ e. e ≡ NoMemory };

    fn from(_: AllocError) -> ParseError {
        ParseError::NoMemory
    }
}

impl<T: Drop> From<AllocFailed<T>> for ParseError {
    ghost from_gives = { λ _ e. e ≡ NoMemory };

    fn from(_: AllocFailed<T>) -> ParseError {
        ParseError::NoMemory
    }
}

/// The refusal of a line for a word.
pub(crate) fn refused(alloc: Global, line: u32, word: &[u8]) -> ParseError
    ensures { Told (IsAt line (texts.BadWord word.now)) result }
{
    match Name::new(alloc, word) {
        Ok(word) => ParseError::Refused { line, word },
        Err(_) => ParseError::NoMemory,
    }
}

/// The text of the token at a place, `end` behind the last one.
fn word_at<'a>(text: &'a [u8], tokens: &[Token], k: usize) -> &'a [u8]
    requires within { AreWithin (length text.now) tokens.now }
    ensures { texts.BadWord result.now ≡ word_at text.now tokens.now k }
{
    match tokens.get(k) {
        Some(token) => &text[token.start as usize..token.end as usize],
        None => b"end".as_slice(),
    }
}

/// The refusal of a line for the token at a place.
pub(crate) fn refused_at(
    alloc: Global,
    text: &[u8],
    line: u32,
    tokens: &[Token],
    k: usize,
) -> ParseError
    requires within { AreWithin (length text.now) tokens.now }
    ensures { Told (IsAt line (word_at text.now tokens.now k)) result }
{
    refused(alloc, line, word_at(text, tokens, k))
}
