//! The tokens of a `switch` over several lines (LLVM Language Reference, 'switch Instruction').
ghost use Rattle.std.specs.Prelude.{◌≡◌, ◌≤◌, ◌+◌, ◌<◌, ◌^◌, [], length, codes, IfOk, IfErr, IfSome, IfNone};
ghost use Rattle.std.specs.List.{list_any, AllByRecursion};
ghost use Rattle.ir_core.specs.Tokens.{AreWithin, IsWithin};
ghost use Rattle.ir_grammar.specs.Parts.{heads};
ghost use Rattle.ir_grammar.specs.Tokens.{token_of, tokens_of, is_punct, is_word};
ghost use Rattle.ir_parse_parts.specs.Views.{tok_view};
ghost use Rattle.ir_grammar.specs.Fitting.{IsLine};
ghost use Rattle.ir_grammar.specs.Top.{body_line};
ghost use Rattle.ir_parse_top.specs.Text.{is_unclosed};
ghost use Rattle.ir_parse_top.specs.Text as texts;
ghost use Rattle.ir_parse_top.specs.Reading.{AreSound, GrowsBy, ComesTo, Gathers, Blames, fault_at, count_until, Told, IsAt};
ghost use Rattle.ir_parse_top.specs.declared.switches.Pause.TheVariants as pauses;

use crate::ParseError;
use crate::cursor::{Lines, add_tokens};
use crate::errors::{refused, refused_at};
use ir_core::Token;
use ir_grammar::BodyLine;
use ir_lex::LexError;
use ir_parse_lines::read_body_line;
use ir_parse_parts::{LineError, Tok};
use std::alloc::{AllocError, Global};

/// Why no more tokens of a `switch` were taken.
#[derive(Clone, Copy)]
pub(crate) enum Pause {
    /// Its brackets were closed.
    Closed,
    /// No token begins at this column of the next line.
    AtColumn(u32),
    /// The text ended.
    AtEnd,
}

/// A token of the text with its own text.
fn token_of<'a>(text: &'a [u8], token: &Token) -> Tok<'a>
    requires short { length text.now ≤ 4194304 }
    requires within { IsWithin (length text.now) token.now }
    ensures { tok_view result ≡ token_of text.now token.now }
{
    Tok {
        kind: token.kind,
        text: &text[token.start as usize..token.end as usize],
        at: token.start,
    }
}

/// Whether one of the tokens is this punctuation.
fn has_punct(text: &[u8], tokens: &[Token], byte: u8) -> bool
    requires short { length text.now ≤ 4194304 }
    requires within { AllByRecursion (IsWithin (length text.now)) tokens.now }
    ensures { result ≡ list_any (is_punct byte) (tokens_of text.now tokens.now) }
{
    let mut left = tokens;
    'tokens: while let [token, rest @ ..] = left {
        if token_of(text, token).is_punct(byte) {
            return true;
        }
        left = rest;
    }
    false
}

/// Whether the first token is the word `switch`.
fn at_switch(text: &[u8], tokens: &[Token]) -> bool
    requires short { length text.now ≤ 4194304 }
    requires within { AllByRecursion (IsWithin (length text.now)) tokens.now }
    ensures { result ≡ heads (is_word (codes "switch")) (tokens_of text.now tokens.now) }
{
    match tokens {
        [token, ..] => token_of(text, token).is_word(b"switch"),
        [] => false,
    }
}

/// Whether the tokens begin a `switch` and its brackets, and don't close them.
pub(crate) fn is_unclosed(text: &[u8], tokens: &[Token]) -> bool
    requires short { length text.now ≤ 4194304 }
    requires within { AllByRecursion (IsWithin (length text.now)) tokens.now }
    ensures { result ≡ is_unclosed (tokens_of text.now tokens.now) }
{
    at_switch(text, tokens) && has_punct(text, tokens, b'[') && !has_punct(text, tokens, b']')
}

/// Takes one more line of a `switch`, and its tokens. Tells the pause, where there is one.
fn gather_line(
    alloc: Global,
    lines: &mut Lines,
    tokens: &mut Vec<Token>,
) -> Result<Option<Pause>, AllocError>
    requires sound { AreSound lines.old tokens.old.items }
    ensures more { IfOk result (λ pause.
        IfNone pause (GrowsBy lines.old lines.new tokens.old.items tokens.new.items)) }
    ensures over { IfOk result (λ pause.
        IfSome pause (ComesTo lines.old lines.new tokens.old.items tokens.new.items)) }
    ensures text { lines.new.text ≡ lines.old.text }
    ensures at { lines.new.at ≤ length lines.old.text + 1 }
{
    let count = tokens.as_slice().len();
    let Some(line) = lines.next() else {
        return Ok(Some(Pause::AtEnd));
    };
    match add_tokens(alloc, &line, tokens) {
        Ok(()) => {}
        Err(LexError::BadByte(column)) => return Ok(Some(Pause::AtColumn(column))),
        Err(LexError::NoMemory) => return Err(AllocError),
    }
    if has_punct(lines.text(), &tokens.as_slice()[count..], b']') {
        return Ok(Some(Pause::Closed));
    }
    Ok(None)
}

/// Takes the lines of a `switch` up to a pause, with their tokens. The counts are how many of these there were before
/// each of the lines.
pub(crate) fn gather(
    alloc: Global,
    lines: &mut Lines,
    tokens: &mut Vec<Token>,
    counts: &mut Vec<usize>,
) -> Result<Pause, AllocError>
    requires sound { AreSound lines.old tokens.old.items }
    requires none { counts.old.items ≡ [] }
    ensures gathered { IfOk result (Gathers lines.old lines.new tokens.old.items tokens.new.items counts.new.items) }
    ensures text { lines.new.text ≡ lines.old.text }
{
    'lines: loop {
        counts.push(tokens.as_slice().len())?;
        if let Some(pause) = gather_line(alloc, lines, tokens)? {
            return Ok(pause);
        }
    }
}

fn count_until(counts: &[usize], k: usize) -> usize
    ensures count { result ≡ count_until k counts.now }
    ensures within { result ≤ length counts.now }
{
    counts.iter().take_while(|count| **count <= k).count()
}

/// The refusal of a line whose tokens fit so far, at a pause.
fn paused(alloc: Global, line: u32, pause: Pause) -> ParseError
    ensures { Told (IsAt line (fault_at pause)) result }
{
    match pause {
        Pause::AtColumn(col) => ParseError::BadByte { line, col },
        Pause::Closed | Pause::AtEnd => refused(alloc, line, b"end"),
    }
}

/// The line that the tokens of a `switch` stand for, whose first line has this number.
pub(crate) fn judge(
    alloc: Global,
    text: &[u8],
    number: u32,
    tokens: &[Token],
    counts: &[usize],
    pause: Pause,
) -> Result<BodyLine, ParseError>
    requires short { length text.now ≤ 4194304 }
    requires within { AreWithin (length text.now) tokens.now }
    requires small { number + length counts.now < 2 ^ 32 }
    ensures line { IfOk result (λ line.
        IsLine body_line.means (tokens_of text.now tokens.now) line × (pause ≡ pauses.Closed)) }
    ensures err { IfErr result (Told (Blames text.now number tokens.now counts.now pause)) }
{
    match read_body_line(alloc, text, tokens) {
        Ok(line) => match pause {
            Pause::Closed => Ok(line),
            Pause::AtColumn(_) | Pause::AtEnd => {
                drop(line);
                Err(paused(alloc, number, pause))
            }
        },
        Err(LineError::Unfit(k)) if k < tokens.len() => {
            let line = number + count_until(counts, k) as u32;
            Err(refused_at(alloc, text, line, tokens, k))
        }
        Err(LineError::Unfit(_)) => Err(paused(alloc, number + counts.len() as u32, pause)),
        Err(LineError::NoMemory) => Err(ParseError::NoMemory),
    }
}
