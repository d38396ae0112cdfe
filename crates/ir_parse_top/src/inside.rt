//! Lines inside functions, one after another.
ghost use Rattle.std.specs.Prelude.{◌≡◌, ◌≤◌, ◌+◌, ℕ, true, length, IfOk, IfErr};
ghost use Rattle.ir_core.specs.Tokens.{AreWithin};
ghost use Rattle.ir_core.specs.declared.text.LinePlace.TheVariants.{Function};
ghost use Rattle.ir_grammar.specs.Fitting.{IsLine, IsUnfit};
ghost use Rattle.ir_grammar.specs.Tokens.{tokens_of};
ghost use Rattle.ir_grammar.specs.Top.{body_line};
ghost use Rattle.ir_parse_top.specs.Text.{is_unclosed, word_at};
ghost use Rattle.ir_parse_top.specs.Reading.{Left, AreSound, FindsText, FindsBody, TripsInside, Told};

use crate::ParseError;
use crate::cursor::Lines;
use crate::errors::{refused, refused_at};
use crate::passing::next_text;
use crate::switches::{gather, is_unclosed, judge};
use ir_core::{LinePlace, Token};
use ir_grammar::BodyLine;
use ir_parse_lines::read_body_line;
use ir_parse_parts::LineError;
use std::alloc::Global;

/// What the tokens of a line inside a function stand for.
fn body_of(
    alloc: Global,
    text: &[u8],
    number: u32,
    tokens: &[Token],
) -> Result<BodyLine, ParseError>
    requires short { length text.now ≤ 4194304 }
    requires within { AreWithin (length text.now) tokens.now }
    ensures line { IfOk result (IsLine body_line.means (tokens_of text.now tokens.now)) }
    ensures err { IfErr result (Told (λ n fault.
        (n ≡ number)
        × ((k : ℕ)
        × IsUnfit body_line.means (tokens_of text.now tokens.now) k
        × (fault ≡ word_at text.now tokens.now k)))) }
{
    match read_body_line(alloc, text, tokens) {
        Ok(line) => Ok(line),
        Err(LineError::Unfit(k)) => Err(refused_at(alloc, text, number, tokens, k)),
        Err(LineError::NoMemory) => Err(ParseError::NoMemory),
    }
}

/// What a `switch` says whose first line, with this number, leaves its brackets open.
fn switch_of(
    alloc: Global,
    lines: &mut Lines,
    number: u32,
    tokens: Vec<Token>,
) -> Result<BodyLine, ParseError>
    requires sound { AreSound lines.old tokens.items }
    requires next { lines.old.number ≡ number + 1 }
    ensures line { (old : Left)
        → FindsText Function old lines.old number tokens.items
        → is_unclosed (tokens_of old.text tokens.items) ≡ true
        → IfOk result (FindsBody old lines.new) }
    ensures err { (old : Left)
        → FindsText Function old lines.old number tokens.items
        → is_unclosed (tokens_of old.text tokens.items) ≡ true
        → IfErr result (Told (TripsInside old)) }
{
    let mut tokens = tokens;
    let mut counts = Vec::new(alloc);
    let pause = gather(alloc, lines, &mut tokens, &mut counts)?;
    judge(alloc, lines.text(), number, &tokens, &counts, pause)
}

/// What a line says that begins by these tokens, and goes on over further lines if it is a `switch`.
fn body_from(
    alloc: Global,
    lines: &mut Lines,
    number: u32,
    tokens: Vec<Token>,
) -> Result<BodyLine, ParseError>
    requires sound { AreSound lines.old tokens.items }
    requires next { lines.old.number ≡ number + 1 }
    ensures line { (old : Left)
        → FindsText Function old lines.old number tokens.items
        → IfOk result (FindsBody old lines.new) }
    ensures err { (old : Left)
        → FindsText Function old lines.old number tokens.items
        → IfErr result (Told (TripsInside old)) }
{
    if is_unclosed(lines.text(), &tokens) {
        switch_of(alloc, lines, number, tokens)
    } else {
        body_of(alloc, lines.text(), number, &tokens)
    }
}

/// What the next line inside a function says that says something.
pub(crate) fn next_body(alloc: Global, lines: &mut Lines) -> Result<BodyLine, ParseError>
    ensures line { IfOk result (FindsBody lines.old lines.new) }
    ensures err { IfErr result (Told (TripsInside lines.old)) }
{
    let mut tokens = Vec::new(alloc);
    match next_text(alloc, LinePlace::Function, lines, &mut tokens)? {
        Some(number) => body_from(alloc, lines, number, tokens),
        None => Err(refused(alloc, lines.number(), b"end")),
    }
}
