//! Lines outside functions, one after another.
ghost use Rattle.std.specs.Prelude.{◌≡◌, ◌≤◌, ℕ, length, IfOk, IfErr, IfSome, IfNone};
ghost use Rattle.ir_core.specs.Tokens.{AreWithin};
ghost use Rattle.ir_core.specs.declared.text.LinePlace.TheVariants.{Top};
ghost use Rattle.ir_grammar.specs.Fitting.{IsLine, IsUnfit};
ghost use Rattle.ir_grammar.specs.Tokens.{tokens_of};
ghost use Rattle.ir_grammar.specs.Top.{top_line};
ghost use Rattle.ir_parse_top.specs.Text.{word_at};
ghost use Rattle.ir_parse_top.specs.Reading.{FindsTop, FindsNothing, TripsOutside, Told};

use crate::ParseError;
use crate::cursor::Lines;
use crate::errors::refused_at;
use crate::passing::next_text;
use ir_core::{LinePlace, Token};
use ir_grammar::TopLine;
use ir_parse_lines::read_top_line;
use ir_parse_parts::LineError;
use std::alloc::Global;

/// What the tokens of a line outside functions stand for.
fn top_of(alloc: Global, text: &[u8], number: u32, tokens: &[Token]) -> Result<TopLine, ParseError>
    requires short { length text.now ≤ 4194304 }
    requires within { AreWithin (length text.now) tokens.now }
    ensures line { IfOk result (IsLine top_line.means (tokens_of text.now tokens.now)) }
    ensures err { IfErr result (Told (λ n fault.
        (n ≡ number)
        × ((k : ℕ)
        × IsUnfit top_line.means (tokens_of text.now tokens.now) k
        × (fault ≡ word_at text.now tokens.now k)))) }
{
    match read_top_line(alloc, text, tokens) {
        Ok(line) => Ok(line),
        Err(LineError::Unfit(k)) => Err(refused_at(alloc, text, number, tokens, k)),
        Err(LineError::NoMemory) => Err(ParseError::NoMemory),
    }
}

/// What the next line outside functions says; nothing where none says anything.
pub(crate) fn next_top(alloc: Global, lines: &mut Lines) -> Result<Option<TopLine>, ParseError>
    ensures found { IfOk result (λ found. IfSome found (FindsTop lines.old lines.new)) }
    ensures nothing { IfOk result (λ found. IfNone found (FindsNothing Top lines.old lines.new)) }
    ensures err { IfErr result (Told (TripsOutside lines.old)) }
{
    let mut tokens = Vec::new(alloc);
    match next_text(alloc, LinePlace::Top, lines, &mut tokens)? {
        Some(number) => {
            let line = top_of(alloc, lines.text(), number, &tokens)?;
            Ok(Some(line))
        }
        None => Ok(None),
    }
}
