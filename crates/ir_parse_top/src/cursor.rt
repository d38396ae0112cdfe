//! The lines of a text, one after another, and their tokens.
ghost use Rattle.std.specs.Prelude.{◌≡◌, ◌≤◌, ◌+◌, ◌++◌, ◌<◌, ◌^◌, ℕ, [], length, IfSome, IfNone, OnOk, IsErrOf};
ghost use Rattle.std.specs.List.{AllByRecursion};
ghost use Rattle.ir_core.specs.Tokens.{HasBadColumn, IsWithin};
ghost use Rattle.ir_lex.specs.declared.lex.LexError.TheVariants.{BadByte};
ghost use Rattle.ir_parse_top.specs.Text.{moved, all_moved};
ghost use Rattle.ir_parse_top.specs.Reading.{lines_left, Takes, AddsTokens};

use ir_core::Token;
use ir_lex::{LexError, lex_line, split_line};
use std::alloc::{AllocError, Global};
use std::marker::Model;

/// A line of a text: its number, counted from 1, the place where it begins, and its bytes.
#[derive(Clone, Copy)]
pub(crate) struct TextLine<'a> {
    pub number: u32,
    pub at: u32,
    pub bytes: &'a [u8],
}

/// The lines of a text that are left.
#[derive(Drop)]
pub(crate) struct Lines<'a> {
    text: &'a [u8],
    at: usize,
    number: u32,
}

impl<'a> Model for Lines<'a> {
    ghost use Rattle.ir_parse_top.specs.Reading.{Left, IsKept};

    ghost Value = { Left };

    ghost view = { λ l. record { text = l.text.now; at = l.at; number = l.number } };

    ghost invariant = { λ l. IsKept l.text.now l.at l.number };
}

impl<'a> Lines<'a> {
    /// All lines of a text.
    pub fn new(text: &'a [u8]) -> Lines<'a>
        requires short { length text.now ≤ 4194304 }
        ensures { result ≡ record { text = text.now; at = 0; number = 1 } }
    {
        Lines {
            text,
            at: 0,
            number: 1,
        }
    }

    /// The text of which these are lines.
    pub fn text(&self) -> &'a [u8]
        ensures text { result.now ≡ self.now.text }
        ensures short { length self.now.text ≤ 4194304 }
        ensures few { self.now.number < 2 ^ 32 }
    {
        self.text
    }

    /// The number of the next line, and behind the last line one more than its number.
    pub fn number(&self) -> u32
        ensures { result ≡ self.now.number }
    {
        self.number
    }

    /// Takes the next line.
    pub fn next(&mut self) -> Option<TextLine<'a>>
        ensures some { IfSome result (λ line.
            Takes (record { at = line.at; bytes = line.bytes.now }) line.number self.old self.new) }
        ensures none { IfNone result ((lines_left self.old ≡ []) × (self.new ≡ self.old)) }
        ensures text { self.new.text ≡ self.old.text }
        ensures short { length self.old.text ≤ 4194304 }
        ensures within { self.new.at ≤ length self.old.text + 1 }
    {
        if self.at >= self.text.len() {
            return None;
        }
        let (bytes, _) = split_line(&self.text[self.at..])?;
        let line = TextLine {
            number: self.number,
            at: self.at as u32,
            bytes,
        };
        self.at += bytes.len() + 1;
        self.number += 1;
        Some(line)
    }
}

/// A token of a line that begins at this place, told by its place in the text.
fn moved(token: &Token, at: u32) -> Token
    requires within { IsWithin 4194304 token.now }
    requires small { at ≤ 4194304 }
    ensures { result ≡ moved at token.now }
{
    Token {
        kind: token.kind,
        start: at + token.start,
        end: at + token.end,
    }
}

/// Adds tokens of a line that begins at this place.
fn add_moved(tokens: &[Token], at: u32, all: &mut Vec<Token>) -> Result<(), AllocError>
    requires within { AllByRecursion (IsWithin 4194304) tokens.now }
    requires small { at ≤ 4194304 }
    ensures { OnOk result (all.new.items ≡ all.old.items ++ all_moved at tokens.now) }
{
    let mut left = tokens;
    'tokens: while let [token, rest @ ..] = left {
        all.push(moved(token, at))?;
        left = rest;
    }
    Ok(())
}

/// Adds the tokens of a line, told by their places in its text.
pub(crate) fn add_tokens(
    alloc: Global,
    line: &TextLine,
    all: &mut Vec<Token>,
) -> Result<(), LexError>
    requires short { line.now.at + length line.now.bytes.now ≤ 4194304 }
    ensures tokens { OnOk result
        (AddsTokens (record { at = line.now.at; bytes = line.now.bytes.now }) all.old.items all.new.items) }
    ensures bad { (column : ℕ)
        → IsErrOf result (BadByte column)
        → HasBadColumn line.now.bytes.now column × (all.new.items ≡ all.old.items) }
{
    let tokens = lex_line(alloc, line.bytes)?;
    add_moved(&tokens, line.at, all)?;
    Ok(())
}
