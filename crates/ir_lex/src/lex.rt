//! Lines, cut into tokens from the left.
ghost use Rattle.std.specs.Prelude.{◌≡◌, ◌≤◌, ℕ, length, IfOk, IsErrOf};
ghost use Rattle.ir_core.specs.Tokens.{HasTokens, HasBadColumn, AreWithin};
ghost use Rattle.ir_lex.specs.declared.lex.LexError.TheVariants.{BadByte, NoMemory};

use crate::Token;
use crate::lengths::{is_blank, longest};
use std::alloc::{AllocError, AllocFailed, Global};
use thiserror::Error;

/// Why a line has no tokens.
#[derive(Debug, Drop, Error)]
pub enum LexError {
    /// No token begins at this column, counted from 1.
    #[error("bad byte at column {0}")]
    BadByte(u32),
    /// Memory for the tokens was refused.
    #[error("no memory")]
    NoMemory,
}

impl From<AllocError> for LexError {
    ghost from_gives = { λ _ e. e ≡ NoMemory };

    fn from(_: AllocError) -> LexError {
        LexError::NoMemory
    }
}

impl<T: Drop> From<AllocFailed<T>> for LexError {
    ghost from_gives = { λ _ e. e ≡ NoMemory };

    fn from(_: AllocFailed<T>) -> LexError {
        LexError::NoMemory
    }
}

/// The tokens of a line, or the first column at which no token begins.
pub fn lex_line(alloc: Global, line: &[u8]) -> Result<Vec<Token>, LexError>
    requires { length line.now ≤ 4194304 }
    ensures tokens { IfOk result (λ tokens. HasTokens line.now tokens.items) }
    ensures bad { (column : ℕ) → IsErrOf result (BadByte column) → HasBadColumn line.now column }
    ensures within { IfOk result (λ tokens. AreWithin (length line.now) tokens.items) }
{
    cut(alloc, line)
}

fn cut(alloc: Global, line: &[u8]) -> Result<Vec<Token>, LexError>
    requires { length line.now ≤ 4194304 }
    ensures tokens { IfOk result (λ tokens. HasTokens line.now tokens.items) }
    ensures bad { (column : ℕ) → IsErrOf result (BadByte column) → HasBadColumn line.now column }
{
    let mut tokens = Vec::new(alloc);
    let mut first = true;
    let mut at = 0;
    'places: while at < line.len() && line[at] != b';' {
        if is_blank(line[at]) {
            at += 1;
            continue;
        }
        let (kind, len) = longest(first, &line[at..]);
        if len == 0 {
            return Err(LexError::BadByte(at as u32 + 1));
        }
        let end = at + len;
        tokens.push(Token {
            kind,
            start: at as u32,
            end: end as u32,
        })?;
        first = false;
        at = end;
    }
    Ok(tokens)
}
