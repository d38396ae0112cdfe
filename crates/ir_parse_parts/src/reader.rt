//! The tokens of a line that are left, and single tokens.
ghost use Rattle.std.specs.Prelude.{◌≡◌, ◌≤◌, Bool, true, not, Ok, length, drop};
ghost use Rattle.std.specs.Option.{option_map, option_and_then};
ghost use Rattle.ir_grammar.specs.Tokens.{tokens_of, word_of, is_punct, is_word, is_bang, is_hash, is_local, punct, bang, keyword, local};
ghost use Rattle.ir_parse_parts.specs.declared.stops.Stop.TheVariants.{Unfit};
ghost use Rattle.ir_core.specs.Tokens.{AreWithin};
ghost use Rattle.ir_grammar.specs.Parts.{first, taken, heads, optional, ends};
ghost use Rattle.ir_grammar.specs.Top.{is_at};
ghost use Rattle.ir_grammar.specs.Fitting.{bracket_of, open_behind, shallow_front};
ghost use Rattle.ir_parse_parts.specs.Reads.{Gave, Passed};
ghost use Rattle.ir_parse_parts.specs.Views.{tok_view};

use crate::{Stop, Tok, word_table};
use ir_core::{Loc, TokKind, Token};
use ir_grammar::Bracket;
use std::alloc::Global;
use std::marker::Model;

/// How many brackets may stand open at once.
const MOST_OPEN: u32 = 64;

/// What a token does to brackets.
fn bracket_of(tok: &Tok) -> Option<Bracket>
    ensures { result ≡ bracket_of (tok_view tok.now) }
{
    match tok.kind {
        TokKind::Punct => {
            let text = tok.text;
            word_table!(text;
                b"(" => Bracket::Opens, b"[" => Bracket::Opens, b"{" => Bracket::Opens,
                b")" => Bracket::Closes, b"]" => Bracket::Closes, b"}" => Bracket::Closes)
        }
        _ => None,
    }
}

/// How many brackets stand open behind a token where so many do before it, if no more than may.
fn open_behind(bracket: Option<Bracket>, before: u32) -> Option<u32>
    ensures { result ≡ open_behind bracket before }
{
    match bracket {
        None => Some(before),
        Some(Bracket::Opens) if before < MOST_OPEN => Some(before + 1),
        Some(Bracket::Opens) => None,
        Some(Bracket::Closes) => Some(before.saturating_sub(1)),
    }
}

/// The tokens of a line that are left.
#[derive(Drop)]
pub struct Reader<'a> {
    alloc: Global,
    line: &'a [u8],
    tokens: &'a [Token],
}

impl<'a> Model for Reader<'a> {
    ghost use Rattle.std.specs.Prelude.{List};
    ghost use Rattle.ir_grammar.specs.Parts.{Tok};
    ghost use Rattle.ir_grammar.specs.Tokens.{tokens_of};
    ghost use Rattle.ir_parse_parts.specs.Kept.{IsKept};

    ghost Value = { List Tok };

    ghost view = { λ r. tokens_of r.line.now r.tokens.now };

    ghost invariant = { λ r. IsKept r.line.now r.tokens.now };
}

impl<'a> Reader<'a> {
    /// A reader of the tokens of a line before the first that opens a bracket too many.
    pub fn new(alloc: Global, line: &'a [u8], tokens: &'a [Token]) -> Reader<'a>
        requires short { length line.now ≤ 4194304 }
        requires within { AreWithin (length line.now) tokens.now }
        ensures { result ≡ shallow_front 0 (tokens_of line.now tokens.now) }
    {
        let all = Reader {
            alloc,
            line,
            tokens,
        };
        Reader {
            alloc,
            line,
            tokens: &tokens[..all.shallow_len()],
        }
    }

    /// How many tokens are left.
    pub fn len(&self) -> usize
        ensures { result ≡ length self.now }
    {
        self.tokens.len()
    }

    /// How many tokens stand before the first that opens a bracket too many.
    fn shallow_len(&self) -> usize
        ensures { result ≡ length (shallow_front 0 self.now) }
    {
        let mut ahead = self.again();
        let mut standing = 0;
        'tokens: while let Some(behind) = ahead.open_behind_next(standing) {
            standing = behind;
            ahead.skip();
        }
        self.len() - ahead.len()
    }

    /// How many brackets stand open behind the next token where so many do before it, if no more than may.
    fn open_behind_next(&self, before: u32) -> Option<u32>
        ensures { result ≡ option_and_then (λ t. open_behind (bracket_of t) before) (first self.now) }
    {
        match self.peek() {
            Some(tok) => open_behind(bracket_of(&tok), before),
            None => None,
        }
    }

    /// A reader of the same tokens.
    fn again(&self) -> Reader<'a>
        ensures { result ≡ self.now }
    {
        Reader {
            alloc: self.alloc,
            line: self.line,
            tokens: self.tokens,
        }
    }

    /// The next token.
    pub fn peek(&self) -> Option<Tok<'a>>
        ensures { option_map tok_view result ≡ first self.now }
    {
        let token = self.tokens.first()?;
        Some(Tok {
            kind: token.kind,
            text: &self.line[token.start as usize..token.end as usize],
            at: token.start,
        })
    }

    /// Goes past the next token, where there is one.
    pub fn skip(&mut self)
        ensures { self.new ≡ drop 1 self.old }
    {
        if let [_, rest @ ..] = self.tokens {
            self.tokens = rest;
        }
    }

    /// The next token can't stand there.
    pub fn unfit(&self) -> Stop
        ensures { result ≡ Unfit (length self.now) }
    {
        Stop::Unfit(self.tokens.len())
    }

    /// The next token as what was found of it, where it was found to be something.
    pub fn take<T>(&mut self, found: Option<T>) -> Result<T, Stop>
        ensures { Gave result self.new (taken found self.old) }
    {
        match found {
            Some(value) => {
                self.skip();
                Ok(value)
            }
            None => Err(self.unfit()),
        }
    }

    /// Whether the next token is this punctuation.
    pub fn at_punct(&self, byte: u8) -> bool
        ensures { result ≡ heads (is_punct byte) self.now }
    {
        match self.peek() {
            Some(tok) => tok.is_punct(byte),
            None => false,
        }
    }

    /// Whether there is a next token, and it is another one than this punctuation.
    pub fn at_other(&self, byte: u8) -> bool
        ensures { result ≡ heads (λ t. not (is_punct byte t)) self.now }
    {
        match self.peek() {
            Some(tok) => !tok.is_punct(byte),
            None => false,
        }
    }

    /// Whether the next token is this word.
    pub fn at_word(&self, word: &[u8]) -> bool
        ensures { result ≡ heads (is_word word.now) self.now }
    {
        match self.peek() {
            Some(tok) => tok.is_word(word),
            None => false,
        }
    }

    /// Whether the next token is a `%` name.
    pub fn at_local(&self) -> bool
        ensures { result ≡ heads is_local self.now }
    {
        matches!(
            self.peek(),
            Some(Tok {
                kind: TokKind::Local,
                ..
            })
        )
    }

    /// Whether the next token is an `@` name.
    pub fn at_symbol(&self) -> bool
        ensures { result ≡ heads is_at self.now }
    {
        matches!(
            self.peek(),
            Some(Tok {
                kind: TokKind::At,
                ..
            })
        )
    }

    /// Whether the token behind the next one is a `!` name.
    pub(crate) fn bang_behind(&self) -> bool
        ensures { result ≡ heads is_bang (drop 1 self.now) }
    {
        match self.tokens {
            [_, second, ..] => matches!(second.kind, TokKind::Bang),
            _ => false,
        }
    }

    /// A `!` name.
    pub fn bang(&mut self) -> Result<(), Stop>
        ensures { Passed result self.new (bang.reads self.old) }
    {
        match self.peek() {
            Some(
                Tok {
                    kind: TokKind::Bang,
                    ..
                },
            ) => {
                self.skip();
                Ok(())
            }
            _ => Err(self.unfit()),
        }
    }

    /// The end of the line.
    pub fn end(&self) -> Result<(), Stop>
        ensures { Passed result self.now ((ends true).reads self.now) }
    {
        match self.peek() {
            None => Ok(()),
            Some(_) => Err(self.unfit()),
        }
    }

    /// Goes past a `#` token, where it is next, and tells whether it was.
    pub fn optional_hash(&mut self) -> bool
        ensures { (optional is_hash).reads self.old ≡ Ok (result, self.new) }
    {
        let found = matches!(
            self.peek(),
            Some(Tok {
                kind: TokKind::Hash,
                ..
            })
        );
        if found {
            self.skip();
        }
        found
    }

    /// The punctuation.
    pub fn punct(&mut self, byte: u8) -> Result<(), Stop>
        ensures { Passed result self.new ((punct byte).reads self.old) }
    {
        if self.at_punct(byte) {
            self.skip();
            return Ok(());
        }
        Err(self.unfit())
    }

    /// The word.
    pub fn keyword(&mut self, word: &[u8]) -> Result<(), Stop>
        ensures { Passed result self.new ((keyword word.now).reads self.old) }
    {
        if self.at_word(word) {
            self.skip();
            return Ok(());
        }
        Err(self.unfit())
    }

    /// Goes past the word, where it is next, and tells whether it was.
    pub fn optional_word(&mut self, word: &[u8]) -> bool
        ensures { (optional (is_word word.now)).reads self.old ≡ Ok (result, self.new) }
    {
        let found = self.at_word(word);
        if found {
            self.skip();
        }
        found
    }

    /// A register or a label: the place of its name.
    pub fn local(&mut self) -> Result<Loc, Stop>
        ensures { Gave result self.new (local.reads self.old) }
    {
        let found = match self.peek() {
            Some(tok) => tok.local(),
            None => None,
        };
        self.take(found)
    }

    /// The allocator of what is read.
    pub fn alloc(&self) -> Global {
        self.alloc
    }

    /// The text of the next token, where it is a word.
    pub fn word(&self) -> Option<&'a [u8]>
        ensures { option_map (λ word. word.now) result ≡ option_and_then word_of (first self.now) }
    {
        match self.peek() {
            Some(
                Tok {
                    kind: TokKind::Word,
                    text,
                    ..
                },
            ) => Some(text),
            _ => None,
        }
    }
}
