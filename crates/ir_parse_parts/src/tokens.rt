//! A token with its text.
ghost use Rattle.std.specs.Prelude.{◌<◌};

use ir_core::{Loc, TokKind};

/// A token with its text.
#[derive(Clone, Copy)]
pub struct Tok<'a> {
    pub kind: TokKind,
    pub text: &'a [u8],
    /// Where the token begins, in bytes from the start of the line.
    pub at: u32,
    ghost below: { at < 4294967295 },
}

impl Tok<'_> {
    ghost use Rattle.std.specs.Prelude.{◌≡◌};
    ghost use Rattle.ir_grammar.specs.Tokens.{name_place, is_punct, is_word, local_of};
    ghost use Rattle.ir_parse_parts.specs.Views.{tok_view};

    /// Where the name of a `%` or `@` token begins.
    pub fn name_place(&self) -> u32
        ensures { result ≡ name_place (tok_view self.now) }
    {
        self.at + 1
    }

    pub fn is_punct(&self, byte: u8) -> bool
        ensures { result ≡ is_punct byte (tok_view self.now) }
    {
        match self.kind {
            TokKind::Punct => self.text == [byte].as_slice(),
            _ => false,
        }
    }

    pub fn is_word(&self, word: &[u8]) -> bool
        ensures { result ≡ is_word word.now (tok_view self.now) }
    {
        match self.kind {
            TokKind::Word => self.text == word,
            _ => false,
        }
    }

    pub(crate) fn local(&self) -> Option<Loc>
        ensures { result ≡ local_of (tok_view self.now) }
    {
        match self.kind {
            TokKind::Local => Some(Loc(self.name_place())),
            _ => None,
        }
    }
}
