//! The ends of lines.
ghost use Rattle.std.specs.Prelude.{◌≡◌, Bool, true, drop};
ghost use Rattle.ir_grammar.specs.Parts.{ends, heads, skipped};
ghost use Rattle.ir_grammar.specs.Tokens.{is_punct, is_bang, is_hash, bang, comma};
ghost use Rattle.ir_grammar.specs.Tails.{goes_on, metadata, tail, align_tail};
ghost use Rattle.ir_parse_parts.specs.Reads.{Passed};

use crate::{Reader, Stop};

impl Reader<'_> {
    /// A comma, and behind it no metadata: more of the instruction follows.
    pub fn goes_on(&self) -> bool
        ensures { result ≡ goes_on self.now }
    {
        self.at_punct(b',') && !self.bang_behind()
    }

    fn metadata(&mut self) -> Result<(), Stop>
        ensures { Passed result self.new (metadata.reads self.old) }
    {
        self.punct(b',')?;
        self.bang()?;
        self.bang()
    }

    fn metadata_pairs(&mut self) -> Result<(), Stop>
        ensures { Passed result self.new ((skipped (heads (is_punct comma)) metadata).reads self.old) }
    {
        'pairs: while self.at_punct(b',') {
            self.metadata()?;
        }
        Ok(())
    }

    /// Metadata, any number of times, and then the end of the line.
    #[tactic(auto, unfolding(ir_grammar::specs::Tails::tail))]
    pub fn tail(&mut self) -> Result<(), Stop>
        ensures { Passed result self.new (tail.reads self.old) }
    {
        self.metadata_pairs()?;
        self.end()
    }

    /// `, align N` or none, and then the end of the line.
    #[tactic(auto, unfolding(ir_grammar::specs::Tails::align_tail))]
    pub fn align_tail(&mut self) -> Result<(), Stop>
        ensures { Passed result self.new (align_tail.reads self.old) }
    {
        if self.goes_on() {
            self.punct(b',')?;
            self.keyword(b"align")?;
            self.count(0xffff_ffff_ffff_ffff)?;
            return self.tail();
        }
        self.tail()
    }
}
