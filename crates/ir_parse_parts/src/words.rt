//! Flags, attributes and orders.
ghost use Rattle.std.specs.Prelude.{◌≡◌, Ok};
ghost use Rattle.std.specs.List.{list_any};
ghost use Rattle.std.specs.Str.{bytes_eq};
ghost use Rattle.std.specs.Option.{option_and_then};
ghost use Rattle.ir_grammar.specs.Parts.{first};
ghost use Rattle.ir_grammar.specs.Words.{entry, flag_rows, flag_of, with_flag, flags, attribute_rows, linkage_words, orders, rows_of, in_table};
ghost use Rattle.ir_grammar.specs.Tails.{order, order_of, attribute_rest, attribute_word, attributes};
ghost use Rattle.ir_grammar.specs.declared.heads.AttributeHead.TheVariants.{Whole};
ghost use Rattle.ir_parse_parts.specs.Reads.{Gave, Passed};

use crate::{Reader, Stop, word_table};
use ir_core::{BinOp, CastOp, Flags};
use ir_grammar::{AttributeHead, Flag, FlagSet};

fn binary_flag(op: BinOp, word: &[u8]) -> Option<Flag>
    ensures { result ≡ entry (flag_rows (FlagSet.Binary op)) word.now }
{
    match op {
        BinOp::Add | BinOp::Sub | BinOp::Mul | BinOp::Shl => {
            word_table!(word; b"nuw" => Flag::Nuw, b"nsw" => Flag::Nsw)
        }
        BinOp::Udiv | BinOp::Sdiv | BinOp::Lshr | BinOp::Ashr => {
            word_table!(word; b"exact" => Flag::Exact)
        }
        BinOp::Or => word_table!(word; b"disjoint" => Flag::Dropped),
        BinOp::Urem | BinOp::Srem | BinOp::And | BinOp::Xor => None,
    }
}

fn cast_flag(op: CastOp, word: &[u8]) -> Option<Flag>
    ensures { result ≡ entry (flag_rows (FlagSet.Cast op)) word.now }
{
    match op {
        CastOp::Zext => word_table!(word; b"nneg" => Flag::Dropped),
        CastOp::Trunc => word_table!(word; b"nuw" => Flag::Dropped, b"nsw" => Flag::Dropped),
        CastOp::Sext | CastOp::Ptrtoint | CastOp::Inttoptr => None,
    }
}

fn flag_word(set: FlagSet, word: &[u8]) -> Option<Flag>
    ensures { result ≡ entry (flag_rows set) word.now }
{
    match set {
        FlagSet::Binary(op) => binary_flag(op, word),
        FlagSet::Cast(op) => cast_flag(op, word),
        FlagSet::Gep => word_table!(word;
            b"inbounds" => Flag::Dropped, b"nusw" => Flag::Dropped, b"nuw" => Flag::Dropped),
        FlagSet::Icmp => word_table!(word; b"samesign" => Flag::Dropped),
    }
}

fn with_flag(flags: Flags, flag: Flag) -> Flags
    ensures { result ≡ with_flag flags flag }
{
    match flag {
        Flag::Nuw => Flags { nuw: true, ..flags },
        Flag::Nsw => Flags { nsw: true, ..flags },
        Flag::Exact => Flags {
            exact: true,
            ..flags
        },
        Flag::Dropped => flags,
    }
}

/// Words of attributes by which a parameter or a result is described.
fn plain_attribute(word: &[u8]) -> Option<AttributeHead>
    ensures { result ≡ entry attribute_rows word.now }
{
    word_table!(word;
        b"align" => AttributeHead::Align, b"dereferenceable" => AttributeHead::Sized,
        b"dereferenceable_or_null" => AttributeHead::Sized, b"captures" => AttributeHead::Captures,
        b"noundef" => AttributeHead::Whole, b"signext" => AttributeHead::Whole,
        b"zeroext" => AttributeHead::Whole, b"nonnull" => AttributeHead::Whole,
        b"noalias" => AttributeHead::Whole, b"nocapture" => AttributeHead::Whole,
        b"readonly" => AttributeHead::Whole, b"readnone" => AttributeHead::Whole,
        b"writeonly" => AttributeHead::Whole, b"returned" => AttributeHead::Whole)
}

/// Words that say how a function is linked and called.
pub fn linkage_word(word: &[u8]) -> Option<AttributeHead>
    ensures { result ≡ entry (rows_of Whole linkage_words) word.now }
{
    word_table!(word;
        b"private" => AttributeHead::Whole, b"internal" => AttributeHead::Whole,
        b"common" => AttributeHead::Whole, b"weak" => AttributeHead::Whole,
        b"linkonce_odr" => AttributeHead::Whole, b"dso_local" => AttributeHead::Whole,
        b"local_unnamed_addr" => AttributeHead::Whole, b"unnamed_addr" => AttributeHead::Whole,
        b"hidden" => AttributeHead::Whole, b"protected" => AttributeHead::Whole,
        b"default" => AttributeHead::Whole, b"ccc" => AttributeHead::Whole,
        b"fastcc" => AttributeHead::Whole)
}

fn attribute_word(linkage: bool, word: &[u8]) -> Option<AttributeHead>
    ensures { result ≡ attribute_word linkage word.now }
{
    match plain_attribute(word) {
        None if linkage => linkage_word(word),
        found => found,
    }
}

fn is_order(word: &[u8]) -> bool
    ensures { result ≡ list_any (bytes_eq word.now) orders }
{
    word == b"unordered".as_slice()
        || word == b"monotonic".as_slice()
        || word == b"acquire".as_slice()
        || word == b"release".as_slice()
        || word == b"acq_rel".as_slice()
        || word == b"seq_cst".as_slice()
}

impl Reader<'_> {
    fn flag(&self, set: FlagSet) -> Option<Flag>
        ensures { result ≡ option_and_then (flag_of set) (first self.now) }
    {
        match self.word() {
            Some(word) => flag_word(set, word),
            None => None,
        }
    }

    /// Flags of the set, any number of them.
    #[tactic(auto, unfolding(ir_grammar::specs::Words::flags))]
    pub fn flags(&mut self, set: FlagSet) -> Flags
        ensures { (flags set).reads self.old ≡ Ok (result, self.new) }
    {
        let mut kept = Flags {
            nuw: false,
            nsw: false,
            exact: false,
        };
        'flags: while let Some(flag) = self.flag(set) {
            kept = with_flag(kept, flag);
            self.skip();
        }
        kept
    }

    fn attribute_head(&self, linkage: bool) -> Option<AttributeHead>
        ensures { result ≡ option_and_then (in_table (attribute_word linkage)) (first self.now) }
    {
        match self.word() {
            Some(word) => attribute_word(linkage, word),
            None => None,
        }
    }

    fn attribute_rest(&mut self, head: AttributeHead) -> Result<(), Stop>
        ensures { Passed result self.new ((attribute_rest head).reads self.old) }
    {
        match head {
            AttributeHead::Whole => Ok(()),
            AttributeHead::Align => self.alignment(),
            AttributeHead::Sized => self.sized(),
            AttributeHead::Captures => self.captures(),
        }
    }

    fn alignment(&mut self) -> Result<(), Stop>
        ensures { Passed result self.new ((attribute_rest AttributeHead.Align).reads self.old) }
    {
        self.count(0xffff_ffff_ffff_ffff)?;
        Ok(())
    }

    fn sized(&mut self) -> Result<(), Stop>
        ensures { Passed result self.new ((attribute_rest AttributeHead.Sized).reads self.old) }
    {
        self.punct(b'(')?;
        self.count(0xffff_ffff_ffff_ffff)?;
        self.punct(b')')
    }

    fn captures(&mut self) -> Result<(), Stop>
        ensures { Passed result self.new ((attribute_rest AttributeHead.Captures).reads self.old) }
    {
        self.punct(b'(')?;
        self.keyword(b"none")?;
        self.punct(b')')
    }

    /// Attributes, any number of them, and words of linkage among them where they may stand.
    #[tactic(auto, unfolding(ir_grammar::specs::Tails::attributes))]
    pub fn attributes(&mut self, linkage: bool) -> Result<(), Stop>
        ensures { Passed result self.new ((attributes linkage).reads self.old) }
    {
        'attributes: while let Some(head) = self.attribute_head(linkage) {
            self.skip();
            self.attribute_rest(head)?;
        }
        Ok(())
    }

    /// A memory order.
    pub fn order(&mut self) -> Result<(), Stop>
        ensures { Passed result self.new (order.reads self.old) }
    {
        match self.word() {
            Some(word) if is_order(word) => {
                self.skip();
                Ok(())
            }
            _ => Err(self.unfit()),
        }
    }

    /// The order of an access that is atomic; another one has none.
    pub fn order_of(&mut self, atomic: bool) -> Result<(), Stop>
        ensures { Passed result self.new ((order_of atomic).reads self.old) }
    {
        if atomic {
            return self.order();
        }
        Ok(())
    }
}
