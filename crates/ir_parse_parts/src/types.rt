//! Types.
ghost use Rattle.std.specs.Prelude.{◌≡◌, ◌<◌, suc};
ghost use Rattle.ir_grammar.specs.Tokens.{close_brace, keyword};
ghost use Rattle.ir_grammar.specs.Types.{width_word, scalar_word, memory_word, rmw_type_word, width, scalar, memory_type, rmw_type, width_text, scalar_text, type_word, bracket, type_head, listed, more_listed, type_rest, flat, flat_type, typ, any_depth, any_type, result_head, result_type};
ghost use Rattle.ir_parse_parts.specs.Views.{tok_view};
ghost use Rattle.ir_parse_parts.specs.Reads.{Gave, Passed, Filled};

use crate::{Reader, Stop, Tok, word_table};
use ir_core::{Boxed, RmwOp, Seq, TokKind, Ty, TypeId, Tys, Width};
use ir_grammar::{ResultHead, TypeHead};

/// How deep types and initialisers may be nested: far deeper than brackets may stand open.
pub const ANY_DEPTH: u32 = 4_194_304;

fn width_word(word: &[u8]) -> Option<Width>
    ensures { result ≡ width_word word.now }
{
    word_table!(word;
        b"i1" => Width::W1, b"i8" => Width::W8, b"i16" => Width::W16, b"i32" => Width::W32,
        b"i64" => Width::W64)
}

fn scalar_word(word: &[u8]) -> Option<Ty>
    ensures { result ≡ scalar_word word.now }
{
    word_table!(word;
        b"i1" => Ty::Int(Width::W1), b"i8" => Ty::Int(Width::W8), b"i16" => Ty::Int(Width::W16),
        b"i32" => Ty::Int(Width::W32), b"i64" => Ty::Int(Width::W64), b"ptr" => Ty::Ptr)
}

fn memory_word(word: &[u8]) -> Option<Ty>
    ensures { result ≡ memory_word word.now }
{
    word_table!(word;
        b"i8" => Ty::Int(Width::W8), b"i16" => Ty::Int(Width::W16), b"i32" => Ty::Int(Width::W32),
        b"i64" => Ty::Int(Width::W64), b"ptr" => Ty::Ptr)
}

fn rmw_type_word(op: RmwOp, word: &[u8]) -> Option<Ty>
    ensures { result ≡ rmw_type_word op word.now }
{
    match op {
        RmwOp::Xchg => memory_word(word),
        _ => word_table!(word;
            b"i8" => Ty::Int(Width::W8), b"i16" => Ty::Int(Width::W16),
            b"i32" => Ty::Int(Width::W32), b"i64" => Ty::Int(Width::W64)),
    }
}

fn type_word(word: &[u8]) -> Option<TypeHead>
    ensures { result ≡ type_word word.now }
{
    word_table!(word;
        b"i1" => TypeHead::Int(Width::W1), b"i8" => TypeHead::Int(Width::W8),
        b"i16" => TypeHead::Int(Width::W16), b"i32" => TypeHead::Int(Width::W32),
        b"i64" => TypeHead::Int(Width::W64), b"ptr" => TypeHead::Ptr)
}

fn width_text(width: Width) -> &'static [u8]
    ensures { result.now ≡ width_text width }
{
    match width {
        Width::W1 => b"i1",
        Width::W8 => b"i8",
        Width::W16 => b"i16",
        Width::W32 => b"i32",
        Width::W64 => b"i64",
    }
}

/// The word of a type of one word.
fn scalar_text(ty: &Ty) -> &'static [u8]
    ensures { result.now ≡ scalar_text ty.now }
{
    match ty {
        Ty::Int(width) => width_text(*width),
        _ => b"ptr",
    }
}

/// `[` or `{`, where a bracket may be opened.
fn bracket(may_open: bool, text: &[u8]) -> Option<TypeHead>
    ensures { result ≡ bracket may_open text.now }
{
    if may_open {
        word_table!(text; b"[" => TypeHead::Array, b"{" => TypeHead::Struct)
    } else {
        None
    }
}

fn type_head(may_open: bool, tok: &Tok) -> Option<TypeHead>
    ensures { result ≡ type_head may_open (tok_view tok.now) }
{
    match tok.kind {
        TokKind::Word => type_word(tok.text),
        TokKind::Local => Some(TypeHead::Named(TypeId(tok.name_place()))),
        TokKind::Punct => bracket(may_open, tok.text),
        _ => None,
    }
}

fn flat(head: TypeHead) -> Option<Ty>
    ensures { result ≡ flat head }
{
    match head {
        TypeHead::Int(width) => Some(Ty::Int(width)),
        TypeHead::Ptr => Some(Ty::Ptr),
        TypeHead::Named(id) => Some(Ty::Named(id)),
        TypeHead::Array | TypeHead::Struct => None,
    }
}

fn flat_type(tok: &Tok) -> Option<Ty>
    ensures { result ≡ flat_type (tok_view tok.now) }
{
    match type_head(false, tok) {
        Some(head) => flat(head),
        None => None,
    }
}

fn result_head(tok: &Tok) -> Option<ResultHead>
    ensures { result ≡ result_head (tok_view tok.now) }
{
    match tok.kind {
        TokKind::Word if tok.text == b"void".as_slice() => Some(ResultHead::Void),
        _ => type_head(true, tok).map(ResultHead::Some),
    }
}

impl Reader<'_> {
    /// An integer type.
    pub fn width(&mut self) -> Result<Width, Stop>
        ensures { Gave result self.new (width.reads self.old) }
    {
        let found = self.word().and_then(width_word);
        self.take(found)
    }

    /// An integer type or `ptr`.
    pub fn scalar(&mut self) -> Result<Ty, Stop>
        ensures { Gave result self.new (scalar.reads self.old) }
    {
        let found = self.word().and_then(scalar_word);
        self.take(found)
    }

    /// A type that memory is read and written by.
    pub fn memory_type(&mut self) -> Result<Ty, Stop>
        ensures { Gave result self.new (memory_type.reads self.old) }
    {
        let found = self.word().and_then(memory_word);
        self.take(found)
    }

    /// A type that the operation updates memory by.
    pub fn rmw_type(&mut self, op: RmwOp) -> Result<Ty, Stop>
        ensures { Gave result self.new ((rmw_type op).reads self.old) }
    {
        let found = match self.word() {
            Some(word) => rmw_type_word(op, word),
            None => None,
        };
        self.take(found)
    }

    /// The integer type once more.
    pub fn same_width(&mut self, width: Width) -> Result<(), Stop>
        ensures { Passed result self.new ((keyword (width_text width)).reads self.old) }
    {
        self.keyword(width_text(width))
    }

    /// The type of one word once more.
    pub fn same_type(&mut self, ty: &Ty) -> Result<(), Stop>
        ensures { Passed result self.new ((keyword (scalar_text ty.now)).reads self.old) }
    {
        self.keyword(scalar_text(ty))
    }

    /// A type.
    pub fn any_type(&mut self) -> Result<Ty, Stop>
        ensures { Gave result self.new (any_type.reads self.old) }
    {
        self.typ(ANY_DEPTH)
    }

    /// Types up to a `}`.
    pub fn types(&mut self) -> Result<Tys, Stop>
        ensures { Gave result self.new ((listed close_brace any_type).reads self.old) }
    {
        self.type_list(ANY_DEPTH)
    }

    /// A type, with so many brackets at most inside one another.
    #[cycle(types)]
    #[tactic(auto, unfolding(ir_grammar::specs::Types::typ))]
    fn typ(&mut self, brackets: u32) -> Result<Ty, Stop>
        ensures { Gave result self.new ((typ brackets).reads self.old) }
    {
        if brackets == 0 {
            let found = match self.peek() {
                Some(tok) => flat_type(&tok),
                None => None,
            };
            return self.take(found);
        }
        let found = match self.peek() {
            Some(tok) => type_head(true, &tok),
            None => None,
        };
        let head = self.take(found)?;
        self.type_rest(head, brackets - 1)
    }

    /// The rest of a type behind its first token.
    #[cycle(types)]
    fn type_rest(&mut self, head: TypeHead, inner: u32) -> Result<Ty, Stop>
        ensures { Gave result self.new ((type_rest (typ inner) head).reads self.old) }
    {
        match head {
            TypeHead::Int(width) => Ok(Ty::Int(width)),
            TypeHead::Ptr => Ok(Ty::Ptr),
            TypeHead::Named(id) => Ok(Ty::Named(id)),
            TypeHead::Array => self.array(inner),
            TypeHead::Struct => self.structure(inner),
        }
    }

    #[cycle(types)]
    fn array(&mut self, inner: u32) -> Result<Ty, Stop>
        ensures { Gave result self.new ((type_rest (typ inner) TypeHead.Array).reads self.old) }
    {
        let count = self.count(0xffff_ffff)?;
        self.keyword(b"x")?;
        let element = Boxed::new(self.alloc(), self.typ(inner)?)?;
        self.punct(b']')?;
        Ok(Ty::Array(count, element))
    }

    #[cycle(types)]
    fn structure(&mut self, inner: u32) -> Result<Ty, Stop>
        ensures { Gave result self.new ((type_rest (typ inner) TypeHead.Struct).reads self.old) }
    {
        let parts = self.type_list(inner)?;
        Ok(Ty::Struct(parts))
    }

    #[cycle(types)]
    fn type_list(&mut self, inner: u32) -> Result<Tys, Stop>
        ensures { Gave result self.new ((listed close_brace (typ inner)).reads self.old) }
    {
        let mut types = Seq::new(self.alloc());
        if self.at_punct(b'}') {
            self.punct(b'}')?;
            return Ok(types);
        }
        types.push(self.typ(inner)?)?;
        self.more_types(&mut types, inner)?;
        self.punct(b'}')?;
        Ok(types)
    }

    #[cycle(types)]
    fn more_types(&mut self, types: &mut Tys, inner: u32) -> Result<(), Stop>
        ensures { Filled result types.new self.new
            ((more_listed types.old (typ inner)).reads self.old) }
    {
        'more: while self.at_punct(b',') {
            self.punct(b',')?;
            types.push(self.typ(inner)?)?;
        }
        Ok(())
    }

    /// The type of a result.
    #[tactic(auto, unfolding(ir_grammar::specs::Types::result_type))]
    pub fn result_type(&mut self) -> Result<Ty, Stop>
        ensures { Gave result self.new (result_type.reads self.old) }
    {
        let found = match self.peek() {
            Some(tok) => result_head(&tok),
            None => None,
        };
        match self.take(found)? {
            ResultHead::Void => Ok(Ty::Void),
            ResultHead::Some(head) => self.type_rest(head, ANY_DEPTH),
        }
    }
}
