//! Values.
ghost use Rattle.std.specs.Prelude.{◌≡◌, [], ◌∷◌};
ghost use Rattle.ir_grammar.specs.Types.{more_listed};
ghost use Rattle.ir_grammar.specs.Values.{sym_of, symbol, constant_index, const_operands, const_gep, null_word, pointer_head, constant_head, value_head, value_rest, value};
ghost use Rattle.ir_parse_parts.specs.Views.{tok_view};
ghost use Rattle.ir_parse_parts.specs.Reads.{Gave, Filled};

use crate::numbers::integer_of;
use crate::{Reader, Stop, Tok, word_table};
use ir_core::{ConstGep, Indices, Loc, Seq, Sym, TokKind, Ty, Val, Width};
use ir_grammar::{FlagSet, ValueHead};

fn sym_of(tok: &Tok) -> Option<Sym>
    ensures { result ≡ sym_of (tok_view tok.now) }
{
    match tok.kind {
        TokKind::At => Some(Sym(tok.name_place())),
        _ => None,
    }
}

fn pointer_head(tok: &Tok) -> Option<ValueHead>
    ensures { result ≡ pointer_head (tok_view tok.now) }
{
    match tok.kind {
        TokKind::Word => {
            let word = tok.text;
            word_table!(word; b"null" => ValueHead::Null, b"getelementptr" => ValueHead::Gep)
        }
        TokKind::At => Some(ValueHead::Global(Sym(tok.name_place()))),
        _ => None,
    }
}

/// What a token says as the first one of a constant of the type.
pub fn constant_head(ty: &Ty, tok: &Tok) -> Option<ValueHead>
    ensures { result ≡ constant_head ty.now (tok_view tok.now) }
{
    match ty {
        Ty::Int(width) => integer_of(*width, tok).map(ValueHead::Int),
        Ty::Ptr => pointer_head(tok),
        _ => None,
    }
}

fn value_head(ty: &Ty, tok: &Tok) -> Option<ValueHead>
    ensures { result ≡ value_head ty.now (tok_view tok.now) }
{
    match tok.kind {
        TokKind::Local => Some(ValueHead::Reg(Loc(tok.name_place()))),
        _ => constant_head(ty, tok),
    }
}

impl Reader<'_> {
    /// An `@` name: the place of the name.
    pub fn symbol(&mut self) -> Result<Sym, Stop>
        ensures { Gave result self.new (symbol.reads self.old) }
    {
        let found = match self.peek() {
            Some(tok) => sym_of(&tok),
            None => None,
        };
        self.take(found)
    }

    #[tactic(auto, unfolding(ir_grammar::specs::Values::constant_index))]
    fn constant_index(&mut self) -> Result<(Width, u64), Stop>
        ensures { Gave result self.new (constant_index.reads self.old) }
    {
        let width = self.width()?;
        let index = self.integer(width)?;
        Ok((width, index))
    }

    fn more_indices(&mut self, indices: &mut Indices) -> Result<(), Stop>
        ensures { Filled result indices.new self.new
            ((more_listed indices.old constant_index).reads self.old) }
    {
        'more: while self.at_punct(b',') {
            self.punct(b',')?;
            indices.push(self.constant_index()?)?;
        }
        Ok(())
    }

    /// One index or more of a constant `getelementptr`, up to the closing parenthesis.
    #[tactic(auto, unfolding(ir_grammar::specs::Values::const_operands))]
    fn const_operands(&mut self) -> Result<(Sym, Indices), Stop>
        ensures { Gave result self.new (const_operands.reads self.old) }
    {
        self.punct(b',')?;
        self.keyword(b"ptr")?;
        let sym = self.symbol()?;
        self.punct(b',')?;
        let mut indices = Seq::new(self.alloc());
        indices.push(self.constant_index()?)?;
        self.more_indices(&mut indices)?;
        self.punct(b')')?;
        Ok((sym, indices))
    }

    /// What stands behind the word `getelementptr` of a constant.
    #[tactic(auto, unfolding(ir_grammar::specs::Values::const_gep))]
    pub fn const_gep(&mut self) -> Result<ConstGep, Stop>
        ensures { Gave result self.new (const_gep.reads self.old) }
    {
        self.flags(FlagSet::Gep);
        self.punct(b'(')?;
        let base = self.any_type()?;
        let (sym, index) = self.const_operands()?;
        Ok(ConstGep { base, sym, index })
    }

    /// A value of the type.
    #[tactic(auto, unfolding(ir_grammar::specs::Values::value))]
    pub fn value(&mut self, ty: &Ty) -> Result<Val, Stop>
        ensures { Gave result self.new ((value ty.now).reads self.old) }
    {
        let found = match self.peek() {
            Some(tok) => value_head(ty, &tok),
            None => None,
        };
        match self.take(found)? {
            ValueHead::Reg(loc) => Ok(Val::Reg(loc)),
            ValueHead::Int(word) => Ok(Val::Int(word)),
            ValueHead::Null => Ok(Val::Null),
            ValueHead::Global(sym) => Ok(Val::Global(sym)),
            ValueHead::Gep => Ok(Val::Gep(self.const_gep()?)),
        }
    }
}
