//! The numbers of the names in a text.
ghost use Rattle.std.specs.Prelude.{◌≡◌};
ghost use Rattle.ir_core.specs.TokenLengths.{name_from};
ghost use Rattle.ir_numbering.specs.Renaming.{renamed_loc, renamed_type_id, renamed_sym};
ghost use Rattle.ir_numbering.specs.Numbers.{renaming_of};

use ir_core::{Func, Loc, Module, Sym, TypeId};
use ir_lex::name_from;

/// A text and the tables that number its names: those of a module, and of one of its functions.
#[derive(Clone, Copy)]
pub struct Numbers<'a> {
    pub text: &'a [u8],
    pub in_module: &'a Module,
    pub in_func: &'a Func,
}

/// The longest name at a place; empty past the end of the text.
pub fn name_at(text: &[u8], at: u32) -> &[u8]
    ensures { result.now ≡ name_from text.now at }
{
    let at = at as usize;
    if at <= text.len() {
        name_from(text, at)
    } else {
        &[]
    }
}

impl Numbers<'_> {
    /// The number of the register or the label that is named at a place.
    #[tactic(auto, using(crate::proofs::Lacking::next_number))]
    pub fn loc(&self, at: Loc) -> Loc
        ensures { result ≡ renamed_loc (renaming_of self.now.text.now self.now.in_module.now self.now.in_func.now) at }
    {
        match self.in_func.find_loc(name_at(self.text, at.0)) {
            Some(found) => found,
            None => Loc(self.in_func.loc_count()),
        }
    }

    /// The number of the type that is named at a place.
    #[tactic(auto, using(crate::proofs::Lacking::next_number))]
    pub fn type_id(&self, at: TypeId) -> TypeId
        ensures { result ≡ renamed_type_id (renaming_of self.now.text.now self.now.in_module.now self.now.in_func.now) at }
    {
        match self.in_module.find_type(name_at(self.text, at.0)) {
            Some(found) => found,
            None => TypeId(self.in_module.type_count()),
        }
    }

    /// The number of the `@` name at a place.
    #[tactic(auto, using(crate::proofs::Lacking::next_number))]
    pub fn sym(&self, at: Sym) -> Sym
        ensures { result ≡ renamed_sym (renaming_of self.now.text.now self.now.in_module.now self.now.in_func.now) at }
    {
        match self.in_module.find_sym(name_at(self.text, at.0)) {
            Some(found) => found,
            None => Sym(self.in_module.sym_count()),
        }
    }
}
