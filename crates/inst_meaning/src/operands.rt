//! The words that operands stand for.
ghost use Rattle.std.specs.Prelude.{◌≡◌, ◌<◌, ◌%◌, ◌^◌, Some, None, IfOk, IfSome};
ghost use Rattle.op_table.specs.Operators.{bits};
ghost use Rattle.mem_image.specs.Accesses.{bytes};
ghost use Rattle.inst_meaning.specs.Operands.{width_of, memory_width, size_of_width, word_of, word_at, typed_word, pointer_word, argument_words, index_words};

use crate::{Callee, Registers};
use ir_core::{Seq, Ty, Val, Width};
use ir_layout::Layout;
use mem_image::{Size, address_in, inner_address};
use op_table::low_word;
use std::alloc::{AllocError, Global};

/// What operands are read with: the layout of the module, what its names stand for where they are called, and the registers.
#[derive(Clone, Copy)]
pub struct Operands<'a> {
    pub layout: &'a Layout,
    pub callees: &'a [Callee],
    pub registers: &'a Registers,
}

/// The width of the words of a type, where it has words.
pub(crate) fn width_of(ty: &Ty) -> Option<Width>
    ensures { result ≡ width_of ty.now }
{
    match ty {
        Ty::Int(w) => Some(*w),
        Ty::Ptr => Some(Width::W64),
        _ => None,
    }
}

/// The width of the words of a type in memory; a word of one bit stands in none.
pub fn memory_width(ty: &Ty) -> Option<Width>
    ensures { result ≡ memory_width ty.now }
{
    match width_of(ty) {
        Some(Width::W1) => None,
        width => width,
    }
}

/// How many bytes a word takes in memory.
pub fn size_of_width(w: Width) -> Size
    ensures { result ≡ size_of_width w }
{
    match w {
        Width::W1 | Width::W8 => Size::S1,
        Width::W16 => Size::S2,
        Width::W32 => Size::S4,
        Width::W64 => Size::S8,
    }
}

/// The word of a width in a greater one.
pub(crate) fn low(w: Width, word: u128) -> u64
    ensures value { result ≡ word % 2 ^ bits w }
    ensures below { result < 2 ^ bits w }
{
    low_word(w, (word % (1 << 64)) as u64)
}

impl Operands<'_> {
    // The word that a value stands for.
    fn word(&self, value: &Val) -> Option<u128>
        ensures { result ≡ word_of self.now.layout.now self.now.registers.now value.now }
    {
        match value {
            Val::Reg(at) => self.registers.get(*at),
            Val::Int(n) => Some(u128::from(*n)),
            Val::Null => Some(0),
            Val::Global(sym) => Some(u128::from(address_in(self.layout, *sym))),
            Val::Gep(gep) => Some(u128::from(inner_address(self.layout, gep))),
        }
    }

    /// The word of this width that a value stands for.
    pub fn word_at(&self, w: Width, value: &Val) -> Option<u64>
        ensures value { result ≡ word_at self.now.layout.now self.now.registers.now w value.now }
        ensures below { IfSome result (λ word. word < 2 ^ bits w) }
    {
        match self.word(value) {
            Some(word) => Some(low(w, word)),
            None => None,
        }
    }

    /// A value as a word of its type.
    pub(crate) fn typed_word(&self, ty: &Ty, value: &Val) -> Option<u64>
        ensures { result ≡ typed_word self.now.layout.now self.now.registers.now ty.now value.now }
    {
        let w = width_of(ty)?;
        self.word_at(w, value)
    }

    /// An address.
    pub(crate) fn pointer(&self, value: &Val) -> Option<u64>
        ensures { result ≡ pointer_word self.now.layout.now self.now.registers.now value.now }
    {
        self.word_at(Width::W64, value)
    }

    /// The words of arguments in order, or `None` exactly where one has none.
    pub(crate) fn argument_words(
        &self,
        alloc: Global,
        arguments: &[(Ty, Val)],
    ) -> Result<Option<Seq<u64>>, AllocError>
        ensures { IfOk result (λ words. words ≡ argument_words self.now.layout.now self.now.registers.now arguments.now) }
    {
        let mut words = Vec::with_capacity(alloc, arguments.len())?;
        for (ty, value) in arguments {
            let Some(word) = self.typed_word(ty, value) else {
                return Ok(None);
            };
            words.push(word)?;
        }
        Ok(Some(Seq::from_vec(words)))
    }

    /// The words of indices in order, each with its width, or `None` exactly where one has none.
    pub(crate) fn index_words(
        &self,
        alloc: Global,
        indices: &[(Width, Val)],
    ) -> Result<Option<Vec<(Width, u64)>>, AllocError>
        ensures some { IfOk result (λ words. IfSome words (λ found. Some found.items ≡ index_words self.now.layout.now self.now.registers.now indices.now)) }
        ensures none { IfOk result (λ words. words ≡ None → index_words self.now.layout.now self.now.registers.now indices.now ≡ None) }
    {
        let mut words = Vec::with_capacity(alloc, indices.len())?;
        for (w, value) in indices {
            let Some(word) = self.word_at(*w, value) else {
                return Ok(None);
            };
            words.push((*w, word))?;
        }
        Ok(Some(words))
    }
}
