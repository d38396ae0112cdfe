//! The row on calls of the checker's table.
ghost use Rattle.std.specs.Prelude.{◌≡◌, IfOk};
ghost use Rattle.std.specs.Option.{option_map};
ghost use Rattle.ir_calls.specs.Calls.{standing_of, is_function, external_named};
ghost use Rattle.ir_calls.specs.Standings.{told};

use crate::External;
use crate::table::{Item, items_of};
use ir_core::{Block, Declare, Func, GlobalVar, Inst, Module, Sym};
use ir_lines::Rule;
use std::alloc::{AllocError, Global};
use std::collections::HashMap;
use std::marker::Model;

/// A module with a table of what its `@` names stand for. Contracts see the module.
#[derive(Drop)]
pub struct Calls<'m> {
    m: &'m Module,
    items: HashMap<u32, Item<'m>>,
}

impl<'m> Model for Calls<'m> {
    ghost use Rattle.std.specs.Coded.{codes};
    ghost use Rattle.ir_core.specs.contracts.types.Ty as ty;
    ghost use Rattle.ir_core.specs.contracts.values.Init as init;
    ghost use Rattle.ir_core.specs.Module.{ModuleParts};
    ghost use Rattle.ir_calls.specs.Calls.{standings};
    ghost use Rattle.ir_calls.specs.Standings.{AreItems};

    ghost Value = { ModuleParts };

    ghost coded = { Prim.hlevel (codes, ty.the_row.coded, init.the_row.coded) };

    ghost view = { λ c. c.m.now };

    ghost invariant = { λ c. AreItems (standings c.m.now) c.items };
}

impl<'m> Calls<'m> {
    /// The module with its table, which has at most one item a global, a declare and a function.
    /// The error is want of memory.
    pub fn new(alloc: Global, m: &'m Module) -> Result<Calls<'m>, AllocError>
        ensures { IfOk result (λ c. c ≡ m.now) }
    {
        let items = items_of(alloc, m)?;
        Ok(Calls { m, items })
    }

    /// What a name stands for.
    pub(crate) fn item(&self, sym: Sym) -> Option<Item<'m>>
        ensures { option_map told result ≡ standing_of self.now sym }
    {
        self.items.get(&sym.0).copied()
    }

    /// Whether a name is a function's.
    pub(crate) fn is_function(&self, sym: Sym) -> bool
        ensures { result ≡ is_function self.now sym }
    {
        match self.item(sym) {
            None | Some(Item::Variable) => false,
            Some(Item::Declared(_)) | Some(Item::Defined(_)) => true,
        }
    }

    /// The external that a name names.
    pub(crate) fn external(&self, sym: Sym) -> Option<External>
        ensures { result ≡ external_named self.now sym }
    {
        if sym.0 < self.m.sym_count() {
            External::named(self.m.sym_name(sym))
        } else {
            External::named(b"")
        }
    }
}

impl Rule for Calls<'_> {
    ghost use Rattle.ir_calls.specs.Calls.{calls_keep};

    ghost module_of = { λ calls. calls };

    ghost keeps = { calls_keep };

    fn global(&self, global: &GlobalVar) -> bool {
        self.init_plain(&global.init)
    }

    fn declare(&self, declare: &Declare) -> bool {
        match self.external(declare.sym) {
            None => true,
            Some(external) => external.has_signature(&declare.ret, declare.params.items()),
        }
    }

    fn head(&self, _n: usize, f: &Func) -> bool {
        self.external(f.sym()).is_none()
    }

    fn block(&self, _n: usize, _f: &Func, _b: usize, _block: &Block) -> bool {
        true
    }

    fn inst(&self, _n: usize, _f: &Func, _b: usize, _i: usize, inst: &Inst) -> bool {
        match inst {
            Inst::Call {
                dst,
                ret,
                callee,
                args,
            } => self.call_keeps(*dst, ret, *callee, args.items()),
            _ => self.values_plain(inst),
        }
    }
}
