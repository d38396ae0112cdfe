//! Sets of names.
ghost use Rattle.std.specs.Prelude.{◌≡◌, ◌||◌, false, not, IfOk, OnOk};
ghost use Rattle.ir_lines.specs.declared.site.Named as named;
ghost use Rattle.ir_names.specs.Names.{same_name};
ghost use Rattle.ir_names.specs.Sets.{has_name};

use crate::loc_set::LocSet;
use ir_lines::Named;
use std::alloc::{AllocError, Global};
use std::collections::HashSet;

/// A set of names of one module. `%` names stand with the number of their function.
#[derive(Drop)]
pub(crate) struct NameSet {
    types: HashSet<u32>,
    syms: HashSet<u32>,
    locs: LocSet,
}

impl NameSet {
    /// The set without names. It takes no memory.
    pub(crate) fn new(alloc: Global) -> NameSet
        ensures { (name : named.Named) → has_name result name ≡ false }
    {
        NameSet {
            types: HashSet::new(alloc),
            syms: HashSet::new(alloc),
            locs: LocSet::new(alloc),
        }
    }

    /// Adds a name, and answers whether the set lacked it.
    pub(crate) fn insert(&mut self, name: Named) -> Result<bool, AllocError>
        ensures lacked { IfOk result (λ lacked. lacked ≡ not (has_name self.old name)) }
        ensures added { (other : named.Named) →
            OnOk result (has_name self.new other ≡ (has_name self.old other || same_name other name)) }
    {
        match name {
            Named::Type(id) => Ok(self.types.insert(id.0)?),
            Named::Sym(sym) => Ok(self.syms.insert(sym.0)?),
            Named::Loc { func, at } => Ok(self.locs.insert(func, at)?),
        }
    }

    /// Whether the set has a name.
    pub(crate) fn contains(&self, name: Named) -> bool
        ensures { result ≡ has_name self.now name }
    {
        match name {
            Named::Type(id) => self.types.contains(&id.0),
            Named::Sym(sym) => self.syms.contains(&sym.0),
            Named::Loc { func, at } => self.locs.has(func, at),
        }
    }
}
