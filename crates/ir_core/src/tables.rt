//! Name tables: names in the order in which they were first given, each once.
ghost use Rattle.std.specs.Prelude.{◌≡◌, ◌<◌, [], Some, length, slice_get, IfSome, IfOk, OnOk, OnErr};
ghost use Rattle.std.specs.List.{IsDistinct};
ghost use Rattle.std.specs.Str.{bytes_eq};
ghost use Rattle.ir_core.specs.Names.{number_of, number_given, numbered};

use crate::Copied;
use indexmap::IndexSet;
use std::alloc::{AllocError, Global};
use std::marker::Model;

/// Names and their numbers. A name's number is its place, and a name is found by its hash.
/// Contracts see a table as the list of its names.
#[derive(Drop)]
pub(crate) struct Names {
    set: IndexSet<Vec<u8>>,
}

impl Model for Names {
    ghost use Rattle.std.specs.Prelude.{List, ℕ, ◌^◌, ◌<◌, map};
    ghost use Rattle.indexmap.specs.IndexSet.{index_set_len};

    ghost Value = { List (List ℕ) };

    ghost view = { λ n. map (λ key. key.items) n.set.keys };

    ghost invariant = { λ n. index_set_len n.set < 2 ^ 32 };
}

impl Names {
    /// The table without names. It takes no memory.
    pub(crate) fn new(alloc: Global) -> Names
        ensures { result ≡ [] }
    {
        Names {
            set: IndexSet::new(alloc),
        }
    }

    /// The number of the name, or `None` where the table lacks it.
    pub(crate) fn find(&self, name: &[u8]) -> Option<u32>
        ensures number { result ≡ number_of self.now name.now }
        ensures within { IfSome result (λ n. n < length self.now) }
    {
        let at = self.set.get_index_of(name)?;
        Some(at as u32)
    }

    /// The number of the name, which joins the table where it lacked it.
    /// For want of memory the table stays as it was.
    pub(crate) fn number(&mut self, name: &[u8]) -> Result<u32, AllocError>
        requires { length self.old < 4294967295 }
        ensures number { IfOk result (λ n. n ≡ number_given self.old name.now) }
        ensures within { IfOk result (λ n. n < length self.new) }
        ensures ok { OnOk result (self.new ≡ numbered self.old name.now) }
        ensures err { OnErr result (self.new ≡ self.old) }
    {
        let alloc = *self.set.allocator();
        let key = Vec::from_slice(alloc, name)?;
        let (at, _) = self.set.insert_full(key)?;
        Ok(at as u32)
    }

    /// The name with this number.
    pub(crate) fn name(&self, at: u32) -> &[u8]
        requires { at < length self.now }
        ensures { slice_get self.now at ≡ Some result.now }
    {
        self.set.as_slice()[at as usize].as_slice()
    }

    /// How many names there are.
    pub(crate) fn count(&self) -> u32
        ensures count { result ≡ length self.now }
        ensures distinct { IsDistinct bytes_eq self.now }
    {
        self.set.len() as u32
    }
}

impl Copied for Names {
    fn copy(&self, alloc: Global) -> Result<Names, AllocError> {
        let mut copy = Names::new(alloc);
        for at in 0..self.count() {
            copy.number(self.name(at))?;
        }
        Ok(copy)
    }
}
