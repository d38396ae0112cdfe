//! Sets of `%` names, as a flag for each number of each function. Numbers of names are places in a table, so they are dense.
ghost use Rattle.std.specs.Prelude.{◌≡◌, ◌<◌, ◌||◌, ℕ, [], true, false, not, length, nat_eq, slice_index_or, IfOk, OnOk};
ghost use Rattle.ir_names.specs.Locals.{has_loc, same_pair};

use ir_core::Loc;
use std::alloc::{AllocError, Global};
use std::marker::Model;

/// The `%` names of one function: for each number whether the set has it. Contracts see the flags.
#[derive(Drop)]
struct Flags {
    flags: Vec<bool>,
}

impl Model for Flags {
    ghost use Rattle.std.specs.Prelude.{List, Bool};

    ghost Value = { List Bool };

    ghost view = { λ f. f.flags.items };
}

/// The `%` names of functions, by their numbers. Contracts see the flags of each function.
#[derive(Drop)]
pub(crate) struct LocSet {
    funcs: Vec<Flags>,
}

impl Model for LocSet {
    ghost use Rattle.std.specs.Prelude.{List, Bool};

    ghost Value = { List (List Bool) };

    ghost view = { λ s. s.funcs.items };
}

impl Flags {
    // No name.
    fn new(alloc: Global) -> Flags
        ensures { result ≡ [] }
    {
        Flags {
            flags: Vec::new(alloc),
        }
    }

    // Whether the set has a number.
    fn has(&self, number: u32) -> bool
        ensures { result ≡ slice_index_or self.now number false }
    {
        match self.flags.get(number as usize) {
            Some(flag) => *flag,
            None => false,
        }
    }

    // Makes room for a number's flag.
    fn make_room(&mut self, number: u32) -> Result<(), AllocError>
        ensures room { OnOk result (number < length self.new) }
        ensures same { (other : ℕ) →
            OnOk result (slice_index_or self.new other false ≡ slice_index_or self.old other false) }
    {
        let at = number as usize;
        if at >= self.flags.len() {
            self.flags.resize(at + 1, false)?;
        }
        Ok(())
    }

    // Adds a number.
    fn add(&mut self, number: u32) -> Result<(), AllocError>
        ensures own { OnOk result (slice_index_or self.new number false ≡ true) }
        ensures others { (other : ℕ) → nat_eq number other ≡ false →
            OnOk result (slice_index_or self.new other false ≡ slice_index_or self.old other false) }
    {
        self.make_room(number)?;
        self.flags[number as usize] = true;
        Ok(())
    }
}

impl LocSet {
    /// The set without names. It takes no memory.
    pub(crate) fn new(alloc: Global) -> LocSet
        ensures { result ≡ [] }
    {
        LocSet {
            funcs: Vec::new(alloc),
        }
    }

    /// Whether the set has a name of a function.
    pub(crate) fn has(&self, func: usize, at: Loc) -> bool
        ensures { result ≡ has_loc self.now func at.0 }
    {
        match self.funcs.get(func) {
            Some(flags) => flags.has(at.0),
            None => false,
        }
    }

    // Makes room for a function's flags.
    fn make_room(&mut self, func: usize) -> Result<(), AllocError>
        ensures room { OnOk result (func < length self.new) }
        ensures same { (n : ℕ) → OnOk result (slice_index_or self.new n [] ≡ slice_index_or self.old n []) }
    {
        let alloc = *self.funcs.allocator();
        'funcs: while self.funcs.len() <= func {
            self.funcs.push(Flags::new(alloc))?;
        }
        Ok(())
    }

    /// Adds a name of a function, and answers whether the set lacked it.
    pub(crate) fn insert(&mut self, func: usize, at: Loc) -> Result<bool, AllocError>
        ensures lacked { IfOk result (λ lacked. lacked ≡ not (has_loc self.old func at.0)) }
        ensures added { (n other : ℕ) →
            OnOk result (has_loc self.new n other ≡ (has_loc self.old n other || same_pair (func, at.0) (n, other))) }
    {
        self.make_room(func)?;
        let flags = &mut self.funcs[func];
        let lacked = !flags.has(at.0);
        flags.add(at.0)?;
        Ok(lacked)
    }
}
