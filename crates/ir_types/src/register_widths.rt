//! The widths of the registers of a module (`specs/Meanings.antt`, `Tables.antt`).
ghost use Rattle.std.specs.Prelude.{◌≡◌, Some, IfOk, map, slice_get};
ghost use Rattle.std.specs.Option.{option_and_then};
ghost use Rattle.ir_core.specs.Module.{ModuleParts, FuncParts};
ghost use Rattle.ir_types.specs.Firsts.{first_of};
ghost use Rattle.ir_types.specs.Meanings.{width_of};
ghost use Rattle.ir_types.specs.Tables.{width_at, widths, widths_of, with_width};

use crate::firsts::Firsts;
use crate::meaning::{Meaning, meanings};
use ir_core::{Func, Loc, Module};
use std::alloc::{AllocError, Global};
use std::marker::Model;

/// How many bits each register of a module holds. Contracts see the widths of the names of each function.
#[derive(Drop)]
pub struct Widths {
    funcs: Vec<Firsts<u32>>,
}

impl Model for Widths {
    ghost use Rattle.std.specs.Prelude.{List, ℕ};
    ghost use Rattle.ir_core.specs.declared.types.Loc.{Loc};

    ghost Value = { List (List (Loc × ℕ)) };

    ghost view = { λ w. w.funcs.items };
}

// The widths of entries.
fn widths_in(alloc: Global, names: &[(Loc, Meaning<'_>)]) -> Result<Vec<(Loc, u32)>, AllocError>
    ensures { IfOk result (λ all. all.items ≡ map with_width names.now) }
{
    let mut all = Vec::with_capacity(alloc, names.len())?;
    for (at, meaning) in names {
        all.push((*at, meaning.width()))?;
    }
    Ok(all)
}

// The widths of the names of a function.
fn widths_of_func(alloc: Global, f: &Func) -> Result<Firsts<u32>, AllocError>
    ensures { IfOk result (λ table. table ≡ widths f.now) }
{
    let names = meanings(alloc, f)?;
    let all = widths_in(alloc, names.as_slice())?;
    Firsts::new(alloc, all)
}

impl Widths {
    /// The widths of a module's registers. It takes memory in proportion to the module, and fails for want of it alone.
    pub fn new(alloc: Global, m: &Module) -> Result<Widths, AllocError>
        ensures { IfOk result (λ widths. widths ≡ widths_of m.now) }
    {
        let mut funcs = Vec::with_capacity(alloc, m.funcs().len())?;
        for f in m.funcs() {
            funcs.push(widths_of_func(alloc, f)?)?;
        }
        Ok(Widths { funcs })
    }

    // The width of a name of the function with this number.
    fn found(&self, func: usize, reg: Loc) -> Option<u32>
        ensures { result ≡ option_and_then (λ table. first_of table reg) (slice_get self.now func) }
    {
        let table = self.funcs.get(func)?;
        table.get(reg).copied()
    }

    /// How many bits a register of the function with this number holds: 1 to 64, one more for what a `cmpxchg` gave, and 0 for
    /// any other name. It takes no memory.
    pub fn width(&self, func: usize, reg: Loc) -> u32
        ensures table { result ≡ width_at self.now func reg }
        ensures register { (m : ModuleParts) (f : FuncParts) → self.now ≡ widths_of m → slice_get m.funcs func ≡ Some f → result ≡ width_of f reg }
    {
        self.found(func, reg).unwrap_or(0)
    }
}
