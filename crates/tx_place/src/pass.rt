//! The pass over a whole module.
ghost use Rattle.std.specs.Prelude.{◌≡◌, IfOk};
ghost use Rattle.ir_core.specs.Module.{ModuleParts};
ghost use Rattle.ir_check.specs.Faults.{IsAccepted};
ghost use Rattle.hard_ir.specs.Hardened.{hardened_by, IsHardenedBy, IsMadeBy};
ghost use Rattle.hard_ir.specs.Image.{relax_table};
ghost use Rattle.tx_place.specs.Placed.{placed_by};

use crate::rows::{add_cut_point, add_placed};
use column_walk::{Column, column_funcs};
use hard_ir::{HInsts, Hardened};
use ir_core::{Inst, Module};
use std::alloc::{AllocError, Global};

// Transactions, in a module of these heads.
#[derive(Drop)]
struct Placed<'m> {
    heads: &'m Module,
}

impl<'m> Column for Placed<'m> {
    ghost use Rattle.tx_place.specs.Placed.{place_parts};

    ghost parts = { λ c. place_parts c.heads.now };

    fn add_point(&self, list: &mut HInsts) -> Result<(), AllocError> {
        add_cut_point(list)
    }

    fn add_image(&self, inst: &Inst, list: &mut HInsts, alloc: Global) -> Result<(), AllocError> {
        add_placed(self.heads, inst, list, alloc)
    }
}

/// The hardened module with transactions.
///
/// At the entry of a function, after the copies of its parameters, and at a loop head a transaction may be cut and begins. After a call of a function of
/// the module one may be cut and begins too. Before a call of an external one ends, and after it one begins; a call of `pthread_mutex_lock` or
/// `pthread_mutex_unlock` has no end before it.
///
/// The module is the answer of the pass before for some accepted module of a text, and for each such module the answer is its column of the table. It
/// takes time and memory in proportion to the module. Where memory is wanting, or a list would reach 4,294,967,295 items, there is no
/// module, and the one given is dropped.
pub fn place(alloc: Global, h: Hardened) -> Result<Hardened, AllocError>
    requires { IsHardenedBy relax_table h }
    ensures column { (m : ModuleParts) → IsAccepted m → h ≡ hardened_by relax_table m → IfOk result (λ r. r ≡ placed_by m) }
    ensures answer { IfOk result (IsMadeBy placed_by) }
{
    let (heads, blocks) = h.take();
    let column = Placed { heads: &heads };
    let funcs = column_funcs(alloc, &column, heads.funcs(), blocks.items())?;
    drop(blocks);
    let placed = Hardened::new(alloc, heads, funcs)?;
    Ok(placed)
}
