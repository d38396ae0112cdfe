//! The pass over a whole module.
ghost use Rattle.std.specs.Prelude.{◌≡◌, IfOk};
ghost use Rattle.ir_core.specs.Module.{ModuleParts};
ghost use Rattle.ir_check.specs.Faults.{IsAccepted};
ghost use Rattle.hard_ir.specs.Hardened.{harden, IsMadeBy};
ghost use Rattle.tx_place.specs.Placed.{placed_by};

use crate::blocks::ticked_funcs;
use crate::rows::add_row;
use column_walk::{Column, column_funcs};
use hard_ir::{HInsts, Hardened};
use ir_core::{Inst, Module};
use std::alloc::{AllocError, Global};
use tx_place::add_cut_point;

// Ticks, in a module of these heads.
#[derive(Drop)]
struct Ticks<'m> {
    heads: &'m Module,
}

impl<'m> Column for Ticks<'m> {
    ghost use Rattle.tx_split.specs.Split.{split_parts};

    ghost parts = { λ c. split_parts c.heads.now };

    fn add_point(&self, list: &mut HInsts) -> Result<(), AllocError> {
        add_cut_point(list)
    }

    fn add_image(&self, inst: &Inst, list: &mut HInsts, alloc: Global) -> Result<(), AllocError> {
        add_row(self.heads, inst, list, alloc)
    }
}

/// The hardened module with ticks, which is that of the whole image table.
///
/// Before the image of a branch, a `switch`, a call, a `ret` and an `unreachable` stands a tick. Its number is how many hardened instructions there
/// are in the block after the one before that retires such an instruction, or from the list's begin, up to the one after the tick and with it.
///
/// The module is the answer of the pass before for some accepted module of a text, and for each such module the answer is its hardened module. It takes
/// time and memory in proportion to the module. Where memory is wanting, or a list would reach 4,294,967,295 items, there is no module,
/// and the one given is dropped.
pub fn split(alloc: Global, h: Hardened) -> Result<Hardened, AllocError>
    requires { IsMadeBy placed_by h }
    ensures column { (m : ModuleParts) → IsAccepted m → h ≡ placed_by m → IfOk result (λ r. r ≡ harden m) }
    ensures answer { IfOk result (IsMadeBy harden) }
{
    let (heads, blocks) = h.take();
    let column = Ticks { heads: &heads };
    let rows = column_funcs(alloc, &column, heads.funcs(), blocks.items())?;
    drop(blocks);
    let funcs = ticked_funcs(rows.items(), alloc)?;
    drop(rows);
    let hardened = Hardened::new(alloc, heads, funcs)?;
    Ok(hardened)
}
