//! The pass over a whole module.
ghost use Rattle.std.specs.Prelude.{◌≡◌, IfOk, OnOk};
ghost use Rattle.ir_core.specs.Module.{ModuleParts};
ghost use Rattle.ir_check.specs.Faults.{IsAccepted};
ghost use Rattle.hard_ir.specs.Hardened.{hardened_by, IsHardenedBy};
ghost use Rattle.hard_ir.specs.Image.{check_table, relax_table};

use crate::rows::{add_checks_after, add_checks_before, add_core};
use column_walk::{Column, column_funcs};
use hard_ir::{HInsts, Hardened};
use ir_core::Inst;
use std::alloc::{AllocError, Global};

// Double loads and late checks.
struct Relaxed;

impl Column for Relaxed {
    ghost use Rattle.relaxed_mem.specs.Relaxed.{relax_parts};

    ghost parts = { λ c. relax_parts };

    fn add_point(&self, list: &mut HInsts) -> Result<(), AllocError> {
        Ok(())
    }

    fn add_image(&self, inst: &Inst, list: &mut HInsts, alloc: Global) -> Result<(), AllocError> {
        add_checks_before(inst, list, alloc)?;
        add_core(inst, list, alloc)?;
        add_checks_after(inst, list, alloc)
    }
}

/// The hardened module with double loads and late checks.
///
/// A plain load is done for masters and then for shadows, which retires it; its address isn't checked. The operands of a plain store are checked
/// before it only outside a transaction. Inside one its pointer is checked after it, and what stands in memory is compared with the shadow's word.
///
/// The module is the answer of the pass before for some accepted module of a text, and for each such module the answer is its column of the table. It
/// takes time and memory in proportion to the module. Where memory is wanting, or a list would reach 4,294,967,295 items, there is no
/// module, and the one given is dropped.
pub fn relax(alloc: Global, h: Hardened) -> Result<Hardened, AllocError>
    requires { IsHardenedBy check_table h }
    ensures column { (m : ModuleParts) → IsAccepted m → h ≡ hardened_by check_table m → IfOk result (λ r. r ≡ hardened_by relax_table m) }
    ensures answer { IfOk result (IsHardenedBy relax_table) }
{
    let (heads, blocks) = h.take();
    let funcs = column_funcs(alloc, &Relaxed, heads.funcs(), blocks.items())?;
    drop(blocks);
    let relaxed = Hardened::new(alloc, heads, funcs)?;
    Ok(relaxed)
}
