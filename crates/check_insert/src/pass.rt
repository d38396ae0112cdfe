//! The pass over a whole module.
ghost use Rattle.std.specs.Prelude.{◌≡◌, IfOk};
ghost use Rattle.ir_core.specs.Module.{ModuleParts};
ghost use Rattle.hard_ir.specs.Hardened.{hardened_by, IsHardenedBy};
ghost use Rattle.hard_ir.specs.Image.{flow_table, check_table};
ghost use Rattle.check_insert.specs.Checks.{checked_module};

use crate::blocks::checked_funcs;
use hard_ir::Hardened;
use std::alloc::{AllocError, Global};

/// The hardened module with checks: before each instruction that is done, the registers among its operands that are checked are
/// compared, master with shadow, in the order of the table. What only computes is not checked, nor is a constant; of a store the
/// pointer is checked before the word.
///
/// The module is the answer of the pass before for some accepted module of a text: its two flows become its two flows with checks. The
/// heads are handed on, and each item stays where it stood.
/// It takes time and memory in proportion to the module. Where memory is wanting, or a list would reach 4,294,967,295 items, there is
/// no module, and the one given is dropped.
pub fn checks(alloc: Global, h: Hardened) -> Result<Hardened, AllocError>
    requires { IsHardenedBy flow_table h }
    ensures each { IfOk result (λ r. r ≡ checked_module h) }
    ensures column { (m : ModuleParts) → h ≡ hardened_by flow_table m → IfOk result (λ r. r ≡ hardened_by check_table m) }
{
    let (heads, blocks) = h.take();
    let funcs = checked_funcs(blocks.items(), alloc)?;
    drop(blocks);
    let checked = Hardened::new(alloc, heads, funcs)?;
    Ok(checked)
}
