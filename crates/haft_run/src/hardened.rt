//! The hardened module of an accepted one.
ghost use Rattle.std.specs.Prelude.{◌≡◌, IfOk};
ghost use Rattle.hard_ir.specs.Hardened.{harden};

use check_insert::checks;
use hard_ir::Hardened;
use ir_check::Accepted;
use relaxed_mem::relax;
use shadow_flow::shadow;
use std::alloc::{AllocError, Global};
use tx_place::place;
use tx_split::split;

/// The hardened module of an accepted one, by the whole image table (`hard_ir`'s `specs/Image.antt`), a pass a column: masters, shadows and
/// copies; checks; plain loads twice and stores checked late; transactions; and ticks. It takes time and memory in proportion to the
/// module, and fails only for want of memory or where a list would reach 4,294,967,295 items.
pub fn harden(alloc: Global, a: &Accepted) -> Result<Hardened, AllocError>
    ensures { IfOk result (λ h. h ≡ harden a.now) }
{
    // It is accepted, which the passes ask for.
    let _ = a.module();
    let flow = shadow(alloc, a)?;
    let checked = checks(alloc, flow)?;
    let relaxed = relax(alloc, checked)?;
    let placed = place(alloc, relaxed)?;
    let hardened = split(alloc, placed)?;
    Ok(hardened)
}
