//! The pass over a whole module.
ghost use Rattle.std.specs.Prelude.{◌≡◌, IfOk};
ghost use Rattle.hard_ir.specs.Hardened.{hardened_by, IsHardenedBy};
ghost use Rattle.hard_ir.specs.Image.{flow_table};

use crate::blocks::hard_funcs;
use crate::heads::heads_of;
use hard_ir::Hardened;
use ir_check::Accepted;
use std::alloc::{AllocError, Global};

/// The two flows of an accepted module, the first form of its hardened program.
///
/// An operator, a comparison, a `select`, a conversion, a `getelementptr` and an `extractvalue` are done for masters, and then for
/// shadows, which retires them; operators lose their flags. A phi has one of each side. All else is done once, on the masters' side,
/// retires there, and its result is copied to the shadow. At the entry of a function its parameters are copied. Types, globals,
/// declares, the heads of functions and all names stay, under the same numbers.
///
/// It takes time and memory in proportion to the module. Where memory is wanting, or a list would reach 4,294,967,295 items, there is
/// no hardened module.
pub fn shadow(alloc: Global, a: &Accepted) -> Result<Hardened, AllocError>
    ensures columns { IfOk result (λ h. h ≡ hardened_by flow_table a.now) }
    ensures answer { IfOk result (IsHardenedBy flow_table) }
{
    let m = a.module();
    let heads = heads_of(m, alloc)?;
    let funcs = hard_funcs(m.funcs(), alloc)?;
    let hardened = Hardened::new(alloc, heads, funcs)?;
    Ok(hardened)
}
