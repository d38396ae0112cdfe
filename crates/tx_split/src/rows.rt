//! What stands for one instruction, with a tick that has no number yet.
ghost use Rattle.std.specs.Prelude.{◌≡◌, ◌++◌, OnOk};
ghost use Rattle.hard_ir.specs.Image.{leaves, row, tick_before};

use hard_ir::{HInst, HInsts};
use ir_core::{Inst, Module};
use std::alloc::{AllocError, Global};
use tx_place::add_placed;

// Whether an instruction leaves a block or its function, or calls.
pub(crate) fn leaves(inst: &Inst) -> bool
    ensures { result ≡ leaves inst.now }
{
    matches!(
        inst,
        Inst::Br { .. }
            | Inst::CondBr { .. }
            | Inst::Switch { .. }
            | Inst::Call { .. }
            | Inst::Ret { .. }
            | Inst::Unreachable
    )
}

// Adds a tick, where the instruction leaves.
fn add_tick(inst: &Inst, list: &mut HInsts) -> Result<(), AllocError>
    ensures { OnOk result (list.new ≡ list.old ++ tick_before 0 inst.now) }
{
    if leaves(inst) {
        list.push(HInst::Tick(0))?;
    }
    Ok(())
}

// Adds the row of an instruction of a module with these heads.
pub(crate) fn add_row(
    heads: &Module,
    inst: &Inst,
    list: &mut HInsts,
    alloc: Global,
) -> Result<(), AllocError>
    ensures { OnOk result (list.new ≡ list.old ++ row heads.now 0 inst.now) }
{
    add_tick(inst, list)?;
    add_placed(heads, inst, list, alloc)
}
