//! What stands for one instruction, and where a transaction may be cut.
ghost use Rattle.std.specs.Prelude.{◌≡◌, ◌++◌, OnOk};
ghost use Rattle.hard_ir.specs.Image.{body_of, cut_point, placed};

use crate::calls::{add_begins, add_ends};
use hard_ir::{HInst, HInsts};
use ir_core::{Inst, Module};
use relaxed_mem::{add_checks_after, add_checks_before, add_core};
use std::alloc::{AllocError, Global};

/// Adds a point where a transaction may be cut. For want of memory a part of it may have been added.
pub fn add_cut_point(list: &mut HInsts) -> Result<(), AllocError>
    ensures { OnOk result (list.new ≡ list.old ++ cut_point) }
{
    list.push(HInst::Cut)?;
    list.push(HInst::Begin)?;
    Ok(())
}

// Adds what does an instruction, with the end of a transaction before it.
fn add_body(heads: &Module, inst: &Inst, list: &mut HInsts, alloc: Global) -> Result<(), AllocError>
    ensures { OnOk result (list.new ≡ list.old ++ body_of heads.now inst.now) }
{
    add_ends(heads, inst, list)?;
    add_core(inst, list, alloc)?;
    add_checks_after(inst, list, alloc)
}

/// Adds what stands for an instruction of a module with these heads. For want of memory a part of it may have been added.
pub fn add_placed(
    heads: &Module,
    inst: &Inst,
    list: &mut HInsts,
    alloc: Global,
) -> Result<(), AllocError>
    ensures { OnOk result (list.new ≡ list.old ++ placed heads.now inst.now) }
{
    add_checks_before(inst, list, alloc)?;
    add_body(heads, inst, list, alloc)?;
    add_begins(heads, inst, list)
}
