//! A column of the image table.
ghost use Rattle.std.specs.Prelude.{◌≡◌, ◌++◌, OnOk};
ghost use Rattle.column_walk.specs.Columns.{ColumnParts};

use hard_ir::HInsts;
use ir_core::Inst;
use std::alloc::{AllocError, Global};

/// What one column makes. After want of memory a list may have a part of what was to be added.
pub trait Column {
    /// What it makes, as lists.
    ghost parts: { Self → ColumnParts };

    /// Adds what stands at the entry of a function, after the copies of its parameters, and at a loop head.
    fn add_point(&self, list: &mut HInsts) -> Result<(), AllocError>
        ensures { OnOk result (list.new ≡ list.old ++ (parts self.now).point) };

    /// Adds what stands for an instruction.
    fn add_image(&self, inst: &Inst, list: &mut HInsts, alloc: Global) -> Result<(), AllocError>
        ensures { OnOk result (list.new ≡ list.old ++ (parts self.now).image inst.now) };
}
