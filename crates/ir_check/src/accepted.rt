//! Accepted modules.
ghost use Rattle.std.specs.Prelude.{◌≡◌, ◌<◌, length, Some, slice_get, IfOk, IfErr, OnOk};
ghost use Rattle.ir_core.specs.Module.{FuncParts};
ghost use Rattle.ir_layout.specs.Memory.{layout_of};
ghost use Rattle.ir_types.specs.Meanings.{width_of};
ghost use Rattle.ir_types.specs.Tables.{widths_of};
ghost use Rattle.ir_check.specs.Faults.{IsAccepted, Refuses};
ghost use Rattle.ir_parse_top.specs.Text.{IsOfText};

use crate::fault::CheckError;
use crate::flows::check_flows;
use crate::line_rules::check_lines;
use ir_core::{Loc, Module};
use ir_layout::Layout;
use ir_types::Widths;
use std::alloc::Global;
use std::marker::Model;

/// The module of a text, without a fault, with its layout and the widths of its registers. Contracts see the module.
#[derive(Drop)]
pub struct Accepted {
    module: Module,
    layout: Layout,
    widths: Widths,
}

impl Model for Accepted {
    ghost use Rattle.std.specs.Prelude.{◌≡◌};
    ghost use Rattle.std.specs.Coded.{codes};
    ghost use Rattle.ir_core.specs.contracts.types.Ty as ty;
    ghost use Rattle.ir_core.specs.contracts.values.Init as init;
    ghost use Rattle.ir_core.specs.Module.{ModuleParts};
    ghost use Rattle.ir_layout.specs.Memory.{layout_of};
    ghost use Rattle.ir_types.specs.Tables.{widths_of};
    ghost use Rattle.ir_check.specs.Faults.{IsAccepted};
    ghost use Rattle.ir_parse_top.specs.Text.{IsOfText};

    ghost Value = { ModuleParts };

    ghost coded = { Prim.hlevel (codes, ty.the_row.coded, init.the_row.coded) };

    ghost view = { λ a. a.module };

    ghost invariant = { λ a. IsAccepted a.module × (a.layout ≡ layout_of a.module) × (a.widths ≡ widths_of a.module) × IsOfText a.module };
}

impl Accepted {
    /// The module.
    pub fn module(&self) -> &Module
        ensures module { result.now ≡ self.now }
        ensures accepted { IsAccepted self.now }
        ensures text { IsOfText self.now }
    {
        &self.module
    }

    /// Its layout.
    pub fn layout(&self) -> &Layout
        ensures { result.now ≡ layout_of self.now }
    {
        &self.layout
    }

    /// How many bits a register of the function with this number has: 64 for a `ptr`, and one more than its type's for
    /// the result of a `cmpxchg`.
    pub fn width(&self, func: u32, reg: Loc) -> u32
        ensures { (f : FuncParts) → slice_get self.now.funcs func ≡ Some f → result ≡ width_of f reg }
    {
        self.widths.width(func as usize, reg)
    }
}

// The layout and the widths of a module without a fault.
fn checked(alloc: Global, m: &Module) -> Result<(Layout, Widths), CheckError>
    ensures accepted { OnOk result (IsAccepted m.now) }
    ensures layout { IfOk result (λ r. r.0 ≡ layout_of m.now) }
    ensures widths { IfOk result (λ r. r.1 ≡ widths_of m.now) }
    ensures fault { IfErr result (λ e. Refuses m.now e) }
{
    let layout = check_lines(alloc, m)?;
    if let Err(error) = check_flows(alloc, m) {
        return Err(error);
    }
    let widths = Widths::new(alloc, m)?;
    Ok((layout, widths))
}

/// The module of a text as an accepted one, or its first fault: of the first kind in the order of `Kind` of which there is one, and
/// of that kind at the first place. Then, and for want of memory, the module is dropped.
pub fn accept(alloc: Global, m: Module) -> Result<Accepted, CheckError>
    requires { IsOfText m }
    ensures accepted { OnOk result (IsAccepted m) }
    ensures module { IfOk result (λ a. a ≡ m) }
    ensures fault { IfErr result (λ e. Refuses m e) }
{
    match checked(alloc, &m) {
        Ok((layout, widths)) => Ok(Accepted {
            module: m,
            layout,
            widths,
        }),
        Err(error) => Err(error),
    }
}
