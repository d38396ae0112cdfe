//! Hardened modules.
ghost use Rattle.std.specs.Prelude.{◌≡◌, ◌<◌, List, Some, None, length, slice_get, unwrap_or, IfOk};
ghost use Rattle.std.specs.Option.{option_and_then};
ghost use Rattle.ir_core.specs.Module.{FuncParts};
ghost use Rattle.ir_layout.specs.Limits.{first_limit};
ghost use Rattle.ir_layout.specs.Memory.{layout_of};
ghost use Rattle.ir_types.specs.Firsts.{first_of};
ghost use Rattle.hard_ir.specs.declared.instruction.HBlock.{HBlock};
ghost use Rattle.hard_ir.specs.Facts.{IsHardened, hard_width, module_widths};

use crate::widths::{FuncWidths, module_widths};
use crate::{HBlock, HFuncs};
use ir_core::{Loc, Module};
use ir_layout::{Layout, LayoutError, layout};
use std::alloc::{AllocError, Global};
use std::marker::Model;

/// A hardened module, in the tool's own form: types, globals, declares and the heads of functions as a module has them, and for each
/// function its hardened blocks; with its layout and the widths of its registers. Contracts see the heads and the blocks.
#[derive(Drop)]
pub struct Hardened {
    module: Module,
    layout: Layout,
    funcs: HFuncs,
    widths: Vec<FuncWidths>,
}

impl Model for Hardened {
    ghost use Rattle.std.specs.Prelude.{◌≡◌};
    ghost use Rattle.std.specs.Coded.{codes};
    ghost use Rattle.ir_core.specs.contracts.types.Ty as ty;
    ghost use Rattle.ir_core.specs.contracts.values.Init as init;
    ghost use Rattle.ir_layout.specs.Memory.{layout_of};
    ghost use Rattle.hard_ir.specs.Hardened.{HardParts};
    ghost use Rattle.hard_ir.specs.Facts.{IsHardened, module_widths};

    ghost Value = { HardParts };

    ghost coded = { Prim.hlevel (codes, ty.the_row.coded, init.the_row.coded) };

    ghost view = { λ h. record { heads = h.module; funcs = h.funcs } };

    ghost invariant = { λ h. IsHardened (record { heads = h.module; funcs = h.funcs })
        × (h.layout ≡ layout_of h.module)
        × (h.widths.items ≡ module_widths h.module.funcs h.funcs) };
}

// The layout of a module that keeps its limits.
fn layout_within(alloc: Global, m: &Module) -> Result<Layout, AllocError>
    requires { first_limit m.now ≡ None }
    ensures { IfOk result (λ l. l ≡ layout_of m.now) }
{
    match layout(alloc, m) {
        Ok(layout) => Ok(layout),
        Err(LayoutError::NoMemory) => Err(AllocError),
        Err(LayoutError::Limit { .. }) => unreachable!(),
    }
}

// The layout and the widths of a module.
fn measured(
    alloc: Global,
    m: &Module,
    funcs: &HFuncs,
) -> Result<(Layout, Vec<FuncWidths>), AllocError>
    requires limits { first_limit m.now ≡ None }
    requires count { length funcs.now ≡ length m.now.funcs }
    ensures layout { IfOk result (λ r. r.0 ≡ layout_of m.now) }
    ensures widths { IfOk result (λ r. r.1.items ≡ module_widths m.now.funcs funcs.now) }
{
    let layout = layout_within(alloc, m)?;
    let widths = module_widths(alloc, m.funcs(), funcs.items())?;
    Ok((layout, widths))
}

impl Hardened {
    /// The hardened module of its heads and its blocks. It takes memory in proportion to them. For want of memory there is none, and
    /// both are dropped.
    pub fn new(alloc: Global, heads: Module, funcs: HFuncs) -> Result<Hardened, AllocError>
        requires { IsHardened (record { heads = heads; funcs = funcs }) }
        ensures { IfOk result (λ h. h ≡ record { heads = heads; funcs = funcs }) }
    {
        let (layout, widths) = measured(alloc, &heads, &funcs)?;
        Ok(Hardened {
            module: heads,
            layout,
            funcs,
            widths,
        })
    }

    /// The heads, as a module without blocks, and the blocks.
    pub fn take(self) -> (Module, HFuncs)
        ensures heads { result.0 ≡ self.heads }
        ensures blocks { result.1 ≡ self.funcs }
        ensures hardened { IsHardened self }
    {
        let Hardened { module, funcs, .. } = self;
        (module, funcs)
    }

    /// The heads, as a module without blocks.
    pub fn module(&self) -> &Module
        ensures heads { result.now ≡ self.now.heads }
        ensures hardened { IsHardened self.now }
    {
        &self.module
    }

    /// The layout of the heads.
    pub fn layout(&self) -> &Layout
        ensures layout { result.now ≡ layout_of self.now.heads }
        ensures hardened { IsHardened self.now }
    {
        &self.layout
    }

    /// The blocks of the function with this number.
    pub fn blocks(&self, func: u32) -> &[HBlock]
        requires { func < length self.now.funcs }
        ensures blocks { slice_get self.now.funcs func ≡ Some result.now }
        ensures hardened { IsHardened self.now }
    {
        self.funcs.items()[func as usize].items()
    }

    // How many bits a register of the function with this number holds, where the function defines it.
    fn found(&self, func: u32, reg: Loc) -> Option<u32>
        ensures { result ≡ option_and_then (λ table. first_of table reg) (slice_get (module_widths self.now.heads.funcs self.now.funcs) func) }
    {
        let table = self.widths.get(func as usize)?;
        table.get(reg)
    }

    /// How many bits a register of the function with this number holds, on either side: 64 for a `ptr`, and one more than its type's
    /// for what a `cmpxchg` gave; and 0 for any other name. It takes no memory.
    pub fn width(&self, func: u32, reg: Loc) -> u32
        ensures { (head : FuncParts) (blocks : List HBlock)
            → slice_get self.now.heads.funcs func ≡ Some head
            → slice_get self.now.funcs func ≡ Some blocks
            → result ≡ hard_width head blocks reg }
    {
        self.found(func, reg).unwrap_or(0)
    }
}
