//! How blocks begin and end, and that nothing leads to the entry (`specs/Blocks.antt`).
ghost use Rattle.std.specs.Prelude.{◌≡◌, IfOk, map};
ghost use Rattle.std.specs.List.{list_any};
ghost use Rattle.ir_check.specs.Blocks.{is_terminator, ends_well, begins_well, enters};
ghost use Rattle.ir_core.specs.Instructions.{is_phi};

use ir_core::{Block, Declare, Func, GlobalVar, Inst, Module};
use ir_flow::edges;
use ir_lines::Rule;
use std::alloc::{AllocError, Global};
use std::marker::Model;

// Whether an instruction ends a block.
fn is_terminator(inst: &Inst) -> bool
    ensures { result ≡ is_terminator inst.now }
{
    matches!(
        inst,
        Inst::Br { .. }
            | Inst::CondBr { .. }
            | Inst::Switch { .. }
            | Inst::Ret { .. }
            | Inst::Unreachable
    )
}

// Whether the last of the instructions is the one terminator.
fn ends_well(body: &[Inst]) -> bool
    ensures { result ≡ ends_well body.now }
{
    let mut left = body;
    while let [inst, rest @ ..] = left {
        if rest.is_empty() {
            return is_terminator(inst);
        }
        if is_terminator(inst) {
            return false;
        }
        left = rest;
    }
    false
}

// Whether one of the instructions is a phi.
fn has_phi(body: &[Inst]) -> bool
    ensures { result ≡ list_any is_phi body.now }
{
    for inst in body {
        if inst.is_phi() {
            return true;
        }
    }
    false
}

// Whether no phi stands behind another instruction.
fn begins_well(body: &[Inst]) -> bool
    ensures { result ≡ begins_well body.now }
{
    let mut left = body;
    while let [inst, rest @ ..] = left {
        if !inst.is_phi() {
            return !has_phi(rest);
        }
        left = rest;
    }
    true
}

/// The rule that phis stand first in a block, and its one terminator last.
#[derive(Drop)]
pub(crate) struct Terminators<'m> {
    pub m: &'m Module,
}

impl Rule for Terminators<'_> {
    ghost use Rattle.ir_check.specs.Blocks.{terminators_keep};

    ghost module_of = { λ rule. rule.m.now };

    ghost keeps = { λ rule line. terminators_keep line };

    fn global(&self, _global: &GlobalVar) -> bool {
        true
    }

    fn declare(&self, _declare: &Declare) -> bool {
        true
    }

    fn head(&self, _n: usize, _f: &Func) -> bool {
        true
    }

    fn block(&self, _n: usize, _f: &Func, _b: usize, block: &Block) -> bool {
        ends_well(block.insts.items()) && begins_well(block.insts.items())
    }

    fn inst(&self, _n: usize, _f: &Func, _b: usize, _i: usize, _inst: &Inst) -> bool {
        true
    }
}

// Whether some edge leads to the entry of a function.
fn enters(alloc: Global, f: &Func) -> Result<bool, AllocError>
    ensures { IfOk result (λ told. told ≡ enters f.now) }
{
    let e = edges(alloc, f)?;
    for (_, to) in e.pairs() {
        if *to == 0 {
            return Ok(true);
        }
    }
    Ok(false)
}

// For each function whether some edge leads to its entry.
fn entered_functions(alloc: Global, m: &Module) -> Result<Vec<bool>, AllocError>
    ensures { IfOk result (λ entered. entered.items ≡ map enters m.now.funcs) }
{
    let mut entered = Vec::with_capacity(alloc, m.funcs().len())?;
    for f in m.funcs() {
        let told = enters(alloc, f)?;
        entered.push(told)?;
    }
    Ok(entered)
}

/// The rule that no edge leads to the entry of a function. Contracts see its module.
#[derive(Drop)]
pub(crate) struct Entries<'m> {
    m: &'m Module,
    entered: Vec<bool>,
}

impl<'m> Model for Entries<'m> {
    ghost use Rattle.std.specs.Prelude.{◌≡◌, map};
    ghost use Rattle.std.specs.Coded.{codes};
    ghost use Rattle.ir_core.specs.contracts.types.Ty as ty;
    ghost use Rattle.ir_core.specs.contracts.values.Init as init;
    ghost use Rattle.ir_core.specs.Module.{ModuleParts};
    ghost use Rattle.ir_check.specs.Blocks.{enters};

    ghost Value = { ModuleParts };

    ghost coded = { Prim.hlevel (codes, ty.the_row.coded, init.the_row.coded) };

    ghost view = { λ e. e.m.now };

    ghost invariant = { λ e. e.entered.items ≡ map enters e.m.now.funcs };
}

impl<'m> Entries<'m> {
    /// The rule for a module.
    pub(crate) fn new(alloc: Global, m: &'m Module) -> Result<Entries<'m>, AllocError>
        ensures { IfOk result (λ e. e ≡ m.now) }
    {
        let entered = entered_functions(alloc, m)?;
        Ok(Entries { m, entered })
    }
}

impl Rule for Entries<'_> {
    ghost use Rattle.ir_check.specs.Blocks.{entries_keep};

    ghost module_of = { λ entries. entries };

    ghost keeps = { λ entries line. entries_keep line };

    fn global(&self, _global: &GlobalVar) -> bool {
        true
    }

    fn declare(&self, _declare: &Declare) -> bool {
        true
    }

    fn head(&self, _n: usize, _f: &Func) -> bool {
        true
    }

    fn block(&self, n: usize, _f: &Func, b: usize, _block: &Block) -> bool {
        !(b == 0 && self.entered.get(n).copied().unwrap_or(false))
    }

    fn inst(&self, _n: usize, _f: &Func, _b: usize, _i: usize, _inst: &Inst) -> bool {
        true
    }
}
