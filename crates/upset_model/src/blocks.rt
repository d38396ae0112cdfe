//! The windows of a block, as intervals.
ghost use Rattle.std.specs.Prelude.{◌≡◌, ◌<◌, ◌≤◌, ◌^◌, ◌++◌, ◌∷◌, [], length, reverse, IfSome, OnOk, IfOk};
ghost use Rattle.ir_core.specs.declared.values.Side.TheVariants.{M};
ghost use Rattle.upset_model.specs.Intervals.{first_checked, copies_from, on_side, checked_intervals, effect_intervals, intervals_at, intervals_of, same_mode, holds, is_held};

use crate::instructions::{checks, is_between, is_copy, is_effect, same_reg, used_by};
use hard_ir::{HInst, HReg};
use ir_core::{Inst, Loc, Side};
use std::alloc::{AllocError, Global};
use std::marker::Model;

/// Where a register is in a window owing to one effect or copy: inside transactions or outside, as long as the index of the next
/// instruction lies in this range.
#[derive(Clone, Copy)]
pub struct Interval {
    pub reg: HReg,
    pub inside: bool,
    pub from: u32,
    pub until: u32,
}

/// The intervals of a block. Contracts see their list.
#[derive(Drop)]
pub(crate) struct BlockWindows {
    intervals: Vec<Interval>,
}

impl Model for BlockWindows {
    ghost use Rattle.std.specs.Prelude.{List};
    ghost use Rattle.upset_model.specs.declared.blocks.Interval.{Interval};

    ghost Value = { List Interval };

    ghost view = { λ b. b.intervals.items };
}

// Whether a mode is the same.
fn same_mode(a: bool, b: bool) -> bool
    ensures { result ≡ same_mode a b }
{
    a == b
}

// The index of the first active check of a register, with only checks and `end` after it.
fn first_check(passed: &[HInst], r: HReg, inside: bool) -> Option<usize>
    ensures first { result ≡ first_checked inside r (reverse passed.now) }
    ensures within { IfSome result (λ at. at < length passed.now) }
{
    let mut first = None;
    let mut at = passed.len();
    while at > 0 {
        at -= 1;
        let inst = &passed[at];
        if !is_between(inst) {
            return first;
        }
        if checks(inst, r, inside) {
            first = Some(at);
        }
    }
    first
}

impl Interval {
    // Whether it is one of a register in a mode, and an index lies in it.
    fn holds(&self, r: HReg, inside: bool, q: u32) -> bool
        ensures { result ≡ holds r inside q self.now }
    {
        same_reg(r, self.reg) && same_mode(inside, self.inside) && self.from <= q && q <= self.until
    }
}

// Adds the intervals of registers that an effect uses, whose instruction comes after these.
fn add_checked(
    passed: &[HInst],
    inside: bool,
    side: Side,
    regs: &[Loc],
    intervals: &mut Vec<Interval>,
) -> Result<(), AllocError>
    requires { length passed.now < 2 ^ 32 }
    ensures { OnOk result (intervals.new.items ≡ intervals.old.items ++ checked_intervals inside side (reverse passed.now) regs.now) }
{
    for loc in regs {
        let reg = HReg { side, loc: *loc };
        if let Some(check) = first_check(passed, reg, inside) {
            intervals.push(Interval {
                reg,
                inside,
                from: (check + 1) as u32,
                until: passed.len() as u32,
            })?;
        }
    }
    Ok(())
}

// Adds the intervals of an instruction in a mode, if it is an effect there.
fn add_effect(
    alloc: Global,
    passed: &[HInst],
    inst: &Inst,
    side: Side,
    inside: bool,
    checked: bool,
    intervals: &mut Vec<Interval>,
) -> Result<(), AllocError>
    requires { length passed.now < 2 ^ 32 }
    ensures { OnOk result (intervals.new.items ≡ intervals.old.items ++ effect_intervals checked inside side (reverse passed.now) inst.now) }
{
    if !is_effect(inst, inside, checked) {
        return Ok(());
    }
    let regs = used_by(alloc, inst)?;
    add_checked(passed, inside, side, regs.as_slice(), intervals)
}

// Adds the interval of a copy of a register in a mode.
fn add_copy(
    reg: Loc,
    inside: bool,
    from: usize,
    until: usize,
    intervals: &mut Vec<Interval>,
) -> Result<(), AllocError>
    requires from { from < 2 ^ 32 }
    requires until { until < 2 ^ 32 }
    ensures { OnOk result (intervals.new.items
        ≡ intervals.old.items ++ record { reg = on_side M reg; inside = inside; from = from; until = until } ∷ []) }
{
    intervals.push(Interval {
        reg: HReg {
            side: Side::M,
            loc: reg,
        },
        inside,
        from: from as u32,
        until: until as u32,
    })?;
    Ok(())
}

// Adds the intervals of an instruction that comes after these.
fn add_at(
    alloc: Global,
    passed: &[HInst],
    inst: &HInst,
    checked: bool,
    from: usize,
    intervals: &mut Vec<Interval>,
) -> Result<(), AllocError>
    requires few { length passed.now < 2 ^ 32 }
    requires from { from ≡ copies_from (reverse passed.now) }
    requires within { from ≤ length passed.now }
    ensures { OnOk result (intervals.new.items ≡ intervals.old.items ++ intervals_at checked (reverse passed.now) inst.now) }
{
    match inst {
        HInst::Do { side, inst, .. } => {
            add_effect(alloc, passed, inst, *side, false, checked, intervals)?;
            add_effect(alloc, passed, inst, *side, true, checked, intervals)
        }
        HInst::Mov { reg, .. } => {
            add_copy(*reg, false, from, passed.len(), intervals)?;
            add_copy(*reg, true, from, passed.len(), intervals)
        }
        HInst::Cut
        | HInst::Begin
        | HInst::End
        | HInst::Tick(_)
        | HInst::Chk { .. }
        | HInst::ChkMem { .. } => Ok(()),
    }
}

impl BlockWindows {
    /// The intervals of a list, in a block whose branch is checked by its targets or not.
    pub(crate) fn of(
        alloc: Global,
        list: &[HInst],
        checked: bool,
    ) -> Result<BlockWindows, AllocError>
        requires { length list.now < 2 ^ 32 }
        ensures { IfOk result (λ windows. windows ≡ intervals_of checked list.now) }
    {
        let mut intervals = Vec::new(alloc);
        let mut from = 0;
        for (at, inst) in list.iter().enumerate() {
            add_at(alloc, &list[..at], inst, checked, from, &mut intervals)?;
            if !is_copy(inst) {
                from = at + 1;
            }
        }
        Ok(BlockWindows { intervals })
    }

    /// Whether an index lies in an interval of a register in a mode.
    pub(crate) fn holds(&self, r: HReg, inside: bool, q: u32) -> bool
        ensures { result ≡ is_held r inside q self.now }
    {
        for interval in &self.intervals {
            if interval.holds(r, inside, q) {
                return true;
            }
        }
        false
    }
}
