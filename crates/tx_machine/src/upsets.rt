//! Upsets, and aborts that are asked for.
ghost use Rattle.std.specs.Prelude.{◌≡◌, List, [], ◌∷◌, ◌++◌, length, slice_get, IfOk, OnOk, OnErr};
ghost use Rattle.std.specs.List.{list_any};
ghost use Rattle.hard_ir.specs.Hardened.{HardParts};
ghost use Rattle.upset_model.specs.Table.{HoldsWindows};
ghost use Rattle.hard_meaning.specs.State.{Upset};
ghost use Rattle.hard_meaning.specs.Runs.{abort_in};
ghost use Rattle.hard_meaning.specs.Strikes.{kind_of, upset_by};
ghost use Rattle.tx_machine.specs.Log.{kind_as, struck_at};
ghost use Rattle.tx_machine.specs.Meant.{state_of, IsTied};
ghost use Rattle.tx_machine.specs.Upsets.{all_carried, some_standing, inside_at, window_of, core_kind, number_if, core_place, core_struck, core_upset, upset_kind};

use crate::parts::Core;
use crate::records::{Kind, UpsetLog};
use crate::strikes::StruckAt;
use crate::workers::{Status, Worker};
use ir_core::Tid;
use sched_file::UpsetSpec;
use std::alloc::AllocError;
use upset_model::WindowTable;

// Whether one of the upsets with these numbers struck.
fn some_struck(numbers: &[u64], log: &UpsetLog) -> bool
    ensures { result ≡ list_any (struck_at log.now) numbers.now }
{
    for number in numbers {
        if log.has_struck(*number) {
            return true;
        }
    }
    false
}

// Whether one of those that threads carry struck.
fn some_carried(workers: &[Worker], log: &UpsetLog) -> bool
    ensures { result ≡ list_any (struck_at log.now) (all_carried workers.now) }
{
    for worker in workers {
        if some_struck(worker.carried(), log) {
            return true;
        }
    }
    false
}

// A number of functions, blocks or instructions; 2^32 are past all memory.
fn narrow(n: usize) -> Result<u32, AllocError>
    ensures { IfOk result (λ narrow. narrow ≡ n) }
{
    match u32::try_from(n) {
        Ok(narrow) => Ok(narrow),
        Err(_) => Err(AllocError),
    }
}

// Whether a place that was struck is in a window.
fn is_in_window(windows: &WindowTable, at: StruckAt, inside: bool) -> Result<bool, AllocError>
    ensures { (h : HardParts) → HoldsWindows h windows.now → IfOk result (λ held. held ≡ window_of h inside at) }
{
    let function = narrow(at.function)?;
    let block = narrow(at.block)?;
    let index = narrow(at.index)?;
    Ok(windows.has(function, block, index, at.reg, inside))
}

// How an upset that strikes comes.
fn kind_by(stands: bool, window: bool) -> Kind
    ensures { kind_as result ≡ kind_of stands window }
{
    if stands {
        Kind::OnAnother
    } else if window {
        Kind::InWindow
    } else {
        Kind::Struck
    }
}

// The number that is left, where an upset counts.
fn number_if(kind: Kind, number: u64) -> Option<u64>
    ensures { result ≡ number_if (kind_as kind) number }
{
    match kind {
        Kind::Struck => Some(number),
        Kind::Nowhere | Kind::OnAnother | Kind::InWindow => None,
    }
}

impl<'a> Core<'a> {
    // Whether some upset stands.
    fn some_stands(&self, log: &UpsetLog) -> bool
        ensures { result ≡ some_standing self.now log.now }
    {
        log.some_firm() || some_carried(&self.workers, log)
    }

    // Whether a thread is inside a transaction.
    fn is_inside(&self, t: Tid) -> bool
        ensures { result ≡ inside_at self.now t.0 }
    {
        match self.workers.get(t.0 as usize) {
            Some(worker) => worker.is_inside(),
            None => false,
        }
    }

    // How an upset of a thread that strikes at this place comes.
    fn kind(
        &self,
        log: &UpsetLog,
        windows: &WindowTable,
        t: Tid,
        at: StruckAt,
    ) -> Result<Kind, AllocError>
        requires { HoldsWindows self.now.program windows.now }
        ensures { IfOk result (λ kind. kind_as kind ≡ core_kind self.now log.now t.0 at) }
    {
        let window = is_in_window(windows, at, self.is_inside(t))?;
        Ok(kind_by(self.some_stands(log), window))
    }

    // Where an upset strikes, if anywhere.
    fn place_of(&mut self, upset: &UpsetSpec) -> Result<Option<StruckAt>, AllocError>
        ensures place { IfOk result (λ place. place ≡ core_place upset.now self.old) }
        ensures unchanged { self.new ≡ self.old }
    {
        let t = upset.tid.0 as usize;
        if t >= self.workers.len() {
            return Ok(None);
        }
        self.workers[t].place_of(&self.program, upset)
    }

    // The thread is struck, and carries the number. For want of memory nothing changes.
    fn strike(&mut self, upset: &UpsetSpec, number: Option<u64>) -> Result<(), AllocError>
        ensures ok { OnOk result (self.new ≡ core_struck upset.now number self.old) }
        ensures err { OnErr result (self.new ≡ self.old) }
    {
        let t = upset.tid.0 as usize;
        if t >= self.workers.len() {
            return Ok(());
        }
        self.workers[t].strike(&self.program, upset, number)
    }

    // An upset that strikes joins the log, and strikes. For want of memory nothing changes.
    fn strike_as(
        &mut self,
        log: &mut UpsetLog,
        upset: &UpsetSpec,
        kind: Kind,
    ) -> Result<(), AllocError>
        ensures core { OnOk result (self.new ≡ core_struck upset.now (number_if (kind_as kind) (length log.old)) self.old) }
        ensures log { OnOk result (log.new ≡ log.old ++ kind_as kind ∷ []) }
        ensures core_err { OnErr result (self.new ≡ self.old) }
        ensures log_err { OnErr result (log.new ≡ log.old) }
    {
        let number = number_if(kind, log.len() as u64);
        log.add(kind)?;
        if let Err(e) = self.strike(upset, number) {
            log.take_back();
            return Err(e);
        }
        Ok(())
    }

    // An upset comes. For want of memory nothing changes.
    fn upset(
        &mut self,
        log: &mut UpsetLog,
        windows: &WindowTable,
        upset: &UpsetSpec,
    ) -> Result<(), AllocError>
        requires { HoldsWindows self.old.program windows.now }
        ensures core { OnOk result (self.new ≡ core_upset upset.now log.old self.old) }
        ensures log { OnOk result (log.new ≡ log.old ++ upset_kind upset.now log.old self.old ∷ []) }
        ensures core_err { OnErr result (self.new ≡ self.old) }
        ensures log_err { OnErr result (log.new ≡ log.old) }
    {
        let Some(at) = self.place_of(upset)? else {
            return log.add(Kind::Nowhere);
        };
        let kind = self.kind(log, windows, upset.tid, at)?;
        self.strike_as(log, upset, kind)
    }
}

/// An upset of a schedule. For want of memory nothing changes.
pub(crate) fn upset(
    core: &mut Core<'_>,
    log: &mut UpsetLog,
    windows: &WindowTable,
    upset: &UpsetSpec,
) -> Result<(), AllocError>
    requires tied { IsTied core.old }
    requires windows { HoldsWindows core.old.program windows.now }
    ensures ok { OnOk result (state_of core.new log.new ≡ upset_by core.old.program (state_of core.old log.old) upset.now) }
    ensures tied { IsTied core.new }
    ensures program { core.new.program ≡ core.old.program }
    ensures stop { core.new.stop ≡ core.old.stop }
    ensures err { OnErr result ((core.new ≡ core.old) × (log.new ≡ log.old)) }
{
    core.upset(log, windows, upset)
}

/// An abort of a schedule: a thread's transaction is aborted, where it has one.
pub(crate) fn abort(core: &mut Core<'_>, t: Tid)
    requires { IsTied core.old }
    ensures state { (upsets : List Upset) → state_of core.new upsets ≡ abort_in (state_of core.old upsets) t.0 (slice_get (state_of core.old upsets).workers t.0) }
    ensures tied { IsTied core.new }
    ensures program { core.new.program ≡ core.old.program }
    ensures stop { core.new.stop ≡ core.old.stop }
{
    if (t.0 as usize) < core.workers.len() {
        core.abort(t, Status::Other);
    }
}
