//! Hardened programs, run.
ghost use Rattle.std.specs.Prelude.{◌≡◌, IfOk};
ghost use Rattle.ir_core.specs.Module.{ModuleParts};
ghost use Rattle.ir_check.specs.Faults.{IsAccepted};
ghost use Rattle.src_meaning.specs.Races.{IsGood};
ghost use Rattle.sched_file.specs.Events.{events_of};
ghost use Rattle.hard_ir.specs.Hardened.{harden};
ghost use Rattle.hard_ir.specs.Images.{IsLooseImage, IsNamedImage};
ghost use Rattle.hard_meaning.specs.Runs.{run_on};
ghost use Rattle.hard_simulation.specs.Meaning.{IsFailure, IsUpsetFree};
ghost use Rattle.renamed_modules.specs.Numbered.{AreNumbered, HasFewNames};
ghost use Rattle.tx_simulation.specs.Meaning.{AreCovered, AreGone, Means};

use crate::{RunResult, harden};
use hard_ir::Hardened;
use ir_check::Accepted;
use sched_file::Schedule;
use std::alloc::{AllocError, Global};
use tx_machine::Machine;

/// Runs a hardened module, with a schedule's arguments, over its events: the result is that of the machine with transactions, lock elision
/// and upsets. Events after the stop change nothing.
pub fn run_hardened(alloc: Global, h: &Hardened, s: &Schedule) -> Result<RunResult, AllocError>
    // The result is that of the run on the events.
    ensures exact { IfOk result (λ r. r ≡ run_on h.now s.now.args (events_of s.now.lines)) }
    // Where the hardened module is an image of an accepted one that is good on the arguments, the result stands for the run of that source on
    // the turns that it tells, unless some upset struck in a window or while an earlier one stood.
    ensures meaning { (m : ModuleParts) → IsAccepted m → IsLooseImage m h.now → IsGood m s.now.args
        → IfOk result (λ r. AreCovered r.upsets → Means m s.now.args r) }
    // Where nothing is left of any upset, no check fails and nothing undefined is met.
    ensures never_fails { (m : ModuleParts) → IsAccepted m → IsLooseImage m h.now → IsGood m s.now.args
        → IfOk result (λ r. AreGone r.upsets → ¬ IsFailure r.stop) }
    // Both hold of a schedule without upsets.
    ensures without_upsets { (m : ModuleParts) → IsAccepted m → IsLooseImage m h.now → IsGood m s.now.args → IsUpsetFree (events_of s.now.lines)
        → IfOk result (λ r. Means m s.now.args r × ¬ IsFailure r.stop) }
    // Of an image by names, as a hardened text that was read is one, the result stands for its source too.
    ensures by_names { (m : ModuleParts) → IsAccepted m → AreNumbered m → IsNamedImage m h.now → HasFewNames h.now.heads → IsGood m s.now.args
        → IfOk result (λ r. AreCovered r.upsets → Means m s.now.args r) }
{
    let mut machine = Machine::new(alloc, h, s.args())?;
    let mut cursor = s.cursor();
    'events: while let Some(event) = cursor.next_event() {
        machine.event(&event)?;
    }
    Ok(machine.result())
}

/// Hardens an accepted module, and runs it as `run_hardened` does.
pub fn run(alloc: Global, a: &Accepted, s: &Schedule) -> Result<RunResult, AllocError>
    // The result is that of the hardened module's run on the events.
    ensures exact { IfOk result (λ r. r ≡ run_on (harden a.now) s.now.args (events_of s.now.lines)) }
    // The result stands for the run of a good source on the turns that it tells, unless some upset struck in a window or while an earlier one
    // stood.
    ensures meaning { IsGood a.now s.now.args → IfOk result (λ r. AreCovered r.upsets → Means a.now s.now.args r) }
    // Where nothing is left of any upset, no check fails and nothing undefined is met.
    ensures never_fails { IsGood a.now s.now.args → IfOk result (λ r. AreGone r.upsets → ¬ IsFailure r.stop) }
    // Both hold of a schedule without upsets.
    ensures without_upsets { IsGood a.now s.now.args → IsUpsetFree (events_of s.now.lines)
        → IfOk result (λ r. Means a.now s.now.args r × ¬ IsFailure r.stop) }
{
    // It is accepted, and so its hardened module is an image of it.
    let _ = a.module();
    let hardened = harden(alloc, a)?;
    run_hardened(alloc, &hardened, s)
}
