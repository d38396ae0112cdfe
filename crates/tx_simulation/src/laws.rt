//! What a run of a hardened program says of its source (`specs/Meaning.antt`).
ghost use Rattle.std.specs.Prelude.{ℕ, List};
ghost use Rattle.ir_core.specs.Module.{ModuleParts};
ghost use Rattle.ir_check.specs.Faults.{IsAccepted};
ghost use Rattle.src_meaning.specs.Races.{IsGood};
ghost use Rattle.sched_file.specs.Events.{Happening};
ghost use Rattle.hard_ir.specs.Facts.{AreShort};
ghost use Rattle.hard_ir.specs.Hardened.{HardParts, harden};
ghost use Rattle.hard_ir.specs.Images.{IsLooseImage, IsNamedImage};
ghost use Rattle.hard_simulation.specs.Meaning.{IsFailure, IsUpsetFree};
ghost use Rattle.hard_meaning.specs.Runs.{run_on};
ghost use Rattle.renamed_modules.specs.Numbered.{AreNumbered, HasFewNames};
ghost use Rattle.tx_simulation.specs.Meaning.{AreCovered, AreGone, Means};

/// Over all interleavings, conflicts, full lists, retries, aborts that are asked for, elided mutexes, and any number of upsets: a run of an image
/// of an accepted module that is good on its arguments stands for the run of the source on the turns that it tells, unless some
/// upset struck in a window or while an earlier one stood. It fails a check or traps only after an upset that no abort undid.
/// The hardened module of the image table is such an image; so is whatever is an image by names, as a hardened text that was read.
pub fn hardened_runs_stand_for_the_source()
    ensures images { (m : ModuleParts) → AreShort (harden m).funcs → IsLooseImage m (harden m) }
    ensures meaning { (m : ModuleParts) (h : HardParts) (arguments : List ℕ) (events : List Happening) → IsAccepted m → IsLooseImage m h
        → IsGood m arguments → AreCovered (run_on h arguments events).upsets → Means m arguments (run_on h arguments events) }
    ensures never_fails { (m : ModuleParts) (h : HardParts) (arguments : List ℕ) (events : List Happening) → IsAccepted m → IsLooseImage m h
        → IsGood m arguments → AreGone (run_on h arguments events).upsets → IsFailure (run_on h arguments events).stop → ⊥ }
    ensures without_upsets { (m : ModuleParts) (h : HardParts) (arguments : List ℕ) (events : List Happening) → IsAccepted m → IsLooseImage m h
        → IsGood m arguments → IsUpsetFree events → Means m arguments (run_on h arguments events) × (IsFailure (run_on h arguments events).stop → ⊥) }
    ensures by_names { (m : ModuleParts) (h : HardParts) (arguments : List ℕ) (events : List Happening) → IsAccepted m → AreNumbered m
        → IsNamedImage m h → HasFewNames h.heads → IsGood m arguments → AreCovered (run_on h arguments events).upsets
        → Means m arguments (run_on h arguments events) }
{}
