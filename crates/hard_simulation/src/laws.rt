//! What a run of a hardened program says of its source (`specs/Meaning.antt`).
ghost use Rattle.std.specs.Prelude.{ℕ, List};
ghost use Rattle.ir_core.specs.Module.{ModuleParts};
ghost use Rattle.ir_check.specs.Faults.{IsAccepted};
ghost use Rattle.src_meaning.specs.Races.{IsGood};
ghost use Rattle.sched_file.specs.Events.{Happening};
ghost use Rattle.hard_ir.specs.Image.{check_table};
ghost use Rattle.hard_ir.specs.Hardened.{HardParts, hardened_by};
ghost use Rattle.hard_machine.specs.Runs.{run_on};
ghost use Rattle.hard_simulation.specs.Image.{IsImage};
ghost use Rattle.hard_simulation.specs.Meaning.{IsUpsetFree, Told, Means};

/// Over all interleavings: without upsets, a run of an image of an accepted module stands for the run of the source on the turns that it
/// tells, unless some thread could take an undefined step on them; so it does for a program without undefined steps.
/// The hardened module of the image table is such an image.
pub fn hardened_runs_stand_for_the_source()
    ensures images { (m : ModuleParts) → IsImage m (hardened_by check_table m) }
    ensures told { (m : ModuleParts) (h : HardParts) (arguments : List ℕ) (events : List Happening) → IsAccepted m → IsImage m h → IsUpsetFree events → Told m arguments (run_on h arguments events) }
    ensures meaning { (m : ModuleParts) (h : HardParts) (arguments : List ℕ) (events : List Happening) → IsAccepted m → IsImage m h → IsUpsetFree events → IsGood m arguments → Means m arguments (run_on h arguments events) }
{}
