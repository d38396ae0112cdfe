//! Programs that meet the law's premises (`specs/Samples.antt`), and runs of them, computed from the definitions (`specs/Rows.antt`).
ghost use Rattle.std.specs.Prelude.{ℕ, List};
ghost use Rattle.ir_check.specs.Faults.{IsAccepted};
ghost use Rattle.src_meaning.specs.Races.{IsGood};
ghost use Rattle.sched_file.specs.Events.{Happening};
ghost use Rattle.hard_ir.specs.Hardened.{harden};
ghost use Rattle.hard_meaning.specs.Runs.{run_on};
ghost use Rattle.hard_meaning.specs.Samples.{sum};
ghost use Rattle.tx_simulation.specs.Meaning.{AreCovered, Means};
ghost use Rattle.tx_simulation.specs.Rows.{Elided, Aborted, FallenBack, HealedInside, StoppedOutside, HitLate, HitTwice, HitBetween};
ghost use Rattle.tx_simulation.specs.Samples.{counted};

/// A program that gives out a sum, and one with two threads, a mutex, loads and stores, are accepted, and no interleaving of their threads comes
/// to an undefined step or to a race. So each run of their hardened modules over which the law speaks stands for a run of the source.
pub fn good_programs_exist()
    ensures accepted { IsAccepted sum × IsAccepted counted }
    ensures good { (arguments : List ℕ) → IsGood sum arguments × IsGood counted arguments }
    ensures sums_mean { (arguments : List ℕ) (events : List Happening) → AreCovered (run_on (harden sum) arguments events).upsets
        → Means sum arguments (run_on (harden sum) arguments events) }
    ensures counts_mean { (arguments : List ℕ) (events : List Happening) → AreCovered (run_on (harden counted) arguments events).upsets
        → Means counted arguments (run_on (harden counted) arguments events) }
{}

/// Runs of the program with two threads: both transactions commit over one mutex that nobody takes; one is aborted; one is given up; an upset
/// is undone, stops the machine, or is of no use to anything; and two with upsets that the law leaves out.
pub fn runs_of_two_threads()
    ensures elided { Elided }
    ensures aborted { Aborted }
    ensures fallen_back { FallenBack }
    ensures undone { HealedInside }
    ensures stopped { StoppedOutside }
    ensures unused { HitLate }
    ensures stacked { HitTwice }
    ensures window { HitBetween }
{}
