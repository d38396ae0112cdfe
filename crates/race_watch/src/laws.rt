//! What a watched run says of its source (`specs/SourceRuns.antt`).
ghost use Rattle.ir_core.specs.Module.{ModuleParts};
ghost use Rattle.sched_file.specs.Schedule.{ScheduleParts};
ghost use Rattle.src_meaning.specs.Races.{IsGood};
ghost use Rattle.race_watch.specs.Watching.{watch_of};
ghost use Rattle.race_watch.specs.SourceRuns.{IsSourceRun, IsFinding};

/// A watched run has the answers and the outputs of the source run on the turns that it reports: each answer is Went, but that the last
/// is Ended(C) exactly where it stops with `End(C)`; where it stops at an undefined step or a race, the run has come to one. So the watch of
/// a module that is good on the schedule's arguments finds neither.
pub fn watched_runs_are_source_runs()
    ensures source { (m : ModuleParts) (s : ScheduleParts) → IsSourceRun m s.args (watch_of m s) }
    ensures good { (m : ModuleParts) (s : ScheduleParts) → IsGood m s.args → IsFinding (watch_of m s).stop → ⊥ }
{}
