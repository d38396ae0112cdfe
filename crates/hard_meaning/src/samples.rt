//! Runs of small programs, computed from the definitions: `specs/Rows.antt` says each as an equation, over the programs of `specs/Samples.antt`.
ghost use Rattle.hard_meaning.specs.Rows.{SumIsHardened, Whole, Unfinished, UpsetUndone, UpsetHit, UpsetInWindow, UpsetUnused, UpsetMissed, UndoneTwice, UpsetStacked, HitStands, Trapped, BranchStruck, EdgeChecked, StoreUndone, WriteConflicts, ReadConflicts, BothCommit, WriteFits, WriteOverflows, ReadFits, ReadOverflows, LockedTwice, LocksWatched, WatchConflicts, FallsBack};

/// A program that gives out a sum, whole and cut short, with upsets inside and outside transactions, with aborts that were asked for, and
/// with a division in the sum's place that is undefined.
pub fn runs_of_a_sum()
    ensures text { SumIsHardened }
    ensures whole { Whole }
    ensures unfinished { Unfinished }
    ensures undone { UpsetUndone }
    ensures hit { UpsetHit }
    ensures window { UpsetInWindow }
    ensures unused { UpsetUnused }
    ensures missed { UpsetMissed }
    ensures undone_twice { UndoneTwice }
    ensures stacked { UpsetStacked }
    ensures stands { HitStands }
    ensures trapped { Trapped }
{}

/// A condition is struck between its check and its branch: without checks on edges the wrong word is given out, with them the upset is undone.
pub fn runs_of_a_branch()
    ensures window { BranchStruck }
    ensures checked { EdgeChecked }
{}

/// A pointer is struck before a store; two threads write to one line, read and write it, or write to two; lists of lines are full.
pub fn runs_with_memory()
    ensures undone { StoreUndone }
    ensures written { WriteConflicts }
    ensures read { ReadConflicts }
    ensures apart { BothCommit }
    ensures write_fits { WriteFits }
    ensures write_full { WriteOverflows }
    ensures read_fits { ReadFits }
    ensures read_full { ReadOverflows }
{}

/// Mutexes are watched by two transactions at once, taken from outside, held at a transaction's end, and locked twice.
pub fn runs_with_mutexes()
    ensures twice { LockedTwice }
    ensures watched { LocksWatched }
    ensures taken { WatchConflicts }
    ensures held { FallsBack }
{}
