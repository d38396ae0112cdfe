//! Laws of the definition: a text has one meaning or one first unfit line, and not both.
ghost use Rattle.std.specs.Prelude.{ℕ, ◌≡◌, List};
ghost use Rattle.sched_file.specs.Schedule.{IsSchedule, UnfitLine, Verdict};
ghost use Rattle.sched_file.specs.declared.entries.Line.{Line as Entry};

/// A text is a schedule in at most one way.
pub fn one_meaning()
    ensures { (bytes args others : List ℕ) (lines again : List Entry) →
        IsSchedule bytes args lines → IsSchedule bytes others again → (args ≡ others) × (lines ≡ again) }
{}

/// A text that is a schedule has no unfit line.
pub fn a_schedule_has_no_unfit_line()
    ensures { (bytes args : List ℕ) (lines : List Entry) (number : ℕ) →
        IsSchedule bytes args lines → UnfitLine bytes number → ⊥ }
{}

/// A text has at most one first unfit line.
pub fn one_unfit_line()
    ensures { (bytes : List ℕ) (number other : ℕ) →
        UnfitLine bytes number → UnfitLine bytes other → number ≡ other }
{}

/// Each text is a schedule or has a first unfit line.
pub fn schedule_or_unfit()
    ensures { (bytes : List ℕ) → Verdict bytes }
{}
