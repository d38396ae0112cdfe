//! Texts read as schedules.
ghost use Rattle.std.specs.Prelude.{◌≡◌, ◌≤◌, ℕ, length, IfOk, IsErrOf};
ghost use Rattle.ir_core.specs.Lines.{lines_of};
ghost use Rattle.sched_file.specs.Schedule.{IsSchedule, UnfitLine};
ghost use Rattle.sched_file.specs.Events.{events_of};
ghost use Rattle.sched_file.specs.Only.{upsets_in, only};
ghost use Rattle.sched_file.specs.declared.parsing.SchedError.TheVariants.{Refused, NoMemory};

use crate::cutting::cut_line;
use crate::drafts::Draft;
use crate::one_upset::lines_with_upset;
use crate::{Cursor, Line};
use ir_core::{Copied, Seq};
use std::alloc::{AllocError, Global};
use std::marker::Model;
use thiserror::Error;

/// Why a text is no schedule.
#[derive(Debug, Drop, Error)]
pub enum SchedError {
    /// The first unfit line, counted from 1.
    #[error("unfit line {line}")]
    Refused { line: u32 },
    /// Memory for the schedule was refused.
    #[error("no memory")]
    NoMemory,
}

impl From<AllocError> for SchedError {
    ghost from_gives = { λ _ e. e ≡ NoMemory };

    fn from(_: AllocError) -> SchedError {
        SchedError::NoMemory
    }
}

/// A schedule: its arguments, and an entry for each line that isn't passed over and gives no arguments. It has at most 4,194,304 events.
#[derive(Drop)]
pub struct Schedule {
    args: Seq<u64>,
    lines: Seq<Line>,
}

impl Model for Schedule {
    ghost use Rattle.std.specs.Prelude.{◌≤◌, length};
    ghost use Rattle.std.specs.Coded.{codes};
    ghost use Rattle.std.specs.List.{AllByRecursion};
    ghost use Rattle.sched_file.specs.Events.{events_of, HasThread};
    ghost use Rattle.sched_file.specs.Schedule.{ScheduleParts};

    ghost Value = { ScheduleParts };

    ghost coded = { Prim.hlevel codes };

    ghost view = { λ s. record { args = s.args; lines = s.lines } };

    ghost invariant = { λ s. AllByRecursion HasThread s.lines × (length (events_of s.lines) ≤ 4194304) };
}

impl Schedule {
    /// The arguments.
    pub fn args(&self) -> &[u64]
        ensures { result.now ≡ self.now.args }
    {
        self.args.items()
    }

    /// The entries, in the order of their lines.
    pub fn lines(&self) -> &[Line]
        ensures { result.now ≡ self.now.lines }
    {
        self.lines.items()
    }

    /// The place before the first event.
    pub fn cursor(&self) -> Cursor<'_>
        ensures events { result ≡ events_of self.now.lines }
        ensures few { length (events_of self.now.lines) ≤ 4194304 }
    {
        Cursor::new(self.lines.items())
    }

    /// The schedule with its k-th upset alone, counted from 1: the same arguments and entries, without the other upsets.
    pub fn only(&self, alloc: Global, k: u32) -> Result<Schedule, AllocError>
        requires first { 1 ≤ k }
        requires last { k ≤ upsets_in self.now.lines }
        ensures args { IfOk result (λ s. s.args ≡ self.now.args) }
        ensures lines { IfOk result (λ s. s.lines ≡ only k self.now.lines) }
    {
        let args = self.args.copy(alloc)?;
        let lines = lines_with_upset(alloc, self.lines.items(), k)?;
        Ok(Schedule { args, lines })
    }
}

/// The schedule that a text stands for, or its first unfit line.
pub fn parse_schedule(alloc: Global, bytes: &[u8]) -> Result<Schedule, SchedError>
    requires { length bytes.now ≤ 4194304 }
    ensures schedule { IfOk result (λ s. IsSchedule bytes.now s.args s.lines) }
    ensures entries { IfOk result (λ s. length s.lines ≤ length (lines_of bytes.now)) }
    ensures unfit { (line : ℕ) → IsErrOf result (Refused line) → UnfitLine bytes.now line }
{
    let mut draft = Draft::new(alloc);
    let mut rest = bytes;
    let mut number = 0;
    'lines: while !rest.is_empty() {
        let (line, after) = cut_line(rest);
        number += 1;
        if !draft.take(alloc, line)? {
            return Err(SchedError::Refused { line: number });
        }
        rest = after;
    }
    Ok(Schedule {
        args: draft.args,
        lines: draft.lines,
    })
}
