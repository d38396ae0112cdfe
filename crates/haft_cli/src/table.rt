//! The table of commands: the report of each for what its files hold.
ghost use Rattle.std.specs.Prelude.{◌≡◌, ◌≤◌, length, IfOk, IfErr};
ghost use Rattle.haft_cli.specs.Table.{Report, Refused, row_of, run_report, watch_report};
ghost use Rattle.haft_cli.specs.Answers.{limit, Works};
ghost use Rattle.haft_cli.specs.Work.{Refuses};

use crate::command::Command;
use crate::counts::check_report;
use crate::refusal::Stopped;
use crate::texts::{accepted, accepted_with_schedule};
use haft_run::{report, run, src_report};
use ir_check::Accepted;
use race_watch::watch;
use sched_file::Schedule;
use std::alloc::{AllocError, Global};

/// The report of a module's run, hardened, over a schedule.
fn run_report(alloc: Global, a: &Accepted, s: &Schedule) -> Result<Vec<u8>, AllocError>
    ensures { IfOk result (λ text. text.items ≡ run_report a.now s.now) }
{
    let outcome = run(alloc, a, s)?;
    report(alloc, &outcome)
}

/// The report of a module's watch over a schedule.
fn watch_report(alloc: Global, a: &Accepted, s: &Schedule) -> Result<Vec<u8>, AllocError>
    ensures { IfOk result (λ text. text.items ≡ watch_report a.now s.now) }
{
    let outcome = watch(alloc, a, s)?;
    src_report(alloc, &outcome)
}

impl Command {
    /// The report of the command where its files hold these bytes; of a file that it doesn't read, any.
    pub fn report(self, alloc: Global, first: &[u8], second: &[u8]) -> Result<Vec<u8>, Stopped>
        requires first_within { length first.now ≤ limit }
        requires second_within { length second.now ≤ limit }
        ensures report { IfOk result (λ text. Works (row_of self) first.now second.now (Report text.items)) }
        ensures refused { IfErr result (Refuses (λ refusal. Works (row_of self) first.now second.now (Refused refusal))) }
    {
        match self {
            Command::Check => {
                let a = accepted(alloc, first)?;
                let text = check_report(alloc, &a);
                drop(a);
                Ok(text?)
            }
            Command::Run => {
                let (a, s) = accepted_with_schedule(alloc, first, second)?;
                let text = run_report(alloc, &a, &s);
                drop(a);
                drop(s);
                Ok(text?)
            }
            Command::Src => {
                let (a, s) = accepted_with_schedule(alloc, first, second)?;
                let text = watch_report(alloc, &a, &s);
                drop(a);
                drop(s);
                Ok(text?)
            }
        }
    }
}
