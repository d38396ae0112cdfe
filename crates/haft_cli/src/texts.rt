//! Texts of one form each, read or refused.
ghost use Rattle.std.specs.Prelude.{◌≤◌, length, IfOk, IfErr};
ghost use Rattle.sched_file.specs.Schedule.{IsSchedule};
ghost use Rattle.haft_cli.specs.Table.{ModuleText, ScheduleText, Checks, IsNoModule};
ghost use Rattle.haft_cli.specs.Answers.{limit, AreUnfit};
ghost use Rattle.haft_cli.specs.Work.{Refuses};

use crate::refusal::Stopped;
use ir_check::{Accepted, accept};
use ir_parse_top::parse_module;
use sched_file::{Schedule, parse_schedule};
use std::alloc::Global;

/// The accepted module of a text.
pub fn accepted(alloc: Global, text: &[u8]) -> Result<Accepted, Stopped>
    requires { length text.now ≤ limit }
    ensures module { IfOk result (Checks text.now) }
    ensures refused { IfErr result (Refuses (IsNoModule text.now)) }
{
    let m = parse_module(alloc, text)?;
    let a = accept(alloc, m)?;
    Ok(a)
}

/// The accepted module of one text and the schedule of another.
pub fn accepted_with_schedule(
    alloc: Global,
    first: &[u8],
    second: &[u8],
) -> Result<(Accepted, Schedule), Stopped>
    requires first_within { length first.now ≤ limit }
    requires second_within { length second.now ≤ limit }
    ensures module { IfOk result (λ read. Checks first.now read.0) }
    ensures schedule { IfOk result (λ read. IsSchedule second.now read.1.args read.1.lines) }
    ensures refused { IfErr result (Refuses (AreUnfit ModuleText ScheduleText first.now second.now)) }
{
    let a = accepted(alloc, first)?;
    match parse_schedule(alloc, second) {
        Ok(s) => Ok((a, s)),
        Err(error) => {
            drop(a);
            Err(Stopped::from(error))
        }
    }
}
