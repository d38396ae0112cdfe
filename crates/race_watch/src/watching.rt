//! A watched run.
ghost use Rattle.std.specs.Prelude.{◌≡◌, ◌+◌, ◌<◌, ◌≤◌, ◌^◌, ◌∷◌, [], List, ℕ, length, Some, None, IfOk, IfSome, OnOk};
ghost use Rattle.src_meaning.specs.Step.{step};
ghost use Rattle.turn_runs.specs.Runs.{grouped};
ghost use Rattle.race_watch.specs.Watching.{result_of, watch_of};
ghost use Rattle.race_watch.specs.Watchers.{IsKept, IsStart, outcome_on, stopped};

use crate::table::Table;
use crate::{SrcStop, WatchResult};
use ir_check::Accepted;
use ir_core::{Out, Outs, Seq, Tid};
use sched_file::{Event, Schedule};
use src_meaning::{Source, Step};
use std::alloc::{AllocError, Global};
use turn_runs::TurnLog;

/// A watch under way: the source, the next accesses of its threads, the turns that went or ended, and how many turns have passed.
#[derive(Drop)]
struct Watcher<'a> {
    source: Source<'a>,
    table: Table,
    log: TurnLog,
    passed: u64,
}

// A step of a thread. One that was never made is idle.
fn stepped(source: &mut Source<'_>, t: Tid) -> Result<Step, AllocError>
    ensures answer { IfOk result (λ answer. answer ≡ (step source.old.program source.old.state t.0).1) }
    ensures state { OnOk result (source.new ≡ record source.old { state = (step source.old.program source.old.state t.0).0 }) }
{
    if t.0 as usize >= source.made() {
        return Ok(Step::Idle);
    }
    source.step(t)
}

// What has been given out so far.
fn given_out(alloc: Global, source: &Source<'_>) -> Result<Outs, AllocError>
    ensures { IfOk result (λ outs. outs ≡ source.now.state.process.world.outputs) }
{
    Ok(Seq::from_vec(Vec::from_slice(alloc, source.outputs())?))
}

impl<'a> Watcher<'a> {
    /// A watch that begins.
    fn new(alloc: Global, m: &'a Accepted, args: &[u64]) -> Result<Watcher<'a>, AllocError>
        ensures start { IfOk result (λ w. IsStart m.now args.now w) }
        ensures kept { IfOk result (λ w. IsKept w) }
    {
        let source = Source::new(alloc, m, args)?;
        let table = Table::of(alloc, &source)?;
        Ok(Watcher {
            source,
            table,
            log: TurnLog::new(alloc),
            passed: 0,
        })
    }

    // A turn of a thread, where no two threads race. The answer is what stops the watch, if anything does.
    fn turn(&mut self, alloc: Global, t: Tid) -> Result<Option<SrcStop>, AllocError>
        requires kept { IsKept self.old }
        requires none { self.old.table.race ≡ None }
        requires few { self.old.passed + 1 < 2 ^ 64 }
        requires room { length self.old.log + 1 < 2 ^ 64 }
        ensures stops { IfOk result (λ found. IfSome found (λ stop. (turns : List ℕ) → stopped self.new stop ≡ outcome_on self.old (t.0 ∷ turns))) }
        ensures goes { IfOk result (λ found. found ≡ None → (turns : List ℕ) → outcome_on self.new turns ≡ outcome_on self.old (t.0 ∷ turns)) }
        ensures kept { IfOk result (λ found. found ≡ None → IsKept self.new) }
        ensures passed { IfOk result (λ found. found ≡ None → self.new.passed ≡ self.old.passed + 1) }
        ensures log { IfOk result (λ found. found ≡ None → length self.new.log ≤ length self.old.log + 1) }
    {
        let passed = self.passed;
        match stepped(&mut self.source, t)? {
            Step::Went => {
                self.log.push(t)?;
                self.table.follow(alloc, &self.source, t)?;
                self.passed = passed + 1;
                Ok(None)
            }
            Step::Waits | Step::Idle => {
                self.passed = passed + 1;
                Ok(None)
            }
            Step::Undefined(cause) => Ok(Some(SrcStop::Undefined {
                n: passed,
                tid: t,
                cause,
            })),
            Step::Ended(code) => {
                self.log.push(t)?;
                Ok(Some(SrcStop::End(code)))
            }
        }
    }

    // The result with these outputs and this stop.
    fn result(self, outs: Outs, stop: SrcStop) -> WatchResult
        ensures { result ≡ record { outs = outs; stop = stop; turns = grouped self.entry.log } }
    {
        let Watcher {
            source,
            table,
            log,
            passed: _,
        } = self;
        drop(source);
        drop(table);
        WatchResult {
            outs,
            stop,
            turns: log.into_runs(),
        }
    }

    // What the watch comes to at a turn of a thread, where two threads race.
    fn raced(mut self, alloc: Global, t: Tid, race: (Tid, Tid)) -> Result<WatchResult, AllocError>
        requires kept { IsKept self }
        requires race { self.table.race ≡ Some race }
        ensures { IfOk result (λ r. (turns : List ℕ) → r ≡ result_of (outcome_on self.entry (t.0 ∷ turns))) }
    {
        let outs = given_out(alloc, &self.source)?;
        let n = self.passed;
        let stop = match stepped(&mut self.source, t)? {
            Step::Undefined(cause) => SrcStop::Undefined { n, tid: t, cause },
            _ => SrcStop::Race {
                n,
                t: race.0,
                u: race.1,
            },
        };
        Ok(self.result(outs, stop))
    }

    // What stops the watch where no turn is left.
    fn last_stop(&self) -> SrcStop
        requires { IsKept self.now }
        ensures { stopped self.now result ≡ outcome_on self.now [] }
    {
        match self.table.race {
            Some((t, u)) => SrcStop::Race {
                n: self.passed,
                t,
                u,
            },
            None => SrcStop::Bound,
        }
    }

    // What the watch comes to where this stops it.
    fn finish(self, alloc: Global, stop: SrcStop) -> Result<WatchResult, AllocError>
        ensures { IfOk result (λ r. r ≡ result_of (stopped self.entry stop)) }
    {
        let outs = given_out(alloc, &self.source)?;
        Ok(self.result(outs, stop))
    }
}

/// Watches a run of a module over a schedule: up to the first end, undefined step or race, or to the last of the turns. Aborts and
/// upsets of the schedule are passed over.
pub fn watch(alloc: Global, m: &Accepted, s: &Schedule) -> Result<WatchResult, AllocError>
    ensures { IfOk result (λ r. r ≡ watch_of m.now s.now) }
{
    let mut watcher = Watcher::new(alloc, m, s.args())?;
    let mut cursor = s.cursor();
    'events: while let Some(event) = cursor.next_event() {
        if let Event::Turn(t) = event {
            if let Some(race) = watcher.table.race {
                return watcher.raced(alloc, t, race);
            }
            if let Some(stop) = watcher.turn(alloc, t)? {
                return watcher.finish(alloc, stop);
            }
        }
    }
    let stop = watcher.last_stop();
    watcher.finish(alloc, stop)
}
