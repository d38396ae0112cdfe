//! Turns in order, kept as maximal runs.
ghost use Rattle.std.specs.Prelude.{◌≡◌, ◌+◌, ◌-◌, ◌<◌, ◌^◌, ◌∷◌, [], ◌++◌, ◌≤◌, length, replicate, take, OnOk, OnErr};
ghost use Rattle.turn_runs.specs.Runs.{grouped, turns_of, added, added_run, shortened};

use ir_core::{Seq, Tid, Turns};
use std::alloc::{AllocError, Global};
use std::marker::Model;

/// Turns in order. Contracts see the list of their threads' numbers.
#[derive(Drop)]
pub struct TurnLog {
    runs: Vec<(Tid, u64)>,
}

impl Model for TurnLog {
    ghost use Rattle.std.specs.Prelude.{List, ℕ, ◌≡◌};
    ghost use Rattle.turn_runs.specs.Runs.{grouped, turns_of};

    ghost Value = { List ℕ };

    ghost view = { λ log. turns_of log.runs.items };

    ghost invariant = { λ log. log.runs.items ≡ grouped (turns_of log.runs.items) };
}

/// Adds a turn at the end of runs.
fn add_turn(runs: &mut Vec<(Tid, u64)>, tid: Tid) -> Result<(), AllocError>
    requires { length (turns_of runs.old.items) + 1 < 2 ^ 64 }
    ensures ok { OnOk result (runs.new.items ≡ added tid.0 runs.old.items) }
    ensures err { OnErr result (runs.new.items ≡ runs.old.items) }
{
    if let Some(last) = runs.last_mut() {
        if tid == last.0 {
            last.1 += 1;
            return Ok(());
        }
    }
    runs.push((tid, 1))?;
    Ok(())
}

/// Adds so many turns at the end of runs. A run of 2^64 turns is past all memory.
fn add_turns(runs: &mut Vec<(Tid, u64)>, tid: Tid, count: u64) -> Result<(), AllocError>
    requires { 1 ≤ count }
    ensures ok { OnOk result (runs.new.items ≡ added_run tid.0 count runs.old.items) }
    ensures err { OnErr result (runs.new.items ≡ runs.old.items) }
{
    if let Some(last) = runs.last_mut() {
        if tid == last.0 {
            let Some(sum) = last.1.checked_add(count) else {
                return Err(AllocError);
            };
            last.1 = sum;
            return Ok(());
        }
    }
    runs.push((tid, count))?;
    Ok(())
}

/// Takes the last turn of runs back, where there is one.
fn remove_turn(runs: &mut Vec<(Tid, u64)>)
    ensures { runs.new.items ≡ shortened runs.old.items }
{
    let count = runs.len();
    if count == 0 {
        return;
    }
    let last = runs[count - 1];
    if last.1 > 1 {
        runs[count - 1] = (last.0, last.1 - 1);
    } else {
        let _ = runs.pop();
    }
}

impl TurnLog {
    /// No turn. It takes no memory.
    pub fn new(alloc: Global) -> TurnLog
        ensures { result ≡ [] }
    {
        TurnLog {
            runs: Vec::new(alloc),
        }
    }

    /// Adds a turn of a thread. For want of memory nothing changes.
    pub fn push(&mut self, tid: Tid) -> Result<(), AllocError>
        requires { length self.old + 1 < 2 ^ 64 }
        ensures ok { OnOk result (self.new ≡ self.old ++ tid.0 ∷ []) }
        ensures err { OnErr result (self.new ≡ self.old) }
    {
        add_turn(&mut self.runs, tid)?;
        Ok(())
    }

    /// Adds so many turns of a thread, in time that doesn't depend on how many. For want of memory nothing changes; a run of 2^64 turns is
    /// past all memory.
    pub fn push_run(&mut self, tid: Tid, count: u64) -> Result<(), AllocError>
        ensures ok { OnOk result (self.new ≡ self.old ++ replicate count tid.0) }
        ensures err { OnErr result (self.new ≡ self.old) }
    {
        if count == 0 {
            return Ok(());
        }
        add_turns(&mut self.runs, tid, count)?;
        Ok(())
    }

    /// Takes the last turn back, where there is one.
    pub fn take_back(&mut self)
        ensures { self.new ≡ take (length self.old - 1) self.old }
    {
        remove_turn(&mut self.runs);
    }

    /// The turns as maximal runs.
    pub fn into_runs(self) -> Turns
        ensures { result ≡ grouped self }
    {
        let TurnLog { runs } = self;
        Seq::from_vec(runs)
    }
}
