//! The next accesses of the threads, kept from step to step.
ghost use Rattle.std.specs.Prelude.{◌≡◌, ◌<◌, ◌≤◌, length, slice_set, IfOk, OnOk};
ghost use Rattle.std.specs.Option.{option_map};
ghost use Rattle.src_meaning.specs.State.{State};
ghost use Rattle.src_meaning.specs.Step.{step};
ghost use Rattle.src_meaning.specs.Races.{next_access, race_of};
ghost use Rattle.process.specs.declared.state.Step.TheVariants.{Went};
ghost use Rattle.race_watch.specs.Pairs.{numbers_of};
ghost use Rattle.race_watch.specs.Tables.{race_in, OthersAreApart, AreAccesses, IsTable};

use crate::pairs::{clash, race};
use inst_meaning::Access;
use ir_core::Tid;
use src_meaning::Source;
use std::alloc::{AllocError, Global};

/// The next access of each thread that was made, and the first pair of threads that race.
#[derive(Drop)]
pub(crate) struct Table {
    accesses: Vec<Option<Access>>,
    pub(crate) race: Option<(Tid, Tid)>,
}

/// The first pair of threads whose accesses clash, where thread `t` is one of any such pair.
fn race_with(accesses: &[Option<Access>], t: u32) -> Option<(Tid, Tid)>
    requires made { t < length accesses.now }
    requires few { length accesses.now ≤ 64 }
    ensures { OthersAreApart accesses.now t → option_map numbers_of result ≡ race_in accesses.now }
{
    let own = accesses[t as usize];
    'earlier: for u in 0..t {
        if clash(accesses[u as usize], own) {
            return Some((Tid(u), Tid(t)));
        }
    }
    'later: for u in t + 1..accesses.len() as u32 {
        if clash(own, accesses[u as usize]) {
            return Some((Tid(t), Tid(u)));
        }
    }
    None
}

impl Table {
    /// The table of a source.
    pub(crate) fn of(alloc: Global, s: &Source<'_>) -> Result<Table, AllocError>
        ensures { IfOk result (λ table. IsTable s.now.program s.now.state table) }
    {
        let mut accesses = Vec::with_capacity(alloc, s.made())?;
        'threads: for t in 0..s.made() as u32 {
            accesses.push(s.next_access(Tid(t)))?;
        }
        let race = race(s);
        Ok(Table { accesses, race })
    }

    // Thread `t` has another next access, which may race with those of the others.
    fn renew(&mut self, s: &Source<'_>, t: Tid)
        requires made { t.0 < length self.old.accesses.items }
        requires few { length self.old.accesses.items ≤ 64 }
        ensures accesses { self.new.accesses.items ≡ slice_set self.old.accesses.items t.0 (next_access s.now.program s.now.state t.0) }
        ensures race { OthersAreApart self.new.accesses.items t.0 → option_map numbers_of self.new.race ≡ race_in self.new.accesses.items }
    {
        self.accesses[t.0 as usize] = s.next_access(t);
        self.race = race_with(self.accesses.as_slice(), t.0);
    }

    /// Thread `t` went from a state without a race to that of the source. Where it made no thread, the other threads' next accesses
    /// are as they were.
    pub(crate) fn follow(&mut self, alloc: Global, s: &Source<'_>, t: Tid) -> Result<(), AllocError>
        requires { t.0 < length self.old.accesses.items }
        ensures { (before : State) → IsTable s.now.program before self.old → race_of s.now.program before ≡ None
            → (step s.now.program before t.0).1 ≡ Went → s.now.state ≡ (step s.now.program before t.0).0
            → OnOk result (IsTable s.now.program s.now.state self.new) }
    {
        if s.made() == self.accesses.len() {
            self.renew(s, t);
        } else {
            *self = Table::of(alloc, s)?;
        }
        Ok(())
    }
}
