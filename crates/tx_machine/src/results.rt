//! What a run comes to, by all that ran.
ghost use Rattle.std.specs.Prelude.{◌≡◌, ◌≤◌, length, unwrap_or};
ghost use Rattle.hard_frames.specs.declared.outcome.Stop.TheVariants.{Bound};
ghost use Rattle.hard_meaning.specs.Runs.{result_of};
ghost use Rattle.tx_machine.specs.Log.{hit_as, hit_at, hit_all};
ghost use Rattle.tx_machine.specs.Meant.{state_of, IsTied};
ghost use Rattle.tx_machine.specs.Upsets.{all_carried, own_aborts};

use crate::outcome::RunResult;
use crate::parts::Core;
use crate::records::UpsetLog;
use crate::workers::Worker;
use hard_frames::{Aborts, Stop};
use ir_core::Seq;
use upset_model::Record;

// A record of an upset whose number is carried.
fn hit_as(latest: Record) -> Record
    ensures { result ≡ hit_as latest }
{
    match latest {
        Record::Undone => Record::Hit,
        Record::Missed | Record::Window | Record::Hit | Record::Stacked => latest,
    }
}

// The upset with a number is a hit, where it struck.
fn hit_at(number: u64, records: &mut Vec<Record>)
    ensures { records.new.items ≡ hit_at number records.old.items }
{
    let at = number as usize;
    if at < records.len() {
        records[at] = hit_as(records[at]);
    }
}

// So are those with these numbers.
fn hit_each(numbers: &[u64], records: &mut Vec<Record>)
    ensures { records.new.items ≡ hit_all numbers.now records.old.items }
{
    for number in numbers {
        hit_at(*number, records);
    }
}

// So are those that threads carry.
fn hit_carried(workers: &[Worker], records: &mut Vec<Record>)
    ensures { records.new.items ≡ hit_all (all_carried workers.now) records.old.items }
{
    for worker in workers {
        hit_each(worker.carried(), records);
    }
}

// The aborts of all threads. No sum runs over, since each thread has begun so few transactions.
fn sum_aborts(workers: &[Worker]) -> Aborts
    requires { length workers.now ≤ 64 }
    ensures { result ≡ own_aborts workers.now }
{
    let mut sum = Aborts {
        explicit: 0,
        conflict: 0,
        overflow: 0,
        other: 0,
    };
    for worker in workers {
        sum.explicit += worker.aborts.explicit;
        sum.conflict += worker.aborts.conflict;
        sum.overflow += worker.aborts.overflow;
        sum.other += worker.aborts.other;
    }
    sum
}

// How a run stopped; where nothing stopped it, its events ended.
fn stop_or_bound(stop: Option<Stop>) -> Stop
    ensures { result ≡ unwrap_or stop Bound }
{
    match stop {
        Some(stop) => stop,
        None => Stop::Bound,
    }
}

impl<'a> Core<'a> {
    /// What the run has come to. It takes no memory.
    pub(crate) fn into_result(self, log: UpsetLog) -> RunResult
        requires { IsTied self }
        ensures { result ≡ result_of (state_of self.entry log) }
    {
        let mut records = log.into_kept();
        hit_carried(&self.workers, &mut records);
        let aborts = sum_aborts(&self.workers);
        let Core {
            world,
            turns,
            stop,
            ..
        } = self;
        RunResult {
            outs: world.into_outputs(),
            upsets: Seq::from_vec(records),
            aborts,
            stop: stop_or_bound(stop),
            turns: turns.into_runs(),
        }
    }
}
