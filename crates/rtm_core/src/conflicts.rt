//! The conflicts of an access.
ghost use Rattle.std.specs.Prelude.{◌≡◌, ◌+◌, ◌<◌, ◌≤◌, ◌++◌, [], vec_len, vec_capacity, slice_get};
ghost use Rattle.ir_layout.specs.Memory.{thread_limit};
ghost use Rattle.rtm_core.specs.Calls.{touch_of, conflict_aborts};
ghost use Rattle.rtm_core.specs.Transactions.{strikes, none_if, joined_if, kept_of, spared_from, struck_from};

use crate::slots::Slot;
use crate::{Aborted, Access};
use ir_core::Tid;
use ir_layout::THREAD_LIMIT;

const CONFLICT: u32 = 6;

// Aborts the transaction of thread u where the access of another thread conflicts with it.
fn strike<C: Drop>(slot: &mut Slot<C>, u: u32, t: Tid, access: &Access, out: &mut Vec<Aborted<C>>)
    requires room { vec_len out.old < vec_capacity out.old }
    ensures slot { slot.new ≡ none_if (strikes t.0 (touch_of access.now) u slot.old) slot.old }
    ensures out { out.new.items ≡ out.old.items ++ conflict_aborts (joined_if (strikes t.0 (touch_of access.now) u slot.old) u (kept_of slot.old) []) }
    ensures len { vec_len out.new ≤ vec_len out.old + 1 }
    ensures capacity { vec_capacity out.old ≤ vec_capacity out.new }
{
    if u == t.0 || !slot.meets(access) {
        return;
    }
    if let Some(keep) = slot.abort() {
        let aborted = Aborted {
            tid: Tid(u),
            status: CONFLICT,
            keep,
        };
        out.push(aborted).unwrap();
    }
}

/// Aborts every other transaction that the access of a thread conflicts with, in order of threads.
pub(crate) fn strike_others<C: Drop>(
    slots: &mut Vec<Slot<C>>,
    t: Tid,
    access: &Access,
    out: &mut Vec<Aborted<C>>,
)
    requires room { vec_len out.old + thread_limit ≤ vec_capacity out.old }
    requires threads { vec_len slots.old ≡ thread_limit }
    ensures slots { slots.new.items ≡ spared_from t.0 (touch_of access.now) 0 slots.old.items }
    ensures out { out.new.items ≡ out.old.items ++ conflict_aborts (struck_from t.0 (touch_of access.now) 0 slots.old.items) }
    ensures capacity { vec_capacity out.old ≤ vec_capacity out.new }
{
    for u in 0..THREAD_LIMIT {
        strike(&mut slots[u], u as u32, t, access, out);
    }
}
