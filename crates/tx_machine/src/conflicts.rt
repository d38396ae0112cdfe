//! Threads that another thread's action aborts.
ghost use Rattle.std.specs.Prelude.{◌≡◌, ◌≤◌, [], length, vec_capacity};
ghost use Rattle.rtm_core.specs.Calls.{AreThreads};
ghost use Rattle.tx_machine.specs.Undone.{own_all, watches_all};

use crate::workers::{Status, Worker};
use elide::Elision;
use hard_frames::Frame;
use process::CallStack;
use rtm_core::Aborted;

/// Gives each of these threads back what it kept when its transaction began, the last first.
pub(crate) fn undo_each(
    aborted: &mut Vec<Aborted<CallStack<Frame>>>,
    workers: &mut Vec<Worker>,
    elision: &mut Elision,
)
    requires { AreThreads aborted.old.items }
    ensures own { workers.new.items ≡ own_all aborted.old.items workers.old.items }
    ensures watches { elision.new ≡ watches_all aborted.old.items elision.old }
    ensures none { aborted.new.items ≡ [] }
    ensures count { length workers.new.items ≡ length workers.old.items }
    ensures capacity { vec_capacity aborted.old ≤ vec_capacity aborted.new }
{
    while let Some(Aborted { tid, keep, .. }) = aborted.pop() {
        elision.clear(tid);
        if let Some(worker) = workers.get_mut(tid.0 as usize) {
            worker.undo(keep, Status::Conflict);
        }
    }
}
