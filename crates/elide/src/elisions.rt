//! What each thread watches and holds.
ghost use Rattle.std.specs.Prelude.{◌≡◌, ◌<◌, if◌then◌else◌, IfOk, replicate, slice_set};
ghost use Rattle.ir_layout.specs.Memory.{thread_limit};
ghost use Rattle.line_sets.specs.Sets.{has};
ghost use Rattle.elide.specs.Watches.{watch_of, nothing_watched, can_lock, once_locked, can_unlock, once_unlocked, is_some_held};

use crate::watches::Watch;
use ir_core::Tid;
use ir_layout::THREAD_LIMIT;
use std::alloc::{AllocError, Global};
use std::marker::Model;

/// The mutexes that each thread's transaction watches, and those that it holds.
#[derive(Drop)]
pub struct Elision {
    watches: Vec<Watch>,
}

impl Model for Elision {
    ghost use Rattle.std.specs.Prelude.{◌≡◌, List, length};
    ghost use Rattle.ir_layout.specs.Memory.{thread_limit};
    ghost use Rattle.elide.specs.Watches.{WatchParts};

    ghost Value = { List WatchParts };

    ghost view = { λ e. e.watches.items };

    ghost invariant = { λ e. length e.watches.items ≡ thread_limit };
}

impl Elision {
    /// No thread watches or holds an address. It takes all memory that watching ever needs.
    pub fn new(alloc: Global) -> Result<Elision, AllocError>
        ensures { IfOk result (λ elision. elision ≡ replicate thread_limit nothing_watched) }
    {
        let mut watches = Vec::with_capacity(alloc, THREAD_LIMIT)?;
        'threads: for _turn in 0..THREAD_LIMIT {
            watches.push(Watch::new(alloc)?)?;
        }
        Ok(Elision { watches })
    }

    /// Whether a thread can watch and hold an address: it doesn't hold it, and watches it or fewer than 16 others.
    pub fn can_lock(&self, t: Tid, address: u64) -> bool
        requires thread { t.0 < thread_limit }
        ensures { result ≡ can_lock (watch_of self.now t.0) address }
    {
        self.watches[t.0 as usize].can_lock(address)
    }

    /// Whether a thread holds an address.
    pub fn can_unlock(&self, t: Tid, address: u64) -> bool
        requires thread { t.0 < thread_limit }
        ensures { result ≡ can_unlock (watch_of self.now t.0) address }
    {
        self.watches[t.0 as usize].has(address)
    }

    /// A thread watches and holds an address. The answer is `false`, and nothing changes, exactly where it holds it, or
    /// doesn't watch it and watches 16 others.
    pub fn lock(&mut self, t: Tid, address: u64) -> bool
        requires thread { t.0 < thread_limit }
        ensures done { result ≡ can_lock (watch_of self.old t.0) address }
        ensures watches { self.new ≡ (if can_lock (watch_of self.old t.0) address then slice_set self.old t.0 (once_locked (watch_of self.old t.0) address) else self.old) }
    {
        self.watches[t.0 as usize].lock(address)
    }

    /// A thread holds an address no longer, and watches it still. The answer is `false`, and nothing changes, exactly where it
    /// doesn't hold it.
    pub fn unlock(&mut self, t: Tid, address: u64) -> bool
        requires thread { t.0 < thread_limit }
        ensures done { result ≡ can_unlock (watch_of self.old t.0) address }
        ensures watches { self.new ≡ (if can_unlock (watch_of self.old t.0) address then slice_set self.old t.0 (once_unlocked (watch_of self.old t.0) address) else self.old) }
    {
        self.watches[t.0 as usize].unlock(address)
    }

    /// Whether a thread watches an address.
    pub fn watches(&self, t: Tid, address: u64) -> bool
        requires thread { t.0 < thread_limit }
        ensures { result ≡ has (watch_of self.now t.0).watched address }
    {
        self.watches[t.0 as usize].watches(address)
    }

    /// Whether a thread holds any address.
    pub fn holds(&self, t: Tid) -> bool
        requires thread { t.0 < thread_limit }
        ensures { result ≡ is_some_held (watch_of self.now t.0).held }
    {
        self.watches[t.0 as usize].holds()
    }

    /// A thread watches and holds nothing any more.
    pub fn clear(&mut self, t: Tid)
        requires thread { t.0 < thread_limit }
        ensures { self.new ≡ slice_set self.old t.0 nothing_watched }
    {
        self.watches[t.0 as usize].clear();
    }
}
