//! What one thread watches and holds.
ghost use Rattle.std.specs.Prelude.{◌≡◌, ℕ, ◌+◌, ◌<◌, ◌≤◌, not, nat_eq, true, false, if◌then◌else◌, IfOk, length, vec_capacity};
ghost use Rattle.line_sets.specs.Sets.{has};
ghost use Rattle.elide.specs.Watches.{nothing_watched, can_lock, once_locked, can_unlock, once_unlocked, is_some_held};

use line_sets::LineSet;
use std::alloc::{AllocError, Global};
use std::marker::Model;

const LIMIT: usize = 16;

/// The addresses that a thread watches, and those that it holds.
#[derive(Drop)]
pub(crate) struct Watch {
    watched: LineSet<16>,
    held: Vec<u64>,
}

impl Model for Watch {
    ghost use Rattle.std.specs.Prelude.{◌≤◌, vec_capacity};
    ghost use Rattle.elide.specs.Watches.{WatchParts, AreWatched};

    ghost Value = { WatchParts };

    ghost view = { λ w. record { watched = w.watched; held = w.held.items } };

    ghost invariant = { λ w. (16 ≤ vec_capacity w.held) × AreWatched w.watched w.held.items };
}

impl Watch {
    /// Nothing watched. It takes the room for all that a thread ever watches.
    pub(crate) fn new(alloc: Global) -> Result<Watch, AllocError>
        ensures { IfOk result (λ watch. watch ≡ nothing_watched) }
    {
        let watched = LineSet::new(alloc)?;
        let held = Vec::with_capacity(alloc, LIMIT)?;
        Ok(Watch { watched, held })
    }

    /// Whether an address is watched.
    pub(crate) fn watches(&self, address: u64) -> bool
        ensures { result ≡ has self.now.watched address }
    {
        self.watched.has(address)
    }

    /// Whether an address is held.
    pub(crate) fn has(&self, address: u64) -> bool
        ensures { result ≡ has self.now.held address }
    {
        self.held.contains(&address)
    }

    /// Whether any address is held.
    pub(crate) fn holds(&self) -> bool
        ensures { result ≡ is_some_held self.now.held }
    {
        !self.held.is_empty()
    }

    /// Whether an address can be watched and held: it isn't held, and is watched or can be.
    pub(crate) fn can_lock(&self, address: u64) -> bool
        ensures { result ≡ can_lock self.now address }
    {
        !self.has(address) && self.watched.takes(address)
    }

    /// Watches and holds an address, unless it is held, or is a new one beside as many as can be watched.
    pub(crate) fn lock(&mut self, address: u64) -> bool
        ensures done { result ≡ can_lock self.old address }
        ensures watch { self.new ≡ (if can_lock self.old address then once_locked self.old address else self.old) }
    {
        if self.has(address) {
            return false;
        }
        if self.watched.add(address).is_err() {
            return false;
        }
        self.held.insert(0, address).unwrap();
        true
    }

    /// Holds an address no longer, if it is held.
    pub(crate) fn unlock(&mut self, address: u64) -> bool
        ensures done { result ≡ can_unlock self.old address }
        ensures watch { self.new ≡ (if can_unlock self.old address then once_unlocked self.old address else self.old) }
    {
        if !self.has(address) {
            return false;
        }
        self.held.retain(
            |other| -> bool
                ensures { result ≡ not (nat_eq address other.now) }
            { *other != address },
        );
        true
    }

    /// Nothing is watched or held any more.
    pub(crate) fn clear(&mut self)
        ensures { self.new ≡ nothing_watched }
    {
        self.watched.clear();
        self.held.clear();
    }
}
