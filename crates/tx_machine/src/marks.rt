//! Numbers of upsets.
ghost use Rattle.std.specs.Prelude.{◌≡◌, ◌∷◌, ◌++◌, ◌<◌, [], length, drop, OnOk, OnErr};
ghost use Rattle.tx_machine.specs.Upsets.{carried_if};

use std::alloc::{AllocError, Global};
use std::marker::Model;

/// The numbers of the upsets that stand in a thread: of those that struck since its transaction began, and of those that no abort can undo.
/// Contracts see both as lists, the last first.
#[derive(Drop)]
pub(crate) struct Marks {
    numbers: Vec<u64>,
    standing: usize,
}

impl Model for Marks {
    ghost use Rattle.std.specs.Prelude.{◌≤◌, length, reverse, take, drop};
    ghost use Rattle.tx_machine.specs.Own.{MarksParts};

    ghost Value = { MarksParts };

    ghost view = { λ m. record {
      struck = reverse (drop m.standing m.numbers.items);
      hits = reverse (take m.standing m.numbers.items);
    } };

    ghost invariant = { λ m. m.standing ≤ length m.numbers.items };
}

impl Marks {
    /// None. It takes no memory.
    pub(crate) fn new(alloc: Global) -> Marks
        ensures { result ≡ record { struck = []; hits = [] } }
    {
        Marks {
            numbers: Vec::new(alloc),
            standing: 0,
        }
    }

    /// One more that an abort undoes. For want of memory nothing changes.
    pub(crate) fn strike(&mut self, number: u64) -> Result<(), AllocError>
        ensures ok { OnOk result (self.new ≡ record self.old { struck = number ∷ self.old.struck }) }
        ensures err { OnErr result (self.new ≡ self.old) }
    {
        self.numbers.push(number)?;
        Ok(())
    }

    /// The last that an abort undoes, if any, is taken back.
    pub(crate) fn take_back(&mut self)
        ensures { self.new ≡ record self.old { struck = drop 1 self.old.struck } }
    {
        if self.standing < self.numbers.len() {
            let _ = self.numbers.pop();
        }
    }

    /// Where there is no transaction, a number that was added last is one that no abort undoes.
    pub(crate) fn settle(&mut self, number: u64)
        requires { 0 < length self.old.struck }
        ensures { self.new ≡ record { struck = []; hits = number ∷ self.old.hits } }
    {
        let at = self.standing;
        self.numbers[at] = number;
        self.numbers.truncate(at + 1);
        self.standing = at + 1;
    }

    /// The transaction commits: what struck since it began stands.
    pub(crate) fn commit(&mut self)
        ensures { self.new ≡ record { struck = []; hits = self.old.struck ++ self.old.hits } }
    {
        self.standing = self.numbers.len();
    }

    /// What struck since the transaction began is forgotten.
    pub(crate) fn forget(&mut self)
        ensures { self.new ≡ record self.old { struck = [] } }
    {
        self.numbers.truncate(self.standing);
    }

    /// Those that stand, in the order in which they came: inside a transaction also those that it forgets when it aborts.
    pub(crate) fn carried(&self, inside: bool) -> &[u64]
        ensures { result.now ≡ carried_if inside self.now }
    {
        if inside {
            self.numbers.as_slice()
        } else {
            &self.numbers[..self.standing]
        }
    }
}
