//! Sets of numbers with a greatest size, which take memory only when they are made. A set is seen as the list of its members in
//! the order in which they came (`specs/Sets.antt`). Transactions keep their lines in such sets, and the mutexes that they watch.
#![tactic(auto)]

ghost use Rattle.std.specs.Prelude.{◌≡◌, ℕ, ◌+◌, ◌-◌, ◌%◌, ◌<◌, ◌≤◌, [], ◌∷◌, ◌++◌, false, IfOk, OnOk, OnErr, is_ok, length};
ghost use Rattle.line_sets.specs.Sets.{has, place_in, with_member, takes, meet, NoRepeats};
ghost use Rattle.line_sets.specs.code.Chains.{buckets};

use std::alloc::{AllocError, Global};
use std::marker::Model;

/// The set has as many lines as it takes.
#[derive(Drop, Debug)]
pub struct Full;

/// A set of at most CAP lines. Contracts see the list of its lines.
// Each line stands in a chain with the others of its bucket, so that it is found without going through all.
#[derive(Drop)]
pub struct LineSet<const CAP: usize> {
    lines: Vec<u64>,
    links: Vec<usize>,
    heads: Vec<usize>,
}

impl<const CAP: usize> Model for LineSet<CAP> {
    ghost use Rattle.std.specs.Prelude.{ℕ, List, vec_capacity};
    ghost use Rattle.line_sets.specs.code.Chains.{IsSet};

    ghost Value = { List ℕ };

    ghost view = { λ s. s.lines.items };

    ghost invariant = { λ s. IsSet CAP (vec_capacity s.lines) (vec_capacity s.links) s.lines.items s.heads.items s.links.items };
}

impl<const CAP: usize> LineSet<CAP> {
    /// The empty set. It takes the room for CAP lines.
    pub fn new(alloc: Global) -> Result<Self, AllocError>
        ensures { IfOk result (λ set. set ≡ []) }
    {
        let lines = Vec::with_capacity(alloc, CAP)?;
        let links = Vec::with_capacity(alloc, CAP)?;
        let heads = vec![in alloc; 0usize; CAP.max(1)]?;
        Ok(LineSet {
            lines,
            links,
            heads,
        })
    }

    // The bucket of a line.
    fn bucket(line: u64) -> usize
        ensures value { result ≡ line % buckets CAP }
        ensures below { result < buckets CAP }
    {
        (line % CAP.max(1) as u64) as usize
    }

    /// How many lines there are.
    pub fn len(&self) -> usize
        ensures length { result ≡ length self.now }
        ensures count { result ≤ CAP }
    {
        self.lines.len()
    }

    /// The lines, in the order in which they came.
    pub fn lines(&self) -> &[u64]
        ensures lines { result.now ≡ self.now }
        ensures distinct { NoRepeats self.now }
    {
        self.lines.as_slice()
    }

    /// Which of the lines this one is, from 0.
    pub fn place(&self, line: u64) -> Option<usize>
        ensures { result ≡ place_in self.now line }
    {
        let mut at = self.heads[Self::bucket(line)];
        'chain: while at != 0 {
            if self.lines[at - 1] == line {
                return Some(at - 1);
            }
            at = self.links[at - 1];
        }
        None
    }

    /// Whether a line is in the set.
    pub fn has(&self, line: u64) -> bool
        ensures { result ≡ has self.now line }
    {
        self.place(line).is_some()
    }

    /// Whether the set takes a line: it has it, or has room.
    pub fn takes(&self, line: u64) -> bool
        ensures { result ≡ takes CAP self.now line }
    {
        self.has(line) || self.lines.len() < CAP
    }

    /// Adds a line after the others, where it isn't in the set. `Full` comes exactly where the set has CAP lines and this is none
    /// of them; then the set stays as it was.
    pub fn add(&mut self, line: u64) -> Result<(), Full>
        ensures full { is_ok result ≡ takes CAP self.old line }
        ensures ok { OnOk result (self.new ≡ with_member self.old line) }
        ensures unchanged { OnErr result (self.new ≡ self.old) }
    {
        if self.has(line) {
            return Ok(());
        }
        if self.lines.len() >= CAP {
            return Err(Full);
        }
        self.put(line);
        Ok(())
    }

    // Puts a new line after the others.
    fn put(&mut self, line: u64)
        requires room { length self.old < CAP }
        requires new { has self.old line ≡ false }
        ensures { self.new ≡ self.old ++ line ∷ [] }
    {
        let bucket = Self::bucket(line);
        let before = self.heads[bucket];
        let count = self.lines.len();
        self.lines.push(line).unwrap();
        self.links.push(before).unwrap();
        self.heads[bucket] = count + 1;
    }

    /// Takes all lines out, in time of how many there are.
    pub fn clear(&mut self)
        ensures { self.new ≡ [] }
    {
        'lines: while let Some(line) = self.lines.pop() {
            if let Some(before) = self.links.pop() {
                self.heads[Self::bucket(line)] = before;
            }
        }
    }

    /// Whether the sets have a line in common.
    pub fn meets(&self, other: &Self) -> bool
        ensures { result ≡ meet self.now other.now }
    {
        self.lines.iter().any(
            |line| -> bool
                ensures { result ≡ has other.entry.now line.now }
            { other.has(*line) },
        )
    }
}
