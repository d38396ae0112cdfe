//! Upsets as they came.
ghost use Rattle.std.specs.Prelude.{◌≡◌, ◌∷◌, ◌++◌, ◌+◌, ◌-◌, ◌≤◌, ◌<◌, ◌^◌, [], length, map, take, OnOk, OnErr};
ghost use Rattle.std.specs.List.{list_any};
ghost use Rattle.tx_machine.specs.Log.{kind_as, came, kept, is_firm, is_struck, more_if, struck_at};

use std::alloc::{AllocError, Global};
use std::marker::Model;
use upset_model::Record;

/// How an upset comes.
#[derive(Clone, Copy, PartialEq, Eq)]
pub(crate) enum Kind {
    /// It strikes nothing.
    Nowhere,
    /// It strikes while an earlier one stands.
    OnAnother,
    /// It strikes in a window.
    InWindow,
    /// It strikes.
    Struck,
}

/// The upsets so far, in order, as they came, and how many of them stand whatever is aborted. One that struck is kept as the record of one that
/// is undone, until it is known which numbers threads carry at the end. Contracts see the list of upsets.
#[derive(Drop)]
pub(crate) struct UpsetLog {
    records: Vec<Record>,
    firm: usize,
}

impl Model for UpsetLog {
    ghost use Rattle.std.specs.Prelude.{List, ◌≡◌, map};
    ghost use Rattle.hard_meaning.specs.State.{Upset};
    ghost use Rattle.tx_machine.specs.Log.{came, kept, firm_in};

    ghost Value = { List Upset };

    ghost view = { λ l. map came l.records.items };

    ghost invariant = { λ l. (l.firm ≡ firm_in (map came l.records.items)) × (map kept (map came l.records.items) ≡ l.records.items) };
}

impl Kind {
    // What is kept of an upset.
    fn record(self) -> Record
        ensures { result ≡ kept (kind_as self) }
    {
        match self {
            Kind::Nowhere => Record::Missed,
            Kind::OnAnother => Record::Stacked,
            Kind::InWindow => Record::Window,
            Kind::Struck => Record::Undone,
        }
    }
}

// Whether an upset stands whatever is aborted, by what is kept of it.
fn is_firm(latest: Record) -> bool
    ensures { result ≡ is_firm (came latest) }
{
    match latest {
        Record::Window | Record::Stacked => true,
        Record::Missed | Record::Hit | Record::Undone => false,
    }
}

// Whether an upset struck.
fn is_struck(latest: Record) -> bool
    ensures { result ≡ is_struck (came latest) }
{
    match latest {
        Record::Hit | Record::Undone => true,
        Record::Missed | Record::Window | Record::Stacked => false,
    }
}

// A number, or one more.
fn count_if(more: bool, n: usize) -> usize
    requires { n + 1 < 2 ^ 64 }
    ensures { result ≡ more_if more n }
{
    if more { n + 1 } else { n }
}

// A number, or one less.
fn less_if(less: bool, n: usize) -> usize
    requires { more_if less 0 ≤ n }
    ensures { more_if less result ≡ n }
{
    if less { n - 1 } else { n }
}

impl UpsetLog {
    /// None. It takes no memory.
    pub(crate) fn new(alloc: Global) -> UpsetLog
        ensures { result ≡ [] }
    {
        UpsetLog {
            records: Vec::new(alloc),
            firm: 0,
        }
    }

    /// How many there are.
    pub(crate) fn len(&self) -> usize
        ensures { result ≡ length self.now }
    {
        self.records.len()
    }

    /// Whether some stand whatever is aborted.
    pub(crate) fn some_firm(&self) -> bool
        ensures { result ≡ list_any is_firm self.now }
    {
        self.firm > 0
    }

    /// Whether the upset with a number struck.
    pub(crate) fn has_struck(&self, number: u64) -> bool
        ensures { result ≡ struck_at self.now number }
    {
        match self.records.get(number as usize) {
            Some(latest) => is_struck(*latest),
            None => false,
        }
    }

    /// One more. For want of memory nothing changes.
    pub(crate) fn add(&mut self, kind: Kind) -> Result<(), AllocError>
        ensures ok { OnOk result (self.new ≡ self.old ++ kind_as kind ∷ []) }
        ensures err { OnErr result (self.new ≡ self.old) }
    {
        let latest = kind.record();
        self.records.push(latest)?;
        self.firm = count_if(is_firm(latest), self.firm);
        Ok(())
    }

    /// The last, if any, is taken back.
    pub(crate) fn take_back(&mut self)
        ensures { self.new ≡ take (length self.old - 1) self.old }
    {
        if let Some(latest) = self.records.pop() {
            self.firm = less_if(is_firm(latest), self.firm);
        }
    }

    /// What is kept of them. It takes no memory.
    pub(crate) fn into_kept(self) -> Vec<Record>
        ensures { result.items ≡ map kept self }
    {
        let UpsetLog { records, .. } = self;
        records
    }
}
