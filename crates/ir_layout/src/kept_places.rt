//! The places of globals alone, for what outlives a layout.
ghost use Rattle.std.specs.Prelude.{◌≡◌, IfOk};
ghost use Rattle.ir_layout.specs.Memory.{is_valid, AreApart};

use crate::spans::{self, Span};
use std::alloc::{AllocError, Global};
use std::marker::Model;

/// Where the globals of a module stand. Contracts see their places in order.
#[derive(Drop)]
pub struct GlobalPlaces {
    spans: Vec<Span>,
}

impl Model for GlobalPlaces {
    ghost use Rattle.std.specs.Prelude.{List};
    ghost use Rattle.ir_layout.specs.declared.spans.Span.{Span};
    ghost use Rattle.ir_layout.specs.Memory.{AreApart};

    ghost Value = { List Span };

    ghost view = { λ p. p.spans.items };

    ghost invariant = { λ p. AreApart p.spans.items };
}

impl GlobalPlaces {
    /// A copy of these places.
    pub(crate) fn copy_of(alloc: Global, spans: &[Span]) -> Result<GlobalPlaces, AllocError>
        requires { AreApart spans.now }
        ensures { IfOk result (λ places. places ≡ spans.now) }
    {
        let spans = Vec::from_slice(alloc, spans)?;
        Ok(GlobalPlaces { spans })
    }

    /// These places, in memory of their own.
    pub fn copy(&self, alloc: Global) -> Result<GlobalPlaces, AllocError>
        ensures { IfOk result (λ places. places ≡ self.now) }
    {
        GlobalPlaces::copy_of(alloc, self.spans.as_slice())
    }

    /// Whether an access of so many bytes at an address is valid.
    pub fn valid(&self, addr: u64, size: u64) -> bool
        ensures { result ≡ is_valid self.now addr size }
    {
        spans::is_valid(self.spans.as_slice(), addr, size)
    }
}
