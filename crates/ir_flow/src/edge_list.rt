//! Edges as a list.
ghost use Rattle.std.specs.Prelude.{◌≡◌};

use std::marker::Model;

/// The edges of a function in order. Contracts see how many blocks it has, and the pairs of their numbers.
#[derive(Drop)]
pub struct Edges {
    blocks: u32,
    pairs: Vec<(u32, u32)>,
}

impl Model for Edges {
    ghost use Rattle.ir_flow.specs.Edges.{EdgeList};

    ghost Value = { EdgeList };

    ghost view = { λ e. record { blocks = e.blocks; pairs = e.pairs.items } };
}

impl Edges {
    /// So many blocks with these edges.
    pub(crate) fn of(blocks: u32, pairs: Vec<(u32, u32)>) -> Edges
        ensures { result ≡ record { blocks = blocks; pairs = pairs.items } }
    {
        Edges { blocks, pairs }
    }

    /// The pairs of block numbers.
    pub fn pairs(&self) -> &[(u32, u32)]
        ensures { result.now ≡ self.now.pairs }
    {
        self.pairs.as_slice()
    }

    /// How many blocks the function has.
    pub fn blocks(&self) -> u32
        ensures { result ≡ self.now.blocks }
    {
        self.blocks
    }
}
