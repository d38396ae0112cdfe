//! The blocks of a function by their labels.
ghost use Rattle.std.specs.Prelude.{◌≡◌, IfOk, OnOk};
ghost use Rattle.std.specs.Option.{option_copied};
ghost use Rattle.inst_meaning.specs.Registers.{get, put};
ghost use Rattle.upset_model.specs.Windows.{target_checks, is_edge_checked};
ghost use Rattle.upset_model.specs.Guards.{target, both_check, IsIndex};

use crate::edges::{Guard, checks_direction, guard_of};
use hard_ir::HBlock;
use ir_core::Loc;
use std::alloc::{AllocError, Global};
use std::marker::Model;

/// The numbers of blocks by their labels. Contracts see a list by label.
#[derive(Drop)]
pub(crate) struct LabelIndex {
    numbers: Vec<Option<usize>>,
}

impl Model for LabelIndex {
    ghost use Rattle.std.specs.Prelude.{List, ℕ, Option};

    ghost Value = { List (Option ℕ) };

    ghost view = { λ index. index.numbers.items };
}

impl LabelIndex {
    // The label names the block with this number.
    fn set(&mut self, label: Loc, number: usize) -> Result<(), AllocError>
        ensures { OnOk result (self.new ≡ put self.old label.0 number) }
    {
        let at = label.0 as usize;
        if at >= self.numbers.len() {
            self.numbers.resize(at + 1, None)?;
        }
        self.numbers[at] = Some(number);
        Ok(())
    }

    /// The index of these blocks. Where two have one label, the first counts.
    pub(crate) fn of(alloc: Global, blocks: &[HBlock]) -> Result<LabelIndex, AllocError>
        ensures { IfOk result (λ index. IsIndex blocks.now index) }
    {
        let mut index = LabelIndex {
            numbers: Vec::new(alloc),
        };
        let mut number = blocks.len();
        while number > 0 {
            number -= 1;
            index.set(blocks[number].label, number)?;
        }
        Ok(index)
    }

    // The number that a label has.
    fn number(&self, label: Loc) -> Option<usize>
        ensures { result ≡ get self.now label.0 }
    {
        *self.numbers.get(label.0 as usize)?
    }

    // The block with a label.
    fn find<'a>(&self, blocks: &'a [HBlock], label: Loc) -> Option<&'a HBlock>
        requires { IsIndex blocks.now self.now }
        ensures { option_copied result ≡ target blocks.now label.0 }
    {
        blocks.get(self.number(label)?)
    }

    // Whether the block with a label checks its direction.
    fn target_checks(
        &self,
        blocks: &[HBlock],
        from: Loc,
        number: u64,
        condition: Loc,
        label: Loc,
    ) -> bool
        requires { IsIndex blocks.now self.now }
        ensures { result ≡ target_checks blocks.now from number condition label }
    {
        match self.find(blocks, label) {
            Some(block) => checks_direction(from, number, condition, block),
            None => false,
        }
    }

    // Whether both targets of a branch check their directions.
    fn both_check(&self, blocks: &[HBlock], from: Loc, guard: Guard) -> bool
        requires { IsIndex blocks.now self.now }
        ensures { result ≡ both_check blocks.now from guard }
    {
        self.target_checks(blocks, from, 1, guard.on, guard.first)
            && self.target_checks(blocks, from, 0, guard.on, guard.second)
    }

    /// Whether the branch of a block is checked by its targets.
    pub(crate) fn is_edge_checked(&self, blocks: &[HBlock], block: &HBlock) -> bool
        requires { IsIndex blocks.now self.now }
        ensures { result ≡ is_edge_checked blocks.now block.now }
    {
        match guard_of(block.list.items()) {
            Some(guard) => self.both_check(blocks, block.label, guard),
            None => false,
        }
    }
}
