//! The blocks that labels name.
ghost use Rattle.std.specs.Prelude.{◌≡◌, [], length, map, slice_index_or, IfOk, OnOk};
ghost use Rattle.inst_meaning.specs.Registers.{put};
ghost use Rattle.src_meaning.specs.Labels.{IsTable, named_in};
ghost use Rattle.hard_frames.specs.Labels.{AreTables};
ghost use Rattle.hard_frames.specs.Frames.{labelled};

use hard_ir::{HBlock, Hardened};
use ir_core::Loc;
use std::alloc::{AllocError, Global};
use std::marker::Model;

/// The numbers of a function's blocks by their labels. Contracts see a list by label.
#[derive(Drop)]
struct LabelTable {
    numbers: Vec<Option<usize>>,
}

impl Model for LabelTable {
    ghost use Rattle.std.specs.Prelude.{List, ℕ, Option};

    ghost Value = { List (Option ℕ) };

    ghost view = { λ t. t.numbers.items };
}

/// The tables of a module's functions, in order.
#[derive(Drop)]
pub(crate) struct Labels {
    tables: Vec<LabelTable>,
}

impl Model for Labels {
    ghost use Rattle.std.specs.Prelude.{List, ℕ, Option};

    ghost Value = { List (List (Option ℕ)) };

    ghost view = { λ l. l.tables.items };
}

impl LabelTable {
    // The label names the block with this number.
    fn set(&mut self, label: Loc, number: usize) -> Result<(), AllocError>
        ensures { OnOk result (self.new ≡ put self.old label.0 number) }
    {
        let at = label.0 as usize;
        if at >= self.numbers.len() {
            self.numbers.resize(at + 1, None)?;
        }
        self.numbers[at] = Some(number);
        Ok(())
    }

    // The table of a function with these blocks. Where two have one label, the last counts.
    fn of(alloc: Global, blocks: &[HBlock]) -> Result<LabelTable, AllocError>
        ensures { IfOk result (λ table. IsTable (map labelled blocks.now) table) }
    {
        let mut table = LabelTable {
            numbers: Vec::new(alloc),
        };
        for (number, block) in blocks.iter().enumerate() {
            table.set(block.label, number)?;
        }
        Ok(table)
    }
}

impl Labels {
    /// The tables of so many functions, which are all.
    pub(crate) fn of(alloc: Global, h: &Hardened, count: u32) -> Result<Labels, AllocError>
        requires { count ≡ length h.now.funcs }
        ensures { IfOk result (λ labels. AreTables h.now.funcs labels) }
    {
        let mut tables = Vec::with_capacity(alloc, count as usize)?;
        for number in 0..count {
            tables.push(LabelTable::of(alloc, h.blocks(number))?)?;
        }
        Ok(Labels { tables })
    }

    /// The number of the block that a label of a function names.
    pub(crate) fn number(&self, function: usize, label: Loc) -> Option<usize>
        ensures { result ≡ named_in (slice_index_or self.now function []) label }
    {
        let table = self.tables.get(function)?;
        *table.numbers.get(label.0 as usize)?
    }
}
