//! The windows of a hardened module.
ghost use Rattle.std.specs.Prelude.{◌≡◌, [], length, IfOk};
ghost use Rattle.std.specs.List.{All, slice_index_or};
ghost use Rattle.hard_ir.specs.Facts.{IsShort};
ghost use Rattle.hard_ir.specs.Hardened.{HardParts};
ghost use Rattle.upset_model.specs.Intervals.{is_held};
ghost use Rattle.upset_model.specs.Table.{func_intervals, table_has, in_window_at, HoldsWindows};

use crate::blocks::BlockWindows;
use crate::labels::LabelIndex;
use hard_ir::{HBlock, HReg, Hardened};
use std::alloc::{AllocError, Global};
use std::marker::Model;

/// The intervals of a function's blocks. Contracts see their lists.
#[derive(Drop)]
struct FuncWindows {
    blocks: Vec<BlockWindows>,
}

impl Model for FuncWindows {
    ghost use Rattle.std.specs.Prelude.{List};
    ghost use Rattle.upset_model.specs.declared.blocks.Interval.{Interval};

    ghost Value = { List (List Interval) };

    ghost view = { λ f. f.blocks.items };
}

/// The windows of a hardened module, for each effect or copy, each register that it uses and each mode as one interval. Contracts see
/// the intervals of each block of each function.
#[derive(Drop)]
pub struct WindowTable {
    funcs: Vec<FuncWindows>,
}

impl Model for WindowTable {
    ghost use Rattle.upset_model.specs.Table.{Table};

    ghost Value = { Table };

    ghost view = { λ t. t.funcs.items };
}

impl FuncWindows {
    // The intervals of blocks.
    fn of(alloc: Global, blocks: &[HBlock]) -> Result<FuncWindows, AllocError>
        requires { All IsShort blocks.now }
        ensures { IfOk result (λ windows. windows ≡ func_intervals blocks.now) }
    {
        let index = LabelIndex::of(alloc, blocks)?;
        let mut windows = Vec::with_capacity(alloc, blocks.len())?;
        for block in blocks {
            let checked = index.is_edge_checked(blocks, block);
            windows.push(BlockWindows::of(alloc, block.list.items(), checked)?)?;
        }
        Ok(FuncWindows { blocks: windows })
    }

    // Whether an index lies in an interval of a block.
    fn has(&self, block: usize, q: u32, r: HReg, inside: bool) -> bool
        ensures { result ≡ is_held r inside q (slice_index_or self.now block []) }
    {
        match self.blocks.get(block) {
            Some(windows) => windows.holds(r, inside, q),
            None => false,
        }
    }
}

impl WindowTable {
    // The windows of so many functions, which are all.
    fn of(alloc: Global, h: &Hardened, count: u32) -> Result<WindowTable, AllocError>
        requires { count ≡ length h.now.funcs }
        ensures { IfOk result (λ table. HoldsWindows h.now table) }
    {
        let mut funcs = Vec::with_capacity(alloc, count as usize)?;
        for number in 0..count {
            funcs.push(FuncWindows::of(alloc, h.blocks(number))?)?;
        }
        Ok(WindowTable { funcs })
    }

    /// The windows of a module. It takes memory in proportion to its text. One of 2^32 functions is past all memory.
    pub fn new(alloc: Global, h: &Hardened) -> Result<WindowTable, AllocError>
        ensures { IfOk result (λ table. HoldsWindows h.now table) }
    {
        match u32::try_from(h.module().funcs().len()) {
            Ok(count) => WindowTable::of(alloc, h, count),
            Err(_) => Err(AllocError),
        }
    }

    /// Whether a register is in a window, inside a transaction or outside, where `q` is the index of the next instruction of a block of a
    /// function; in a block that isn't there it is in none. It takes no memory.
    pub fn has(&self, func: u32, block: u32, q: u32, r: HReg, inside: bool) -> bool
        ensures table { result ≡ table_has self.now func block q r inside }
        ensures windows { (h : HardParts) → HoldsWindows h self.now → result ≡ in_window_at h func block q r inside }
    {
        match self.funcs.get(func as usize) {
            Some(windows) => windows.has(block as usize, q, r, inside),
            None => false,
        }
    }
}
