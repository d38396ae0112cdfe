//! Where the edges of each block lead.
ghost use Rattle.std.specs.Prelude.{◌≡◌, ◌<◌, ◌∷◌, ◌++◌, ◌&&◌, [], ℕ, length, nat_eq, nat_lt, IfOk, OnOk, if◌then◌else◌};
ghost use Rattle.ir_flow.specs.Searches.{targets_in, HasTargets};

use std::alloc::{AllocError, Global};

// Adds a target to the list of its block, where there is one.
fn add_target(table: &mut Vec<Vec<u32>>, from: u32, to: u32) -> Result<(), AllocError>
    ensures count { OnOk result (length table.new.items ≡ length table.old.items) }
    ensures added { OnOk result ((block : ℕ) → block < length table.old.items → targets_in table.new.items block ≡
        (if nat_eq from block then targets_in table.old.items block ++ to ∷ [] else targets_in table.old.items block)) }
{
    let place = from as usize;
    if place < table.len() {
        let list = &mut table[place];
        list.push(to)?;
    }
    Ok(())
}

// A table of so many blocks without targets.
fn no_targets(alloc: Global, blocks: u32) -> Result<Vec<Vec<u32>>, AllocError>
    ensures { IfOk result (λ table. HasTargets [] blocks table.items) }
{
    let mut table = Vec::with_capacity(alloc, blocks as usize)?;
    for _block in 0..blocks {
        table.push(Vec::new(alloc))?;
    }
    Ok(table)
}

/// The targets of each of so many blocks.
pub(crate) fn targets_of(
    alloc: Global,
    blocks: u32,
    pairs: &[(u32, u32)],
) -> Result<Vec<Vec<u32>>, AllocError>
    ensures { IfOk result (λ table. HasTargets pairs.now blocks table.items) }
{
    let mut table = no_targets(alloc, blocks)?;
    for (from, to) in pairs {
        add_target(&mut table, *from, *to)?;
    }
    Ok(table)
}
