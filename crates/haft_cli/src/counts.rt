//! What `check` reports of an accepted module.
ghost use Rattle.std.specs.Prelude.{◌≡◌, IfOk, OnOk, IfSome, ◌++◌, map, length};
ghost use Rattle.std.specs.List.{sum};
ghost use Rattle.std.specs.Fmt.{decimal};
ghost use Rattle.haft_cli.specs.Table.{block_count, insts_in, inst_count, check_report};

use ir_check::Accepted;
use ir_core::{Func, Module};
use std::alloc::{AllocError, Global};

/// How many blocks the functions have, or `None` for more than a number can hold.
fn block_count(m: &Module) -> Option<usize>
    ensures { IfSome result (λ count. count ≡ block_count m.now) }
{
    let mut count: usize = 0;
    for f in m.funcs() {
        count = count.checked_add(f.blocks().len())?;
    }
    Some(count)
}

/// How many instructions a function has.
fn insts_in(f: &Func) -> Option<usize>
    ensures { IfSome result (λ count. count ≡ insts_in f.now) }
{
    let mut count: usize = 0;
    for block in f.blocks() {
        count = count.checked_add(block.insts.items().len())?;
    }
    Some(count)
}

/// How many instructions a module has.
fn inst_count(m: &Module) -> Option<usize>
    ensures { IfSome result (λ count. count ≡ inst_count m.now) }
{
    let mut count: usize = 0;
    for f in m.funcs() {
        count = count.checked_add(insts_in(f)?)?;
    }
    Some(count)
}

/// Adds a number.
fn push_number(text: &mut Vec<u8>, number: usize) -> Result<(), AllocError>
    ensures { OnOk result (text.new.items ≡ text.old.items ++ decimal number) }
{
    let mut buffer = itoa::Buffer::new();
    text.extend_from_slice(buffer.format(number).as_bytes())
}

/// `accepted`, and how many functions, blocks and instructions the module has. Counts that no number can hold, which no text
/// has, count as out of memory.
fn counts_line(alloc: Global, m: &Module) -> Result<Vec<u8>, AllocError>
    ensures { IfOk result (λ text. text.items ≡ check_report m.now) }
{
    let blocks = block_count(m).ok_or(AllocError)?;
    let insts = inst_count(m).ok_or(AllocError)?;
    let mut text = Vec::from_slice(alloc, b"accepted ")?;
    push_number(&mut text, m.funcs().len())?;
    text.extend_from_slice(b" ")?;
    push_number(&mut text, blocks)?;
    text.extend_from_slice(b" ")?;
    push_number(&mut text, insts)?;
    text.extend_from_slice(b"\n")?;
    Ok(text)
}

/// The report of `check`.
pub fn check_report(alloc: Global, a: &Accepted) -> Result<Vec<u8>, AllocError>
    ensures { IfOk result (λ text. text.items ≡ check_report a.now) }
{
    counts_line(alloc, a.module())
}
