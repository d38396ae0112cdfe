//! The numbers of ticks.
ghost use Rattle.std.specs.Prelude.{◌≡◌, ◌<◌, ◌+◌, ◌^◌, length, IfOk};
ghost use Rattle.hard_ir.specs.Facts.{list_limit};
ghost use Rattle.hard_ir.specs.Image.{is_ender, since_ender, to_ender, with_work, ticked};

use crate::rows::leaves;
use hard_ir::{HInst, HInsts, LIST_LIMIT};
use ir_core::{Copied, Seq};
use std::alloc::{AllocError, Global};

// Whether an item retires what leaves.
fn is_ender(item: &HInst) -> bool
    ensures { result ≡ is_ender item.now }
{
    match item {
        HInst::Do { inst, retires, .. } => *retires && leaves(inst),
        HInst::Cut
        | HInst::Begin
        | HInst::End
        | HInst::Tick(_)
        | HInst::Chk { .. }
        | HInst::ChkMem { .. }
        | HInst::Mov { .. } => false,
    }
}

// How many items there are up to the first ender, with it.
fn to_ender(items: &[HInst]) -> usize
    ensures { result ≡ to_ender items.now }
{
    for (n, item) in items.iter().enumerate() {
        if is_ender(item) {
            return n + 1;
        }
    }
    items.len()
}

// An item, and of a tick the number: so much work came before, and these items begin with it.
fn ticked_item(
    item: &HInst,
    items: &[HInst],
    since: usize,
    alloc: Global,
) -> Result<HInst, AllocError>
    ensures { IfOk result (λ r. r ≡ with_work (since + to_ender items.now) item.now) }
{
    match item {
        HInst::Tick(_) => {
            let work = since.checked_add(to_ender(items)).ok_or(AllocError)?;
            let work = u32::try_from(work).ok().ok_or(AllocError)?;
            Ok(HInst::Tick(work))
        }
        HInst::Do { .. }
        | HInst::Mov { .. }
        | HInst::Chk { .. }
        | HInst::ChkMem { .. }
        | HInst::Cut
        | HInst::Begin
        | HInst::End => item.copy(alloc),
    }
}

// How many items there are after the last ender, once this one comes after so many.
fn since_ender(since: usize, item: &HInst) -> usize
    requires { since + 1 < 2 ^ 64 }
    ensures { result ≡ since_ender since item.now }
{
    if is_ender(item) { 0 } else { since + 1 }
}

// The items, their ticks numbered.
pub(crate) fn ticked_list(items: &[HInst], alloc: Global) -> Result<HInsts, AllocError>
    ensures items { IfOk result (λ list. list ≡ ticked 0 items.now) }
    ensures short { IfOk result (λ list. length list < list_limit) }
{
    let mut list = Seq::new(alloc);
    let mut since = 0;
    for (n, item) in items.iter().enumerate() {
        let ticked = ticked_item(item, &items[n..], since, alloc)?;
        list.push(ticked)?;
        since = since_ender(since, item);
    }
    if list.items().len() >= LIST_LIMIT {
        return Err(AllocError);
    }
    Ok(list)
}
