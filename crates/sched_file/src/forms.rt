//! The forms of entries, read field by field.
ghost use Rattle.std.specs.Prelude.{◌≡◌, ◌<◌, ◌^◌, ◌∷◌, IfSome, IfOk};
ghost use Rattle.std.specs.Option.{option_map};
ghost use Rattle.sched_file.specs.Reading.{number_at, thread_at, threads_at, register_at, mask_at, turn_entry, round_entry, mix_entry, abort_entry, upset_entry, entry_of};
ghost use Rattle.sched_file.specs.Upsets.{upset_of};

use crate::cutting::Fields;
use crate::numbers::{WORDS, number, number_below, register};
use crate::{Line, UpsetSpec};
use ir_core::{Name, Side, Tid};
use std::alloc::{AllocError, Global};

/// The next field as a number below the limit.
#[tactic(auto, unfolding(crate::specs::Reading::number_at))]
fn next_number(limit: u128, fields: &mut Fields) -> Option<u128>
    ensures number { option_map (λ n. (n, fields.new)) result ≡ number_at limit fields.old }
    ensures below { IfSome result (λ n. n < limit) }
{
    number_below(limit, fields.next()?)
}

fn next_word(fields: &mut Fields) -> Option<u64>
    ensures { option_map (λ n. (n, fields.new)) result ≡ number_at (2 ^ 64) fields.old }
{
    let number = next_number(WORDS, fields)?;
    Some(number as u64)
}

#[tactic(auto, unfolding(crate::specs::Reading::thread_at))]
fn next_thread(fields: &mut Fields) -> Option<Tid>
    ensures { option_map (λ t. (t, fields.new)) result ≡ thread_at fields.old }
{
    let number = next_number(64, fields)?;
    Some(Tid(number as u32))
}

/// The next field as a count of threads, from 1 to 64.
#[tactic(auto, unfolding(crate::specs::Reading::threads_at))]
fn next_threads(fields: &mut Fields) -> Option<u32>
    ensures { option_map (λ n. (n, fields.new)) result ≡ threads_at fields.old }
{
    let number = next_number(65, fields)?;
    if number > 0 {
        Some(number as u32)
    } else {
        None
    }
}

#[tactic(auto, unfolding(crate::specs::Reading::register_at))]
fn next_register<'a>(fields: &mut Fields<'a>) -> Option<(Side, &'a [u8])>
    ensures { option_map (λ x. (x.0, x.1.now, fields.new)) result ≡ register_at fields.old }
{
    register(fields.next()?)
}

#[tactic(auto, unfolding(crate::specs::Reading::mask_at))]
fn next_mask(fields: &mut Fields) -> Option<u128>
    ensures { option_map (λ n. (n, fields.new)) result ≡ mask_at fields.old }
{
    let mask = number(fields.next()?)?;
    if mask > 0 { Some(mask) } else { None }
}

#[tactic(auto, unfolding(crate::specs::Reading::turn_entry))]
fn turn(fields: &mut Fields) -> Option<Line>
    ensures { result ≡ turn_entry fields.old }
{
    let tid = next_thread(fields)?;
    let turns = next_word(fields)?;
    match fields.next() {
        Some(_) => None,
        None => Some(Line::Turn(tid, turns)),
    }
}

#[tactic(auto, unfolding(crate::specs::Reading::round_entry))]
fn round(fields: &mut Fields) -> Option<Line>
    ensures { result ≡ round_entry fields.old }
{
    let threads = next_threads(fields)?;
    let rounds = next_word(fields)?;
    match fields.next() {
        Some(_) => None,
        None => Some(Line::Round(threads, rounds)),
    }
}

#[tactic(auto, unfolding(crate::specs::Reading::mix_entry))]
fn mix(fields: &mut Fields) -> Option<Line>
    ensures { result ≡ mix_entry fields.old }
{
    let threads = next_threads(fields)?;
    let seed = next_word(fields)?;
    let turns = next_word(fields)?;
    match fields.next() {
        Some(_) => None,
        None => Some(Line::Mix(threads, seed, turns)),
    }
}

#[tactic(auto, unfolding(crate::specs::Reading::abort_entry))]
fn abort(fields: &mut Fields) -> Option<Line>
    ensures { result ≡ abort_entry fields.old }
{
    let tid = next_thread(fields)?;
    match fields.next() {
        Some(_) => None,
        None => Some(Line::Abort(tid)),
    }
}

/// An upset whose name still stands in the text.
#[derive(Drop)]
struct Upset<'a> {
    tid: Tid,
    depth: u32,
    side: Side,
    name: &'a [u8],
    mask: u128,
}

#[tactic(auto, unfolding(crate::specs::Reading::upset_entry))]
fn read_upset<'a>(fields: &mut Fields<'a>) -> Option<Upset<'a>>
    ensures { option_map upset_of result ≡ upset_entry fields.old }
{
    let tid = next_thread(fields)?;
    let depth = next_number(1 << 32, fields)? as u32;
    let (side, name) = next_register(fields)?;
    let mask = next_mask(fields)?;
    match fields.next() {
        Some(_) => None,
        None => Some(Upset {
            tid,
            depth,
            side,
            name,
            mask,
        }),
    }
}

fn upset_line(alloc: Global, fields: &mut Fields) -> Result<Option<Line>, AllocError>
    ensures { IfOk result (λ line. line ≡ upset_entry fields.old) }
{
    let Some(upset) = read_upset(fields) else {
        return Ok(None);
    };
    let name = Name::new(alloc, upset.name)?;
    Ok(Some(Line::Upset(UpsetSpec {
        tid: upset.tid,
        depth: upset.depth,
        side: upset.side,
        name,
        mask: upset.mask,
    })))
}

/// The entry of a line with this first field and these behind it, or `None` where it has none.
#[tactic(auto, unfolding(crate::specs::Reading::entry_of))]
pub(crate) fn entry(
    alloc: Global,
    word: &[u8],
    fields: &mut Fields,
) -> Result<Option<Line>, AllocError>
    ensures { IfOk result (λ line. line ≡ entry_of word.now fields.old) }
{
    if word == b"turn".as_slice() {
        Ok(turn(fields))
    } else if word == b"round".as_slice() {
        Ok(round(fields))
    } else if word == b"mix".as_slice() {
        Ok(mix(fields))
    } else if word == b"abort".as_slice() {
        Ok(abort(fields))
    } else if word == b"upset".as_slice() {
        upset_line(alloc, fields)
    } else {
        Ok(None)
    }
}
