//! The report of a watched run of the source, as bytes.
ghost use Rattle.std.specs.Prelude.{◌≡◌, ◌++◌, IfOk, OnOk, codes, decimal};
ghost use Rattle.haft_run.specs.SourceReport.{cause_word, src_stop_line, src_report_of};

use crate::printing::{push_number, push_outs, push_source};
use inst_meaning::Cause;
use ir_core::Tid;
use itoa::Buffer;
use race_watch::{SrcStop, WatchResult};
use std::alloc::{AllocError, Global};

/// The word of a cause.
fn cause_word(cause: Cause) -> &'static [u8]
    ensures { result.now ≡ cause_word cause }
{
    match cause {
        Cause::Divide => b"divide",
        Cause::Poison => b"poison",
        Cause::Access => b"access",
        Cause::Stack => b"stack",
        Cause::Depth => b"depth",
        Cause::Unlock => b"unlock",
        Cause::Join => b"join",
        Cause::Unreachable => b"unreachable",
    }
}

/// Adds how many turns there were, a thread, and what ends the line.
fn push_turn(text: &mut Vec<u8>, n: u64, tid: Tid, last: &[u8]) -> Result<(), AllocError>
    ensures { OnOk result (text.new.items ≡ text.old.items ++ decimal n ++ codes " " ++ decimal tid.0 ++ codes " " ++ last.now ++ codes "\n") }
{
    push_number(text, n)?;
    text.extend_from_slice(b" ")?;
    push_number(text, u64::from(tid.0))?;
    text.extend_from_slice(b" ")?;
    text.extend_from_slice(last)?;
    text.extend_from_slice(b"\n")
}

/// Adds the line of the stop.
fn push_stop(text: &mut Vec<u8>, stop: SrcStop) -> Result<(), AllocError>
    ensures { OnOk result (text.new.items ≡ text.old.items ++ src_stop_line stop) }
{
    match stop {
        SrcStop::End(code) => {
            text.extend_from_slice(b"stop end ")?;
            push_number(text, u64::from(code))?;
            text.extend_from_slice(b"\n")
        }
        SrcStop::Bound => text.extend_from_slice(b"stop bound\n"),
        SrcStop::Undefined { n, tid, cause } => {
            text.extend_from_slice(b"stop undefined ")?;
            push_turn(text, n, tid, cause_word(cause))
        }
        SrcStop::Race { n, t, u } => {
            let mut buffer = Buffer::new();
            text.extend_from_slice(b"stop race ")?;
            push_turn(text, n, t, buffer.format(u.0).as_bytes())
        }
    }
}

/// The report of a watched run: a line for each output, then the stop and the turns.
pub fn src_report(alloc: Global, r: &WatchResult) -> Result<Vec<u8>, AllocError>
    ensures { IfOk result (λ text. text.items ≡ src_report_of r.now) }
{
    let mut text = Vec::new(alloc);
    push_outs(&mut text, r.outs.items())?;
    push_stop(&mut text, r.stop)?;
    push_source(&mut text, r.turns.items())?;
    Ok(text)
}
