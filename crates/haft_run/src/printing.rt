//! The report of a run, as bytes.
ghost use Rattle.std.specs.Prelude.{◌≡◌, ◌++◌, IfOk, OnOk, codes, decimal};
ghost use Rattle.std.specs.List.{flat_map};
ghost use Rattle.haft_run.specs.Report.{out_line, record_word, upset_line, upset_lines, aborts_line, stop_line, run_text, source_line, report_of};

use crate::{Aborts, Record, RunResult, Stop};
use ir_core::{Out, Tid};
use itoa::Buffer;
use std::alloc::{AllocError, Global};

/// Adds a number in decimal digits.
pub(crate) fn push_number(text: &mut Vec<u8>, number: u64) -> Result<(), AllocError>
    ensures { OnOk result (text.new.items ≡ text.old.items ++ decimal number) }
{
    let mut buffer = Buffer::new();
    text.extend_from_slice(buffer.format(number).as_bytes())
}

/// Adds the line of an output.
fn push_out(text: &mut Vec<u8>, out: Out) -> Result<(), AllocError>
    ensures { OnOk result (text.new.items ≡ text.old.items ++ out_line out) }
{
    let (word, number) = match out {
        Out::Num(number) => (b"out ", number),
        Out::Put(byte) => (b"put ", u64::from(byte)),
    };
    text.extend_from_slice(word)?;
    push_number(text, number)?;
    text.extend_from_slice(b"\n")
}

/// The word of what has become of an upset.
fn record_word(latest: Record) -> &'static [u8]
    ensures { result.now ≡ record_word latest }
{
    match latest {
        Record::Missed => b"missed",
        Record::Window => b"window",
        Record::Hit => b"hit",
        Record::Undone => b"undone",
        Record::Stacked => b"stacked",
    }
}

/// Adds the line of an upset, which is counted from 1.
fn push_upset(text: &mut Vec<u8>, k: u64, latest: Record) -> Result<(), AllocError>
    ensures { OnOk result (text.new.items ≡ text.old.items ++ upset_line k latest) }
{
    text.extend_from_slice(b"upset ")?;
    push_number(text, k)?;
    text.extend_from_slice(b" ")?;
    text.extend_from_slice(record_word(latest))?;
    text.extend_from_slice(b"\n")
}

/// Adds the lines of all upsets.
fn push_upsets(text: &mut Vec<u8>, records: &[Record]) -> Result<(), AllocError>
    ensures { OnOk result (text.new.items ≡ text.old.items ++ upset_lines 0 records.now) }
{
    for (before, latest) in records.iter().enumerate() {
        push_upset(text, before as u64 + 1, *latest)?;
    }
    Ok(())
}

/// Adds the line of the counts of aborts.
fn push_aborts(text: &mut Vec<u8>, aborts: Aborts) -> Result<(), AllocError>
    ensures { OnOk result (text.new.items ≡ text.old.items ++ aborts_line aborts) }
{
    text.extend_from_slice(b"aborts ")?;
    push_number(text, aborts.explicit)?;
    text.extend_from_slice(b" ")?;
    push_number(text, aborts.conflict)?;
    text.extend_from_slice(b" ")?;
    push_number(text, aborts.overflow)?;
    text.extend_from_slice(b" ")?;
    push_number(text, aborts.other)?;
    text.extend_from_slice(b"\n")
}

/// Adds a thread and a place.
fn push_place(text: &mut Vec<u8>, tid: Tid, at: &[u8]) -> Result<(), AllocError>
    ensures { OnOk result (text.new.items ≡ text.old.items ++ decimal tid.0 ++ codes " " ++ at.now ++ codes "\n") }
{
    push_number(text, u64::from(tid.0))?;
    text.extend_from_slice(b" ")?;
    text.extend_from_slice(at)?;
    text.extend_from_slice(b"\n")
}

/// Adds the line of the stop.
fn push_stop(text: &mut Vec<u8>, stop: &Stop) -> Result<(), AllocError>
    ensures { OnOk result (text.new.items ≡ text.old.items ++ stop_line stop.now) }
{
    match stop {
        Stop::End(code) => {
            text.extend_from_slice(b"stop end ")?;
            push_number(text, u64::from(*code))?;
            text.extend_from_slice(b"\n")
        }
        Stop::Bound => text.extend_from_slice(b"stop bound\n"),
        Stop::Fail { tid, at } => {
            text.extend_from_slice(b"stop fail ")?;
            push_place(text, *tid, at.bytes())
        }
        Stop::Trap { tid, at } => {
            text.extend_from_slice(b"stop trap ")?;
            push_place(text, *tid, at.bytes())
        }
    }
}

/// Adds a maximal run of turns.
fn push_run(text: &mut Vec<u8>, run: (Tid, u64)) -> Result<(), AllocError>
    ensures { OnOk result (text.new.items ≡ text.old.items ++ run_text run) }
{
    text.extend_from_slice(b" ")?;
    push_number(text, u64::from(run.0.0))?;
    text.extend_from_slice(b"*")?;
    push_number(text, run.1)
}

/// Adds the lines of all outputs.
pub(crate) fn push_outs(text: &mut Vec<u8>, outs: &[Out]) -> Result<(), AllocError>
    ensures { OnOk result (text.new.items ≡ text.old.items ++ flat_map out_line outs.now) }
{
    for out in outs {
        push_out(text, *out)?;
    }
    Ok(())
}

/// Adds the line of the turns of the source run.
pub(crate) fn push_source(text: &mut Vec<u8>, runs: &[(Tid, u64)]) -> Result<(), AllocError>
    ensures { OnOk result (text.new.items ≡ text.old.items ++ source_line runs.now) }
{
    text.extend_from_slice(b"src")?;
    for run in runs {
        push_run(text, *run)?;
    }
    text.extend_from_slice(b"\n")
}

/// The report of a result: a line for each output and each upset, then the counts of aborts, the stop and the turns.
pub fn report(alloc: Global, r: &RunResult) -> Result<Vec<u8>, AllocError>
    ensures { IfOk result (λ text. text.items ≡ report_of r.now) }
{
    let mut text = Vec::new(alloc);
    push_outs(&mut text, r.outs.items())?;
    push_upsets(&mut text, r.upsets.items())?;
    push_aborts(&mut text, r.aborts)?;
    push_stop(&mut text, &r.stop)?;
    push_source(&mut text, r.turns.items())?;
    Ok(text)
}
