//! The files of a command, read in their order.
ghost use Rattle.std.specs.Prelude.{IsTrue, IfOk, IfErr};
ghost use Rattle.haft_io.specs.Device.{other};
ghost use Rattle.haft_cli.specs.Table.{Report, row_of};
ghost use Rattle.haft_cli.specs.Answers.{reads};
ghost use Rattle.haft_cli.specs.Outcome.{files, IsKept, KeepsUnread, Outcome};
ghost use Rattle.haft_cli.specs.Work.{TakesFile, StopsAt, Stops};

use crate::command::Command;
use crate::refusal::{Refusal, Stopped};
use haft_io::{Inputs, ReadFail, Which, read_whole};
use std::alloc::Global;

/// The most bytes that a file may have.
const LIMIT: usize = 4_194_304;

/// The bytes of a file that the command reads, and of another none.
fn read_file<I: Inputs>(
    alloc: Global,
    command: Command,
    inputs: &mut I,
    which: Which,
) -> Result<Vec<u8>, Stopped>
    ensures bytes { IfOk result (λ bytes. TakesFile (row_of command) which
        (files (I.left inputs.old) (I.faults inputs.old)) (files (I.left inputs.new) (I.faults inputs.new)) bytes.items) }
    ensures stopped { IfErr result (StopsAt (row_of command) which
        (files (I.left inputs.old) (I.faults inputs.old)) (files (I.left inputs.new) (I.faults inputs.new))) }
    ensures unread { ¬ IsTrue (reads (row_of command) which) → IsKept which
        (files (I.left inputs.old) (I.faults inputs.old)) (files (I.left inputs.new) (I.faults inputs.new)) }
    ensures other { IsKept (other which)
        (files (I.left inputs.old) (I.faults inputs.old)) (files (I.left inputs.new) (I.faults inputs.new)) }
{
    if !command.reads(which) {
        return Ok(Vec::new(alloc));
    }
    match read_whole(alloc, inputs, which, LIMIT) {
        Ok(bytes) => Ok(bytes),
        Err(ReadFail::TooLong) => Err(Stopped::Refused(Refusal::Long(which))),
        Err(ReadFail::Failed) => Err(Stopped::ReadFault),
        Err(ReadFail::NoMemory) => Err(Stopped::NoMemory),
    }
}

/// The report of a command for its files, which are read whole, the first before the second.
pub fn report<I: Inputs>(
    alloc: Global,
    command: Command,
    inputs: &mut I,
) -> Result<Vec<u8>, Stopped>
    ensures report { IfOk result (λ text. Outcome (row_of command)
        (files (I.left inputs.old) (I.faults inputs.old)) (files (I.left inputs.new) (I.faults inputs.new)) (Report text.items)) }
    ensures stopped { IfErr result (Stops (row_of command)
        (files (I.left inputs.old) (I.faults inputs.old)) (files (I.left inputs.new) (I.faults inputs.new))) }
    ensures unread { KeepsUnread (row_of command)
        (files (I.left inputs.old) (I.faults inputs.old)) (files (I.left inputs.new) (I.faults inputs.new)) }
{
    let first = read_file(alloc, command, inputs, Which::First)?;
    let second = read_file(alloc, command, inputs, Which::Second)?;
    command.report(alloc, &first, &second)
}
