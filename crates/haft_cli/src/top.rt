//! The top call.
ghost use Rattle.std.specs.Prelude.{◌≡◌, ◌⊎◌, ◌↔◌, List, ℕ, Some, None, map, string_bytes};
ghost use Rattle.std.specs.Option.{ForSome};
ghost use Rattle.haft_io.specs.Device.{Rose, Puts};
ghost use Rattle.ir_core.specs.Module.{ModuleParts};
ghost use Rattle.sched_file.specs.Schedule.{ScheduleParts};
ghost use Rattle.src_meaning.specs.Races.{IsGood};
ghost use Rattle.hard_simulation.specs.Meaning.{IsFailure};
ghost use Rattle.tx_simulation.specs.Meaning.{AreCovered, AreGone, Means};
ghost use Rattle.haft_cli.specs.Command.{command_of};
ghost use Rattle.haft_cli.specs.Table.{Answer, Report, row_of, result_on};
ghost use Rattle.haft_cli.specs.Answers.{Works, Answers};
ghost use Rattle.haft_cli.specs.Outcome.{files, AreKnown, AreCalm, AsksRun, Ends, FailsToRead, IsQuiet, KeepsUnread, status_of};
ghost use Rattle.haft_cli.specs.Work.{Tells, WritesOrFails};
ghost use Rattle.haft_cli.specs.declared.command.Command.{Command};

use crate::command::command_of;
use crate::files::report;
use crate::refusal::Stopped;
use haft_io::{Inputs, Sink, write_whole};
use std::alloc::Global;

/// How a call ended. Its number is the status of the program.
#[derive(Clone, Copy, PartialEq, Eq)]
pub enum Status {
    /// 0: what was asked for was written.
    Done,
    /// 1: the line of a refusal was written.
    Refused,
    /// 2: the words are no command line.
    Usage,
    /// 3: a file couldn't be read.
    ReadFault,
    /// 4: the output couldn't be written whole.
    WriteFault,
    /// 5: memory ran out before anything was written.
    NoMemory,
}

/// Writes a text whole; then the status is the one that is given.
fn write<O: Sink>(out: &mut O, text: &[u8], status: Status) -> Status
    ensures { WritesOrFails text.now status result (O.written out.old) (O.written out.new) (Rose (O.faults out.old) (O.faults out.new)) }
{
    match write_whole(out, text) {
        Ok(()) => status,
        Err(_) => Status::WriteFault,
    }
}

/// Writes a report whole, or the line of a refusal.
fn tell<O: Sink>(alloc: Global, out: &mut O, report: Result<Vec<u8>, Stopped>) -> Status
    ensures tells { Tells report result (O.written out.old) (O.written out.new) (Rose (O.faults out.old) (O.faults out.new)) }
    ensures quiet { IsQuiet result → out.new ≡ out.old }
{
    match report {
        Ok(text) => write(out, &text, Status::Done),
        Err(Stopped::Refused(refusal)) => {
            let line = refusal.line(alloc);
            drop(refusal);
            match line {
                Ok(line) => write(out, &line, Status::Refused),
                Err(_) => Status::NoMemory,
            }
        }
        Err(Stopped::ReadFault) => Status::ReadFault,
        Err(Stopped::NoMemory) => Status::NoMemory,
    }
}

/// Does what the words ask for. `check F` reads the first file, which is the text of a module, and writes `accepted` and how
/// many functions, blocks and instructions it has. `run F S` reads also the second, which is a schedule, hardens the
/// program, runs it over the schedule's turns, aborts and upsets and writes the report of the run. `src F S` reads the same files, runs the source
/// itself over the schedule's turns, up to its end, an undefined step or a race, and writes the report of that.
///
/// The order is: the words; the first file, read whole; the second; the text of the module; its check; the text of the
/// schedule; the run; the write. Where memory runs out, nothing is written.
pub fn haft<I: Inputs, O: Sink>(
    alloc: Global,
    words: &[String],
    inputs: &mut I,
    out: &mut O,
) -> Status
    // The words.
    ensures usage { (result ≡ Status.Usage) ↔ (command_of (map string_bytes words.now) ≡ None) }
    ensures unread { result ≡ Status.Usage → inputs.new ≡ inputs.old }

    // A fault comes from a device, and from a file only where the command reads it; another file stays as it was.
    ensures read_fault { result ≡ Status.ReadFault
        → ForSome (command_of (map string_bytes words.now)) (λ command. FailsToRead (row_of command) (I.faults inputs.old) (I.faults inputs.new)) }
    ensures write_fault { result ≡ Status.WriteFault → Rose (O.faults out.old) (O.faults out.new) }
    ensures kept { ForSome (command_of (map string_bytes words.now)) (λ command. KeepsUnread (row_of command)
        (files (I.left inputs.old) (I.faults inputs.old)) (files (I.left inputs.new) (I.faults inputs.new))) }

    // What was written, for which files, and what became of them.
    ensures outcome { ForSome (command_of (map string_bytes words.now)) (λ command. Ends (row_of command)
        (files (I.left inputs.old) (I.faults inputs.old)) (files (I.left inputs.new) (I.faults inputs.new)) result (O.written out.old) (O.written out.new)) }
    ensures quiet { IsQuiet result → out.new ≡ out.old }

    // Where the files are known, a report is that of the command for them.
    ensures exact { (command : Command) (first second text : List ℕ) → command_of (map string_bytes words.now) ≡ Some command
        → AreKnown (row_of command) (I.left inputs.old) first second → Works (row_of command) first second (Report text)
        → result ≡ Status.Done → Puts (O.written out.old) text (O.written out.new) }

    // Whatever the answer is, only memory that runs out, the files that decide it and the sink stand in the way.
    ensures complete { (command : Command) (first second : List ℕ) (answer : Answer) → command_of (map string_bytes words.now) ≡ Some command
        → AreKnown (row_of command) (I.left inputs.old) first second → Answers (row_of command) first second answer
        → AreCalm (row_of command) first (I.faults inputs.old) (I.faults inputs.new) → ¬ Rose (O.faults out.old) (O.faults out.new)
        → (result ≡ status_of answer) ⊎ (result ≡ Status.NoMemory) }

    // The result of a run of a good module stands for the source run whose turns it tells, unless some upset struck in a window or while an
    // earlier one stood.
    ensures meaning { (m : ModuleParts) (s : ScheduleParts) → AsksRun (command_of (map string_bytes words.now)) (I.left inputs.old) m s
        → result ≡ Status.Done → IsGood m s.args → AreCovered (result_on m s).upsets → Means m s.args (result_on m s) }

    // Where nothing is left of any upset, no check fails and nothing undefined is met.
    ensures never_fails { (m : ModuleParts) (s : ScheduleParts) → AsksRun (command_of (map string_bytes words.now)) (I.left inputs.old) m s
        → result ≡ Status.Done → IsGood m s.args → AreGone (result_on m s).upsets → ¬ IsFailure (result_on m s).stop }
{
    let Some(command) = command_of(words) else {
        return Status::Usage;
    };
    let report = report(alloc, command, inputs);
    tell(alloc, out, report)
}
