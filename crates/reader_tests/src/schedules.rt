//! A text of a schedule, and its entries. Which texts are schedules is in `tests/schedules.txt`.
use ir_core::{Side, Tid};
use sched_file::{Line, SchedError, Schedule, UpsetSpec, parse_schedule};
use std::alloc::Global;
use std::process::Abort;

/// The schedule of the text, or its first unfit line.
fn parsed(rt: &impl Abort, alloc: Global, text: &[u8]) -> Result<Schedule, u32> {
    assert!(rt; text.len() <= 4_194_304);
    match parse_schedule(alloc, text) {
        Ok(schedule) => Ok(schedule),
        Err(SchedError::Refused { line }) => Err(line),
        Err(SchedError::NoMemory) => panic!(rt; "no memory for a schedule"),
    }
}

fn schedule_of(rt: &impl Abort, alloc: Global, text: &str) -> Schedule {
    parsed(rt, alloc, text.as_bytes()).expect(rt, "a schedule was refused")
}

/// Whether the upset is of frame 6 of thread 5, bits 0 and 1 of `s.x`.
fn is_the_upset(upset: &UpsetSpec) -> bool {
    upset.tid == Tid(5)
        && upset.depth == 6
        && upset.side == Side::S
        && upset.name.bytes() == b"x".as_slice()
        && upset.mask == 3
}

#[test]
fn entries_are_those_of_the_lines(rt: HostRuntime) {
    let text = "args 7 0\n#\nturn 3 5\n\nround 2 7\nmix 3 9 1\nabort 4\nupset 5 6 s.x 03";
    let schedule = schedule_of(&rt, rt.alloc(), text);
    assert!(rt; schedule.args() == [7, 0].as_slice());
    let lines = schedule.lines();
    assert!(rt; lines.len() == 5);
    assert!(rt; matches!(&lines[0], Line::Turn(Tid(3), 5)));
    assert!(rt; matches!(&lines[1], Line::Round(2, 7)));
    assert!(rt; matches!(&lines[2], Line::Mix(3, 9, 1)));
    assert!(rt; matches!(&lines[3], Line::Abort(Tid(4))));
    let Line::Upset(upset) = &lines[4] else {
        panic!(rt; "the last line is no upset");
    };
    assert!(rt; is_the_upset(upset));
}

#[test]
fn a_long_mix_is_one_entry(rt: HostRuntime) {
    let schedule = schedule_of(&rt, rt.alloc(), "mix 64 1 4194304");
    let lines = schedule.lines();
    assert!(rt; lines.len() == 1);
    assert!(rt; matches!(&lines[0], Line::Mix(64, 1, 4_194_304)));
}
