//! What the top call answers and writes.
use crate::texts::{
    BAD_BYTE, COUNT, REPORT, SUM, TURNS, TWO_BLOCKS, UNENDED, UNKNOWN_OPERATION, bytes_of,
    check_on, inputs_of, run_on, sink_of, words_of,
};
use haft_cli::{Status, haft};
use haft_io::{CleanInputs, CleanSink};

/// Schedules for the sum, and the reports.
const REPORTS: &[(&str, &str)] = &[
    (TURNS, REPORT),
    ("turn 0 2\nturn 0 38\n", REPORT),
    ("turn 0 12", REPORT),
    ("", "aborts 0 0 0 0\nstop bound\nsrc\n"),
    (
        "turn 0 11\n",
        "out 5\naborts 0 0 0 0\nstop bound\nsrc 0*2\n",
    ),
    // Threads that were never made take turns for nothing. The third form is one turn, of thread 2.
    ("turn 3 5\nturn 0 40\n", REPORT),
    ("round 3 40\n", REPORT),
    ("mix 3 0 1\n", "aborts 0 0 0 0\nstop bound\nsrc\n"),
    ("mix 1 0 12\n", REPORT),
    // An abort of a thread outside a transaction does nothing, and one inside takes back its turns.
    ("# turns\nargs 7\n\n  turn 0 7\nabort 0\nturn 0 5\n", REPORT),
    (
        "turn 0 4\nabort 0\nturn 0 40\n",
        "out 5\naborts 0 0 0 1\nstop end 0\nsrc 0*4\n",
    ),
    // An upset inside a transaction is undone with it.
    (
        "turn 0 3\nupset 0 0 m.a 1\nturn 0 40\n",
        "out 5\nupset 1 undone\naborts 1 0 0 0\nstop end 0\nsrc 0*4\n",
    ),
    // One that strikes nothing changes nothing.
    (
        "upset 63 0 m.a 1\nturn 0 12\n",
        "out 5\nupset 1 missed\naborts 0 0 0 0\nstop end 0\nsrc 0*4\n",
    ),
    // Outside transactions the check fails, and in a window none does.
    (
        "turn 0 2\nabort 0\nturn 0 1\nabort 0\nturn 0 1\nabort 0\nturn 0 2\nupset 0 0 m.a 1\nturn 0 3\n",
        "upset 1 hit\naborts 0 0 0 3\nstop fail 0 main/0/5\nsrc 0*1\n",
    ),
    (
        "turn 0 6\nupset 0 0 m.a 1\nturn 0 40\n",
        "out 4\nupset 1 window\naborts 0 0 0 0\nstop end 0\nsrc 0*4\n",
    ),
    // A second one while the first stands, and one after the other.
    (
        "turn 0 4\nupset 0 0 m.a 1\nupset 0 0 s.a 1\nturn 0 40\n",
        "out 4\nupset 1 hit\nupset 2 stacked\naborts 0 0 0 0\nstop end 0\nsrc 0*4\n",
    ),
    (
        "turn 0 3\nupset 0 0 m.a 1\nturn 0 5\nupset 0 0 m.a 2\nturn 0 40\n",
        "out 5\nupset 1 undone\nupset 2 undone\naborts 2 0 0 0\nstop end 0\nsrc 0*4\n",
    ),
];

#[test]
fn reports_are_written_as_the_schedules_ask(rt: HostRuntime) {
    for (second, text) in REPORTS {
        let (answer, written) = run_on(&rt, rt.alloc(), SUM.as_bytes(), second.as_bytes(), 0, 0);
        assert!(rt; answer == Status::Done, "for {second:?}");
        assert_eq!(rt; written.as_slice(), text.as_bytes(), "for {second:?}");
    }
}

/// Turns enough for two threads to count to 20 under a lock, one after the other.
const COUNTING: &str = "turn 0 200\nturn 1 3000\nturn 2 3000\nturn 0 200\n";

/// Modules of several blocks, schedules, and the reports.
const RUNS: &[(&str, &str, &str)] = &[
    (TWO_BLOCKS, TURNS, "aborts 0 0 0 0\nstop end 0\nsrc 0*3\n"),
    // A thread takes 5 steps of the source before its loop, 13 in each of 10 rounds, and 5 from the last test to its exit;
    // `main` takes 7 before it first waits, and 8 behind that.
    (
        COUNT,
        COUNTING,
        "out 20\naborts 0 0 0 0\nstop end 0\nsrc 0*7 1*140 2*140 0*8\n",
    ),
];

#[test]
fn modules_of_blocks_and_threads_run(rt: HostRuntime) {
    for (first, second, text) in RUNS {
        let (answer, written) = run_on(&rt, rt.alloc(), first.as_bytes(), second.as_bytes(), 0, 0);
        assert!(rt; answer == Status::Done, "not {text:?}");
        assert_eq!(rt; written.as_slice(), text.as_bytes());
    }
}

/// Modules, schedules, and the lines of their refusals.
const REFUSALS: &[(&str, &str, &str)] = &[
    (UNKNOWN_OPERATION, TURNS, "refused text 3 fadd\n"),
    (UNENDED, TURNS, "refused text 6 end\n"),
    (BAD_BYTE, TURNS, "refused text 4 byte 27\n"),
    ("", TURNS, "refused module NoMain -\n"),
    (SUM, "turn 64 1\n", "refused schedule 1\n"),
    (SUM, "turn 0 4194304\nturn 0 1\n", "refused schedule 2\n"),
    // Where more than one holds, the text of the module comes first, then its check, then the text of the schedule.
    ("", "turn 64 1\n", "refused module NoMain -\n"),
    (UNKNOWN_OPERATION, "turn 64 1\n", "refused text 3 fadd\n"),
    (
        UNKNOWN_OPERATION,
        "upset 0 0 m.a 1\n",
        "refused text 3 fadd\n",
    ),
    (BAD_BYTE, "turn 64 1\n", "refused text 4 byte 27\n"),
    ("", "upset 0 0 m.a 1\n", "refused module NoMain -\n"),
    (TWO_BLOCKS, "turn 64 1\n", "refused schedule 1\n"),
    (SUM, "upset 0 0 m.a 1\nturn 64 1\n", "refused schedule 2\n"),
];

#[test]
fn refusals_are_written_in_their_order(rt: HostRuntime) {
    for (first, second, text) in REFUSALS {
        let (answer, written) = run_on(&rt, rt.alloc(), first.as_bytes(), second.as_bytes(), 0, 0);
        assert!(rt; answer == Status::Refused, "not {text:?}");
        assert_eq!(rt; written.as_slice(), text.as_bytes());
    }
}

/// Modules, how a check of them ends, and what it writes.
const CHECKS: &[(&str, Status, &str)] = &[
    (SUM, Status::Done, "accepted 1 1 3\n"),
    (COUNT, Status::Done, "accepted 2 6 33\n"),
    (TWO_BLOCKS, Status::Done, "accepted 1 2 2\n"),
    (UNKNOWN_OPERATION, Status::Refused, "refused text 3 fadd\n"),
    (BAD_BYTE, Status::Refused, "refused text 4 byte 27\n"),
    ("", Status::Refused, "refused module NoMain -\n"),
    (
        "define i32 @main() {\n  %r = add i32 1, %r\n  ret i32 0\n}\n",
        Status::Refused,
        "refused module UseBeforeDef main/0/0 %r\n",
    ),
];

/// The second file of a check isn't read: here it has a form that no schedule has.
#[test]
fn checks_read_the_first_file_alone(rt: HostRuntime) {
    for (first, answer, text) in CHECKS {
        let (status, written) = check_on(&rt, rt.alloc(), first.as_bytes(), 0);
        assert!(rt; status == *answer, "not {text:?}");
        assert_eq!(rt; written.as_slice(), text.as_bytes());
    }
    let (status, written) = check_on(&rt, rt.alloc(), SUM.as_bytes(), 1);
    assert!(rt; status == Status::ReadFault);
    assert!(rt; written.is_empty());
}

#[test]
fn files_past_the_limit_are_refused_before_their_form_is_looked_at(rt: HostRuntime) {
    let long = vec![in rt.alloc(); b'?'; 4_194_305].expect(&rt, "no memory for a long file");
    let within = &long[1..];
    for (first, second, text) in [
        (long.as_slice(), within, "refused long first\n"),
        (long.as_slice(), long.as_slice(), "refused long first\n"),
        (within, long.as_slice(), "refused long second\n"),
        (within, within, "refused text 1 byte 1\n"),
        (SUM.as_bytes(), within, "refused schedule 1\n"),
    ] {
        let (answer, written) = run_on(&rt, rt.alloc(), first, second, 0, 0);
        assert!(rt; answer == Status::Refused, "not {text}");
        assert_eq!(rt; written.as_slice(), text.as_bytes());
    }
}

/// The first file is past the limit at its 1,025th read, and the next read of all would fail.
#[test]
fn a_first_file_past_the_limit_is_refused_before_the_second_is_read(rt: HostRuntime) {
    let long = vec![in rt.alloc(); b'?'; 4_194_305].expect(&rt, "no memory for a long file");
    let (answer, written) = run_on(&rt, rt.alloc(), &long, TURNS.as_bytes(), 1026, 0);
    assert!(rt; answer == Status::Refused);
    assert_eq!(rt; written.as_slice(), b"refused long first\n".as_slice());
    let (answer, written) = run_on(&rt, rt.alloc(), &long[1..], TURNS.as_bytes(), 1026, 0);
    assert!(rt; answer == Status::ReadFault);
    assert!(rt; written.is_empty());
}

#[test]
fn faulty_words_write_and_read_nothing(rt: HostRuntime) {
    let alloc = rt.alloc();
    let mut inputs = inputs_of(&rt, alloc, SUM.as_bytes(), TURNS.as_bytes(), 0);
    let mut out = sink_of(&rt, alloc, 0);
    for line in [
        "",
        "run",
        "run a",
        "run a b c",
        "check",
        "check a b",
        "srcs a b",
        "walk a b",
    ] {
        let words = words_of(&rt, alloc, line);
        let answer = haft(alloc, &words, &mut inputs, &mut out);
        assert!(rt; answer == Status::Usage, "for {line:?}");
        assert!(rt; out.bytes().is_empty(), "for {line:?}");
    }
    let words = words_of(&rt, alloc, "run a b");
    let answer = haft(alloc, &words, &mut inputs, &mut out);
    assert!(rt; answer == Status::Done);
    assert_eq!(rt; out.bytes(), REPORT.as_bytes());
}

#[test]
fn devices_that_never_fail_take_a_whole_report(rt: HostRuntime) {
    let alloc = rt.alloc();
    let words = words_of(&rt, alloc, "run a b");
    let first = bytes_of(&rt, alloc, SUM.as_bytes());
    let second = bytes_of(&rt, alloc, TURNS.as_bytes());
    let mut inputs = CleanInputs::new(alloc, first, second);
    let mut out = CleanSink::new(alloc, 7, 40).expect(&rt, "no memory for a sink");
    let answer = haft(alloc, &words, &mut inputs, &mut out);
    assert!(rt; answer == Status::Done);
}
