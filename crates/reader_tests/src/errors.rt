//! The texts of errors.
use ir_lex::LexError;
use ir_parse_parts::LineError;
use sched_file::SchedError;
use std::alloc::Global;
use std::fmt::Display;
use std::process::Abort;

/// Whether an error's text is this one.
fn assert_text(rt: &impl Abort, alloc: Global, error: &impl Display, want: &str) {
    let text = format!(in alloc; "{error}").expect(rt, "no memory for a text");
    assert!(rt; text.as_str() == want, "{text}");
}

#[test]
fn errors_of_lines_and_schedules_say_what_is_wrong(rt: HostRuntime) {
    let alloc = rt.alloc();
    assert_text(&rt, alloc, &LexError::BadByte(7), "bad byte at column 7");
    assert_text(&rt, alloc, &LexError::NoMemory, "no memory");
    assert_text(&rt, alloc, &LineError::Unfit(3), "unfit token 3");
    assert_text(&rt, alloc, &LineError::NoMemory, "no memory");
    let refused = SchedError::Refused { line: 12 };
    assert_text(&rt, alloc, &refused, "unfit line 12");
    assert_text(&rt, alloc, &SchedError::NoMemory, "no memory");
}
