//! Runs of modules of one block. Expected words are worked out from the LLVM
//! Language Reference, expected turns from the images: two that begin a transaction; two for each operator, comparison, selection and
//! cast; before what leaves the block, and calls, a tick and a check for each register that it gets; and around a call the end of a
//! transaction and the begin of another.
use crate::runs::report_on;
use crate::texts::SUM;
use std::alloc::Global;
use std::process::Abort;

/// The lines of a block, a schedule, and the report.
const RUNS: &[(&str, &str, &str)] = &[
    // The hardened operator has no flags, and so the sum wraps.
    (
        "%a = add nsw i8 127, 1\n%b = sext i8 %a to i64\ncall void @haft_out(i64 %b)\nret i32 0",
        "turn 0 40",
        "out 18446744073709551488\naborts 0 0 0 0\nstop end 0\nsrc 0*5\n",
    ),
    (
        "%a = udiv exact i64 7, 2\ncall void @haft_out(i64 %a)\nret i32 0",
        "turn 0 40",
        "out 3\naborts 0 0 0 0\nstop end 0\nsrc 0*4\n",
    ),
    // Undefined divisions, and a shift by the width: three transactions abort, and outside of them the run stops.
    (
        "%a = udiv i64 1, 0\nret i32 0",
        "turn 0 9",
        "aborts 0 0 0 3\nstop trap 0 main/0/2\nsrc\n",
    ),
    (
        "%a = add i64 1, 2\ncall void @haft_out(i64 %a)\n%b = sdiv i32 -2147483648, -1\nret i32 %b",
        "turn 0 40",
        "out 3\naborts 0 0 0 3\nstop trap 0 main/0/9\nsrc 0*2\n",
    ),
    (
        "%a = srem i1 1, 1\nret i32 0",
        "turn 0 1\nabort 0\nturn 0 8",
        "aborts 0 0 0 3\nstop trap 0 main/0/2\nsrc\n",
    ),
    (
        "%a = shl i16 1, 16\nret i32 0",
        "turn 0 9",
        "aborts 0 0 0 3\nstop trap 0 main/0/2\nsrc\n",
    ),
    // A quotient is rounded toward zero, and a shift to the right keeps the sign.
    (
        "%a = sdiv i8 -7, 2\n%b = sext i8 %a to i64\ncall void @haft_out(i64 %b)\nret i32 0",
        "turn 0 40",
        "out 18446744073709551613\naborts 0 0 0 0\nstop end 0\nsrc 0*5\n",
    ),
    (
        "%a = ashr i8 -8, 1\n%b = sext i8 %a to i64\ncall void @haft_out(i64 %b)\nret i32 0",
        "turn 0 40",
        "out 18446744073709551612\naborts 0 0 0 0\nstop end 0\nsrc 0*5\n",
    ),
    (
        "%a = srem i8 -7, 2\n%b = zext i8 %a to i64\ncall void @haft_out(i64 %b)\nret i32 0",
        "turn 0 40",
        "out 255\naborts 0 0 0 0\nstop end 0\nsrc 0*5\n",
    ),
    // Comparisons choose: -1 is below 0 as a signed word, and the greatest word otherwise.
    (
        "%s = icmp slt i8 -1, 0\n%u = icmp ult i8 -1, 0\n%a = select i1 %s, i64 7, i64 9\n%b = select i1 %u, i64 7, i64 9\ncall void @haft_out(i64 %a)\ncall void @haft_out(i64 %b)\nret i32 0",
        "turn 0 40",
        "out 7\nout 9\naborts 0 0 0 0\nstop end 0\nsrc 0*8\n",
    ),
    // Casts between widths, and a register that is returned: cut, begin, master, shadow, a tick, a check, `ret`, the exit.
    (
        "%a = trunc i64 511 to i8\n%b = zext i8 %a to i64\n%c = sext i8 %a to i64\ncall void @haft_out(i64 %b)\ncall void @haft_out(i64 %c)\nret i32 0",
        "turn 0 40",
        "out 255\nout 18446744073709551615\naborts 0 0 0 0\nstop end 0\nsrc 0*7\n",
    ),
    (
        "%r = mul i32 65536, 65537\nret i32 %r",
        "turn 0 8",
        "aborts 0 0 0 0\nstop end 65536\nsrc 0*3\n",
    ),
    (
        "%r = mul i32 65536, 65537\nret i32 %r",
        "turn 0 7",
        "aborts 0 0 0 0\nstop bound\nsrc\n",
    ),
    (
        "%r = mul i32 65536, 65537\nret i32 %r",
        "turn 0 1",
        "aborts 0 0 0 0\nstop bound\nsrc\n",
    ),
    // Pointers: compared, made of a number and taken as one, and three steps of eight bytes behind null.
    (
        "%a = icmp eq ptr null, null\n%b = zext i1 %a to i64\ncall void @haft_out(i64 %b)\nret i32 0",
        "turn 0 40",
        "out 1\naborts 0 0 0 0\nstop end 0\nsrc 0*5\n",
    ),
    (
        "%p = inttoptr i64 8 to ptr\n%a = ptrtoint ptr %p to i64\ncall void @haft_out(i64 %a)\nret i32 0",
        "turn 0 40",
        "out 8\naborts 0 0 0 0\nstop end 0\nsrc 0*5\n",
    ),
    (
        "%p = getelementptr i64, ptr null, i64 3\n%a = ptrtoint ptr %p to i64\ncall void @haft_out(i64 %a)\nret i32 0",
        "turn 0 40",
        "out 24\naborts 0 0 0 0\nstop end 0\nsrc 0*5\n",
    ),
    // `cut`, `begin`; `alloca`, `mov`; store, and its late check; load, load; `tick`, check, `end`, call, `begin`; `tick`, `ret`; the exit:
    // the eighteenth turn ends the program.
    (
        "%p = alloca i64\nstore i64 7, ptr %p\n%v = load i64, ptr %p\ncall void @haft_out(i64 %v)\nret i32 0",
        "turn 0 18",
        "out 7\naborts 0 0 0 0\nstop end 0\nsrc 0*6\n",
    ),
    (
        "%p = alloca i64\nstore i64 7, ptr %p\n%v = load i64, ptr %p\ncall void @haft_out(i64 %v)\nret i32 0",
        "turn 0 17",
        "out 7\naborts 0 0 0 0\nstop bound\nsrc 0*4\n",
    ),
    (
        "fence seq_cst\nret i32 0",
        "turn 0 6",
        "aborts 0 0 0 0\nstop end 0\nsrc 0*3\n",
    ),
    // What is undefined outside a transaction stops the run at its place.
    (
        "%v = load i64, ptr null\nret i32 0",
        "turn 0 9",
        "aborts 0 0 0 3\nstop trap 0 main/0/2\nsrc\n",
    ),
    (
        "unreachable",
        "turn 0 13",
        "aborts 0 0 0 3\nstop trap 0 main/0/3\nsrc\n",
    ),
];

/// Schedules for the sum, and what it comes to.
const SCHEDULES: &[(&str, &str)] = &[
    ("", "aborts 0 0 0 0\nstop bound\nsrc\n"),
    ("# nothing\n\n", "aborts 0 0 0 0\nstop bound\nsrc\n"),
    ("turn 0 11", "out 5\naborts 0 0 0 0\nstop bound\nsrc 0*2\n"),
    ("turn 0 40", "out 5\naborts 0 0 0 0\nstop end 0\nsrc 0*4\n"),
    (
        "turn 3 5\nturn 0 40",
        "out 5\naborts 0 0 0 0\nstop end 0\nsrc 0*4\n",
    ),
    (
        "turn 0 2\nabort 0\nabort 63\nturn 0 40",
        "out 5\naborts 0 0 0 1\nstop end 0\nsrc 0*4\n",
    ),
    (
        "args 3 9\nround 3 40",
        "out 5\naborts 0 0 0 0\nstop end 0\nsrc 0*4\n",
    ),
    ("round 3 11", "out 5\naborts 0 0 0 0\nstop bound\nsrc 0*2\n"),
    ("mix 3 0 1", "aborts 0 0 0 0\nstop bound\nsrc\n"),
    ("mix 1 0 12", "out 5\naborts 0 0 0 0\nstop end 0\nsrc 0*4\n"),
    ("turn 63 4194304", "aborts 0 0 0 0\nstop bound\nsrc\n"),
];

/// The text of a module of these lines, which may give numbers out.
fn main_of(rt: &impl Abort, alloc: Global, lines: &str) -> String {
    let text = format!(in alloc;
        "declare void @haft_out(i64)\ndefine i32 @main() {{\n{lines}\n}}\n"
    );
    text.expect(rt, "no memory for a text")
}

#[test]
fn operators_run_hardened(rt: HostRuntime) {
    let alloc = rt.alloc();
    for (lines, schedule, want) in RUNS {
        let text = main_of(&rt, alloc, lines);
        let found = report_on(&rt, alloc, &text, schedule);
        assert!(rt;
            found.as_slice() == want.as_bytes(),
            "of {lines:?} over {schedule:?}"
        );
    }
}

#[test]
fn runs_go_by_the_events_of_schedules(rt: HostRuntime) {
    let alloc = rt.alloc();
    for (schedule, want) in SCHEDULES {
        let found = report_on(&rt, alloc, SUM, schedule);
        assert!(rt; found.as_slice() == want.as_bytes(), "over {schedule:?}");
    }
}
