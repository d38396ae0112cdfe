//! The calls below the top one, each by itself.
use crate::runs::{hardened_result_on, module_of, result_on};
use crate::texts::{REPORT, SUM, TURNS, inputs_of, sink_of};
use haft_io::{Failed, ReadFail, Which, read_whole, write_whole};
use haft_run::{Aborts, RunResult, Stop, report};
use ir_core::{Module, Out, Sym, Tid};
use std::process::Abort;

#[test]
fn whole_files_are_read_up_to_the_limit(rt: HostRuntime) {
    for (limit, failing, want) in [
        (4, 9, Ok(())),
        (5, 9, Ok(())),
        (3, 9, Err(ReadFail::TooLong)),
        (0, 9, Err(ReadFail::TooLong)),
        (4, 1, Err(ReadFail::Failed)),
        (4, 2, Err(ReadFail::Failed)),
    ] {
        let mut inputs = inputs_of(&rt, rt.alloc(), b"text", b"other", failing);
        let first = read_whole(rt.alloc(), &mut inputs, Which::First, limit);
        let first = first.map(|bytes| assert!(rt; bytes.as_slice() == b"text".as_slice()));
        assert_eq!(rt; first, want, "at limit {limit}, where read {failing} fails");
        let second = read_whole(rt.alloc(), &mut inputs, Which::Second, 5);
        let second = second.expect(&rt, "the other file was not read");
        assert!(rt; second.as_slice() == b"other".as_slice());
    }
}

#[test]
fn whole_texts_are_written(rt: HostRuntime) {
    let mut out = sink_of(&rt, rt.alloc(), 4);
    assert!(rt; write_whole(&mut out, b"a text") == Ok(()));
    assert!(rt; write_whole(&mut out, b"") == Ok(()));
    assert!(rt; write_whole(&mut out, b", more") == Err(Failed));
    assert_eq!(rt; out.bytes(), b"a text, m".as_slice());
}

/// The sum is a declare and a function, and has two names.
fn check_sum(rt: &impl Abort, m: &Module) {
    assert!(rt; m.declares().len() == 1);
    assert!(rt; m.funcs().len() == 1);
    assert!(rt; m.sym_count() == 2);
    assert!(rt; m.find_sym(b"main") == Some(Sym(1)));
}

/// What the sum comes to.
fn check_run(rt: &impl Abort, sum: &RunResult) {
    assert!(rt; sum.outs.items() == [Out::Num(5)].as_slice());
    assert!(rt; sum.turns.items() == [(Tid(0), 4)].as_slice());
    let Stop::End(code) = &sum.stop else {
        panic!(rt; "the sum did not end");
    };
    assert!(rt; *code == 0);
    let none = Aborts {
        explicit: 0,
        conflict: 0,
        overflow: 0,
        other: 0,
    };
    assert!(rt; sum.aborts == none);
}

#[test]
fn a_text_is_read_run_and_reported(rt: HostRuntime) {
    let m = module_of(&rt, rt.alloc(), SUM);
    check_sum(&rt, &m);
    drop(m);
    let result = result_on(&rt, rt.alloc(), SUM, TURNS);
    check_run(&rt, &result);
    check_run(&rt, &hardened_result_on(&rt, rt.alloc(), SUM, TURNS));
    let text = report(rt.alloc(), &result).expect(&rt, "no memory for a report");
    assert!(rt; text.as_slice() == REPORT.as_bytes());
}
