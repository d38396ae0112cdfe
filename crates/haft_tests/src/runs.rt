//! Runs of whole texts.
ghost use Rattle.ir_parse_top.specs.Text.{IsOfText};

use haft_run::{RunResult, harden, report, run, run_hardened};
use ir_check::{Accepted, accept};
use ir_core::Module;
use ir_parse_top::parse_module;
use sched_file::parse_schedule;
use std::alloc::Global;
use std::process::Abort;

/// The module of a text that has one.
pub fn module_of(rt: &impl Abort, alloc: Global, text: &str) -> Module
    ensures { IsOfText result }
{
    let bytes = text.as_bytes();
    assert!(rt; bytes.len() <= 4_194_304);
    match parse_module(alloc, bytes) {
        Ok(m) => m,
        Err(error) => {
            drop(error);
            panic!(rt; "a text has no module")
        }
    }
}

/// The accepted module of a text that has one.
fn accepted_of(rt: &impl Abort, alloc: Global, text: &str) -> Accepted {
    match accept(alloc, module_of(rt, alloc, text)) {
        Ok(accepted) => accepted,
        Err(error) => {
            drop(error);
            panic!(rt; "a module is not accepted")
        }
    }
}

/// What a module comes to over a schedule.
fn result_of(rt: &impl Abort, alloc: Global, a: &Accepted, schedule: &str) -> RunResult {
    assert!(rt; schedule.len() <= 4_194_304);
    let schedule = parse_schedule(alloc, schedule.as_bytes()).expect(rt, "a schedule is unfit");
    run(alloc, a, &schedule).expect(rt, "no memory to run")
}

/// What the hardened module comes to.
fn hardened_result_of(rt: &impl Abort, alloc: Global, a: &Accepted, schedule: &str) -> RunResult {
    assert!(rt; schedule.len() <= 4_194_304);
    let schedule = parse_schedule(alloc, schedule.as_bytes()).expect(rt, "a schedule is unfit");
    let h = harden(alloc, a).expect(rt, "no memory to harden");
    let result = run_hardened(alloc, &h, &schedule).expect(rt, "no memory to run");
    drop(h);
    result
}

/// What the accepted module of a text comes to over a schedule.
pub fn result_on(rt: &impl Abort, alloc: Global, text: &str, schedule: &str) -> RunResult {
    let a = accepted_of(rt, alloc, text);
    let result = result_of(rt, alloc, &a, schedule);
    drop(a);
    result
}

/// What its hardened module comes to.
pub fn hardened_result_on(rt: &impl Abort, alloc: Global, text: &str, schedule: &str) -> RunResult {
    let a = accepted_of(rt, alloc, text);
    let result = hardened_result_of(rt, alloc, &a, schedule);
    drop(a);
    result
}

/// The report of a run of the accepted module.
pub fn report_on(rt: &impl Abort, alloc: Global, text: &str, schedule: &str) -> Vec<u8> {
    let result = result_on(rt, alloc, text, schedule);
    report(alloc, &result).expect(rt, "no memory for a report")
}
