//! Reads and writes that fail, each in turn.
use crate::texts::{REPORT, SUM, TURNS, UNKNOWN_OPERATION, run_on};
use haft_cli::Status;

#[test]
fn a_read_that_fails_ends_the_call_with_nothing_written(rt: HostRuntime) {
    for (read, status, text) in [
        (1, Status::ReadFault, ""),
        (2, Status::ReadFault, ""),
        (3, Status::ReadFault, ""),
        (4, Status::ReadFault, ""),
        (5, Status::Done, REPORT),
    ] {
        let (answer, written) = run_on(&rt, rt.alloc(), SUM.as_bytes(), TURNS.as_bytes(), read, 0);
        assert!(rt; answer == status, "where read {read} fails");
        assert_eq!(rt;
            written.as_slice(),
            text.as_bytes(),
            "where read {read} fails"
        );
    }
}

#[test]
fn a_write_that_fails_ends_the_call_with_a_front_written(rt: HostRuntime) {
    let (sum, turns, report) = (SUM.as_bytes(), TURNS.as_bytes(), REPORT.as_bytes());
    for write in 1..15 {
        let (answer, written) = run_on(&rt, rt.alloc(), sum, turns, 0, write);
        assert!(rt; answer == Status::WriteFault, "where write {write} fails");
        assert_eq!(rt;
            written.len(),
            3 * (write as usize - 1),
            "where write {write} fails"
        );
        assert!(rt; report.starts_with(&written), "where write {write} fails");
    }
    let (answer, written) = run_on(&rt, rt.alloc(), sum, turns, 0, 15);
    assert!(rt; answer == Status::Done && written.as_slice() == report);
}

#[test]
fn a_refusal_that_cannot_be_written_is_a_fault(rt: HostRuntime) {
    let (first, second) = (UNKNOWN_OPERATION.as_bytes(), TURNS.as_bytes());
    let (answer, written) = run_on(&rt, rt.alloc(), first, second, 0, 1);
    assert!(rt; answer == Status::WriteFault && written.is_empty());
}
