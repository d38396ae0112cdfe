//! Memory under transactions.
use ir_core::{Module, Tid};
use ir_layout::layout;
use mem_image::{Image, Size};
use rtm_core::{Aborted, Got, Rtm};
use std::alloc::Global;
use std::process::Abort;

/// The first address of the heap.
const HEAP: u64 = 0x400_0000;

/// Memory that is all zeroes, with no transaction.
fn zeroes(rt: &impl Abort, alloc: Global) -> Rtm<u32> {
    let module = Module::new(alloc);
    let Ok(places) = layout(alloc, &module) else {
        panic!(rt; "no layout");
    };
    let image = Image::new(alloc, &module, &places).expect(rt, "no memory for an image");
    Rtm::new(alloc, image).expect(rt, "no memory for transactions")
}

/// Begins a transaction of a thread that keeps a number, and writes a word of 8 bytes.
fn begin_and_write(
    rt: &impl Abort,
    rtm: &mut Rtm<u32>,
    t: Tid,
    addr: u64,
    out: &mut Vec<Aborted<u32>>,
) {
    assert!(rt; t.0 < 64);
    assert!(rt; !rtm.xtest(t));
    rtm.xbegin(t, 7);
    let wrote = rtm.write(t, addr, Size::S8, 1, out).expect(rt, "no memory");
    assert!(rt; wrote == Got::Value(1));
}

#[test]
fn a_read_aborts_a_transaction_that_wrote_its_line(rt: HostRuntime) {
    let mut rtm = zeroes(&rt, rt.alloc());
    let mut out = Vec::new(rt.alloc());
    begin_and_write(&rt, &mut rtm, Tid(0), HEAP, &mut out);
    assert!(rt; rtm.peek(Tid(0), HEAP, Size::S8) == Some(1));
    assert!(rt; rtm.peek(Tid(1), HEAP, Size::S8) == Some(0));
    let read = rtm
        .read(Tid(1), HEAP + 8, Size::S8, &mut out)
        .expect(&rt, "no memory");
    assert!(rt; read == Got::Value(0));
    assert!(rt; out.len() == 1);
    assert!(rt; out[0].tid == Tid(0) && out[0].status == 6 && out[0].keep == 7);
    assert!(rt; !rtm.xtest(Tid(0)));
    assert!(rt; rtm.peek(Tid(0), HEAP, Size::S8) == Some(0));
}

#[test]
fn what_a_transaction_wrote_is_memory_once_it_ended(rt: HostRuntime) {
    let mut rtm = zeroes(&rt, rt.alloc());
    let mut out = Vec::new(rt.alloc());
    begin_and_write(&rt, &mut rtm, Tid(0), HEAP, &mut out);
    assert!(rt; rtm.xtest(Tid(0)));
    assert!(rt; rtm.xend(Tid(0)) == 7);
    assert!(rt; rtm.peek(Tid(0), HEAP, Size::S8) == Some(1));
    assert!(rt; rtm.peek(Tid(1), HEAP, Size::S8) == Some(1));
    let read = rtm
        .read(Tid(1), HEAP + 8, Size::S8, &mut out)
        .expect(&rt, "no memory");
    assert!(rt; read == Got::Value(0));
    assert!(rt; out.is_empty());
    let old = rtm
        .update(Tid(1), HEAP, Size::S4, Some(5), &mut out)
        .expect(&rt, "no memory");
    assert!(rt; old == Got::Value(1));
    assert!(rt; rtm.peek(Tid(0), HEAP, Size::S8) == Some(5));
}

#[test]
fn an_access_that_is_not_done_changes_nothing(rt: HostRuntime) {
    let mut rtm = zeroes(&rt, rt.alloc());
    let mut out = Vec::new(rt.alloc());
    begin_and_write(&rt, &mut rtm, Tid(1), HEAP + 64 * 512, &mut out);
    begin_and_write(&rt, &mut rtm, Tid(0), HEAP, &mut out);
    for line in 1..512 {
        let wrote = rtm
            .write(Tid(0), HEAP + 64 * line, Size::S1, 9, &mut out)
            .expect(&rt, "no memory");
        assert!(rt; wrote == Got::Value(9));
    }
    let full = rtm
        .write(Tid(0), HEAP + 64 * 512, Size::S8, 1, &mut out)
        .expect(&rt, "no memory");
    assert!(rt; full == Got::Overflow);
    let nowhere = rtm
        .read(Tid(0), 0, Size::S8, &mut out)
        .expect(&rt, "no memory");
    assert!(rt; nowhere == Got::Trap);
    assert!(rt; out.is_empty() && rtm.xtest(Tid(0)) && rtm.xtest(Tid(1)));
    let aborted = rtm.xabort(Tid(0), 2);
    assert!(rt; aborted.tid == Tid(0) && aborted.status == 2 && aborted.keep == 7);
    assert!(rt; rtm.peek(Tid(0), HEAP, Size::S8) == Some(0));
}
