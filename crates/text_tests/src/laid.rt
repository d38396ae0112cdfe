//! Where modules lie in memory, by the calls that no program makes. Sizes, addresses, offsets and accesses are in
//! `tests/programs/layout.txt`, limits in `tests/check/limits.txt`.
use crate::parsed::module_of;
use ir_layout::{layout, types_known};
use std::alloc::Global;
use std::process::Abort;

/// Whether the names of types in a text are known.
fn are_known(rt: &impl Abort, alloc: Global, text: &str) -> bool {
    let m = module_of(rt, alloc, text);
    let known = types_known(&m);
    drop(m);
    known
}

#[test]
fn names_of_types_are_known_or_not(rt: HostRuntime) {
    let alloc = rt.alloc();
    for (text, wanted) in [
        (
            "@g = global %T zeroinitializer\n%S = type { %T }\n%T = type { i8 }\n",
            true,
        ),
        ("%T = type { i8 }\n%T = type { i8 }\n", false),
        (
            "define void @f() {\n  store i8 0, ptr getelementptr (%T, ptr @g, i64 0)\n  ret void\n}\n",
            false,
        ),
    ] {
        assert!(rt; are_known(&rt, alloc, text) == wanted, "{text}");
    }
}

/// Addresses and sizes, and whether there is a valid access. The one global has 24 bytes.
const ACCESSES: &[(u64, u64, bool)] = &[
    (65_536, 8, true),
    (65_552, 8, true),
    (65_553, 3, false),
    (65_560, 1, false),
    (65_536, 0, false),
    (65_536, 16, false),
    (16_793_599, 1, true),
    (68_157_440, 1, false),
];

#[test]
fn accesses_are_valid_in_one_global_one_stack_or_the_heap(rt: HostRuntime) {
    let m = module_of(&rt, rt.alloc(), "@a = global [24 x i8] zeroinitializer\n");
    let Ok(layout) = layout(rt.alloc(), &m) else {
        panic!(rt; "no layout");
    };
    drop(m);
    for (address, size, wanted) in ACCESSES {
        assert!(rt;
            layout.valid(*address, *size) == *wanted,
            "{size} at {address}"
        );
    }
    drop(layout);
}
