//! What an accepted module keeps: the width of each register, and where globals stand.
use crate::parsed::module_of;
use ir_check::{Accepted, accept};
use std::alloc::Global;
use std::process::Abort;

/// The module that is accepted of a text.
fn accepted_of(rt: &impl Abort, alloc: Global, text: &str) -> Accepted {
    match accept(alloc, module_of(rt, alloc, text)) {
        Ok(accepted) => accepted,
        Err(error) => {
            drop(error);
            rt.abort()
        }
    }
}

/// The width of a register of the first function.
fn width(rt: &impl Abort, accepted: &Accepted, name: &str) -> u32 {
    match accepted.module().funcs() {
        [f, ..] => {
            let reg = f.find_loc(name.as_bytes()).expect(rt, "no such name");
            accepted.width(0, reg)
        }
        [] => rt.abort(),
    }
}

/// The address of a global.
fn address(rt: &impl Abort, accepted: &Accepted, name: &str) -> u64 {
    let sym = accepted
        .module()
        .find_sym(name.as_bytes())
        .expect(rt, "no such name");
    accepted.layout().address(sym).expect(rt, "no global")
}

/// A module with registers of each width.
const WIDE: &str = "@a = global i8 0
@b = global i64 0
define i32 @f(i1 %one, i8 %byte, i16 %short, i32 %word, i64 %long, ptr %place) {
  %pair = cmpxchg ptr %place, i8 0, i8 1 seq_cst seq_cst
  %longs = cmpxchg ptr %place, i64 0, i64 1 seq_cst seq_cst
  %old = extractvalue { i8, i1 } %pair, 0
  %done = extractvalue { i8, i1 } %pair, 1
  %less = icmp ult i64 %long, 7
  %cut = trunc i64 %long to i16
  %next = getelementptr i8, ptr %place, i64 1
  ret i32 0
}
define i32 @main() {
  ret i32 0
}
";

/// The registers of its first function, with their widths.
const WIDTHS: &[(&str, u32)] = &[
    ("one", 1),
    ("byte", 8),
    ("short", 16),
    ("word", 32),
    ("long", 64),
    ("place", 64),
    ("pair", 9),
    ("longs", 65),
    ("old", 8),
    ("done", 1),
    ("less", 1),
    ("cut", 16),
    ("next", 64),
];

#[test]
fn an_accepted_module_has_widths_and_addresses(rt: HostRuntime) {
    let accepted = accepted_of(&rt, rt.alloc(), WIDE);
    for (name, wanted) in WIDTHS {
        let found = width(&rt, &accepted, name);
        assert!(rt; found == *wanted, "%{name}: {found}");
    }
    for (name, wanted) in [("a", 65_536), ("b", 65_552)] {
        let found = address(&rt, &accepted, name);
        assert!(rt; found == wanted, "@{name}: {found}");
    }
    drop(accepted);
}
