//! Modules of texts, with the numbers of their names.
use crate::parsed::module_of;
use ir_core::{Func, Module};
use std::process::Abort;

/// Whether the `@` name has the number.
fn has_sym(rt: &impl Abort, m: &Module, name: &str, number: u32) -> bool {
    let sym = m.find_sym(name.as_bytes()).expect(rt, "no such name");
    sym.0 == number
}

/// Whether the name of a type has the number.
fn has_type(rt: &impl Abort, m: &Module, name: &str, number: u32) -> bool {
    let id = m.find_type(name.as_bytes()).expect(rt, "no such type");
    id.0 == number
}

/// Whether the `%` name has the number.
fn has_loc(rt: &impl Abort, f: &Func, name: &str, number: u32) -> bool {
    let at = f.find_loc(name.as_bytes()).expect(rt, "no such name");
    at.0 == number
}

/// Functions, and the `%` names that they have, in the order of their numbers.
const NAMES: &[(&str, &str)] = &[
    // Parameters without a name take the number of those before them whose names are digits, and so does an entry
    // block without a label.
    ("define void @f(i8 %a, i8, i8 %0, i8) {\n}\n", "a 0 2 3"),
    ("define void @f(i8, i8 %7, i8) {\n}\n", "0 7 2 3"),
    ("define void @f(i8 %a) {\n}\n", "a 0"),
    ("define void @f(i8 %a) {\nb:\n}\n", "a b"),
    // Definitions are numbered before uses, and these in the order in which they are written.
    (
        "define void @f() {\n  br label %b\nb:\n  %x = add i8 %y, %z\n  store i8 %q, ptr %x\n}\n",
        "0 b x y z q",
    ),
    (
        "define void @f() {\na:\n  %2 = add i8 %1, %3\n  %1 = add i8 %2, %2\n}\n",
        "a 2 1 3",
    ),
];

#[test]
fn names_of_functions_are_numbered_by_definition_and_then_by_sight(rt: HostRuntime) {
    for (text, names) in NAMES {
        let m = module_of(&rt, rt.alloc(), text);
        match m.funcs() {
            [f] => {
                let mut number: u32 = 0;
                for name in names.split_whitespace() {
                    assert!(rt; has_loc(&rt, f, name, number), "{name} in {text:?}");
                    number = number.saturating_add(1);
                }
                assert!(rt; f.loc_count() == number, "{text:?}");
            }
            _ => rt.abort(),
        }
        drop(m);
    }
}

#[test]
fn names_of_modules_are_numbered_by_types_globals_declares_and_functions(rt: HostRuntime) {
    let text =
        "define ptr @f(%U %x) {\n  ret ptr @late\n}\n@g = global ptr @h\ndeclare void @free(ptr)\n%T = type { %V }\n";
    let m = module_of(&rt, rt.alloc(), text);
    for (name, number) in [("g", 0), ("h", 1), ("free", 2), ("f", 3), ("late", 4)] {
        assert!(rt; has_sym(&rt, &m, name, number), "{name}");
    }
    for (name, number) in [("T", 0), ("V", 1), ("U", 2)] {
        assert!(rt; has_type(&rt, &m, name, number), "{name}");
    }
    drop(m);
}
