//! Tables of texts, with answers worked out by hand. In a table each case is a line `== NAME`, the lines of its text, and a
//! line `-- WANTED`, where what is wanted may go on over lines.
use crate::flows::edges_of;
use crate::hardened::{Columns, hardened_lines};
use std::alloc::Global;
use std::process::Abort;

/// What is asked of a text.
#[derive(Clone, Copy)]
pub enum Asked {
    /// The edges and the loop heads of its first function.
    Edges,
    /// The hardened module by these columns.
    Hardened(Columns),
}

/// The answer for a text.
fn answer(rt: &impl Abort, alloc: Global, text: &str, asked: Asked) -> String {
    match asked {
        Asked::Edges => edges_of(rt, alloc, text),
        Asked::Hardened(columns) => hardened_lines(rt, alloc, text, columns),
    }
}

/// The name of a case, its text, and what is wanted of it.
fn parts<'a>(rt: &impl Abort, case: &'a str) -> (&'a str, &'a str, &'a str) {
    let (name, rest) = case.split_once('\n').expect(rt, "no name");
    let (text, wanted) = rest.split_once("\n-- ").expect(rt, "nothing wanted");
    (name, text, wanted.trim_end())
}

/// Compares the answer for each case of a table with what is wanted.
pub fn compare(rt: &impl Abort, alloc: Global, table: &str, asked: Asked) {
    for case in table.split("\n== ").skip(1) {
        let (name, text, wanted) = parts(rt, case);
        let found = answer(rt, alloc, text, asked);
        assert!(rt; found.as_str().trim_end() == wanted, "{name}: {found}");
    }
}
