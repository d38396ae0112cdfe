//! Control flow: edges, loop heads, and what is assigned on every path. Faults of flow are in `tests/check/flow.txt`.
use crate::cases::{Asked, compare};
use crate::parsed::module_of;
use ir_core::Func;
use ir_flow::{Edges, assigned_at, edges, loop_heads};
use std::alloc::{AllocError, Global};
use std::process::Abort;

/// The first function of a module.
fn first<'a>(rt: &impl Abort, funcs: &'a [Func]) -> &'a Func {
    match funcs {
        [f, ..] => f,
        [] => rt.abort(),
    }
}

/// The edges, and the numbers of the blocks that are loop heads.
fn edges_text(alloc: Global, e: &Edges) -> Result<String, AllocError> {
    let mut text = String::new(alloc);
    for (from, to) in e.pairs() {
        let edge = format!(in alloc; "{from}-{to} ")?;
        text.push_str(edge.as_str())?;
    }
    text.push_str("heads")?;
    let heads = loop_heads(alloc, e)?;
    for (block, is_head) in heads.as_slice().iter().enumerate() {
        if *is_head {
            let head = format!(in alloc; " {block}")?;
            text.push_str(head.as_str())?;
        }
    }
    Ok(text)
}

/// The edges and the loop heads of a text's first function.
pub fn edges_of(rt: &impl Abort, alloc: Global, text: &str) -> String {
    let m = module_of(rt, alloc, text);
    let e = edges(alloc, first(rt, m.funcs())).expect(rt, "no memory for edges");
    drop(m);
    edges_text(alloc, &e).expect(rt, "no memory for a text")
}

/// Functions, and their edges and loop heads.
const EDGES: &str = "
== one block has no edge
define void @f() {
  ret void
}
-- heads
== a loop of three blocks
define void @f(i1 %c) {
  br label %a
a:
  br i1 %c, label %b, label %d
b:
  br label %a
d:
  ret void
}
-- 0-1 1-2 1-3 2-1 heads 1
== a diamond has no loop
define void @f(i1 %c) {
  br i1 %c, label %a, label %b
a:
  br label %d
b:
  br label %d
d:
  ret void
}
-- 0-1 0-2 1-3 2-3 heads
== a block leads to itself
define void @f(i1 %c) {
  br label %a
a:
  br i1 %c, label %a, label %b
b:
  unreachable
}
-- 0-1 1-1 1-2 heads 1
== edges stand in the order of labels as they are written
define void @f(i1 %c) {
  br i1 %c, label %b, label %a
a:
  unreachable
b:
  unreachable
}
-- 0-2 0-1 heads
== a switch's default comes first, and its cases in order
define void @f(i8 %c) {
  switch i8 %c, label %b [ i8 1, label %a  i8 2, label %b  i8 3, label %a ]
a:
  unreachable
b:
  unreachable
}
-- 0-2 0-1 0-2 0-1 heads
== a block that no path reaches has edges, and makes a loop head
define void @f() {
  br label %b
a:
  br label %a
b:
  br label %d
d:
  ret void
e:
  br label %b
}
-- 0-2 1-1 2-3 4-2 heads 1 2
== two loops, one in the other
define void @f(i1 %c) {
  br label %a
a:
  br label %b
b:
  br i1 %c, label %b, label %d
d:
  br i1 %c, label %a, label %e
e:
  ret void
}
-- 0-1 1-2 2-2 2-3 3-1 3-4 heads 1 2
";

#[test]
fn functions_have_these_edges_and_loop_heads(rt: HostRuntime) {
    compare(&rt, rt.alloc(), EDGES, Asked::Edges);
}

/// A name, the register of which it is asked whether it is assigned, and the place, a block and an instruction.
const PLACES: &[(&str, &str, u32, u32, bool)] = &[
    ("a parameter at the entry", "c", 0, 0, true),
    ("at its own place", "e", 0, 0, false),
    ("behind its place", "e", 0, 1, true),
    ("the entry's, later", "e", 5, 0, true),
    ("one side's, at its place", "r", 1, 0, false),
    ("one side's, inside it", "r", 1, 1, true),
    ("one side's, on the other", "r", 2, 0, false),
    ("one side's, behind both", "r", 3, 0, false),
    ("the join's phi at its place", "p", 3, 0, false),
    ("the join's phi behind its place", "p", 3, 1, true),
    ("the join's phi in the loop behind it", "p", 4, 0, true),
    ("the loop's, at a turn's start", "i", 4, 0, false),
    ("the loop's, behind its place", "i", 4, 1, true),
    ("the loop's, behind the loop", "i", 5, 0, true),
    ("one side's, behind the loop", "r", 5, 0, false),
    ("the last block's, in the entry", "z", 0, 0, false),
    ("another's, where no path leads", "z", 6, 0, true),
    ("its own, where no path leads", "u", 6, 0, true),
    ("its own, behind such a block", "u", 5, 0, false),
];

/// A diamond whose one side assigns `%r`, then a loop of one block, and a block that no path reaches.
const PATHS: &str = "define i32 @f(i1 %c) {
  %e = add i32 1, 1
  br i1 %c, label %a, label %b
a:
  %r = add i32 1, 1
  br label %d
b:
  br label %d
d:
  %p = phi i32 [ %r, %a ], [ 0, %b ]
  br label %l
l:
  %i = add i32 %p, 1
  br i1 %c, label %l, label %o
o:
  %z = add i32 %i, 1
  ret i32 %z
n:
  %u = add i32 %z, 1
  br label %o
}
";

/// Whether every path to a place of a function assigns the register with this name.
fn assigned(rt: &impl Abort, alloc: Global, f: &Func, name: &str, block: u32, inst: u32) -> bool {
    let reg = f.find_loc(name.as_bytes()).expect(rt, "no such name");
    assert!(rt; (block as usize) < f.blocks().len());
    let e = edges(alloc, f).expect(rt, "no memory for edges");
    assigned_at(alloc, f, &e, block, inst, reg).expect(rt, "no memory for a search")
}

#[test]
fn registers_are_assigned_on_every_path_or_not(rt: HostRuntime) {
    let m = module_of(&rt, rt.alloc(), PATHS);
    let f = first(&rt, m.funcs());
    for (name, reg, block, inst, wanted) in PLACES {
        let found = assigned(&rt, rt.alloc(), f, reg, *block, *inst);
        assert!(rt; found == *wanted, "{name}");
    }
    drop(m);
}
