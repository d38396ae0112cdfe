//! Lines outside functions and lines inside them: what they stand for.
use crate::shown::{address, inner_type, number, symbol, word};
use ir_core::{GlobalVar, Init, Loc, Ty};
use ir_grammar::{BodyLine, TopLine};
use ir_lex::lex_line;
use ir_parse_lines::{read_body_line, read_top_line};
use ir_parse_parts::LineError;
use std::alloc::Global;
use std::process::Abort;

/// Lines outside functions, and what they stand for: names are given by the places where they begin.
const TOP: &[(&str, &str)] = &[
    (
        "%T = type { i8, [2 x ptr], %U }",
        "type %1 = { i8, .., %28 }",
    ),
    ("%0 = type {}", "type %1 = { }"),
    (
        "@g = private unnamed_addr constant i8 -1, align 1, !dbg !7",
        "global @1 = i8 255",
    ),
    ("@q = global ptr null", "global @1 = ptr null"),
    ("@y = global i64 zeroinitializer", "global @1 = i64 zero"),
    (
        "@s = dso_local global [2 x i8] c\"\\00\\\\\"",
        "global @1 = [2 x i8] \\0\\92",
    ),
    (
        "@a = global { i1, ptr } { i1 true, ptr @b }",
        "global @1 = { i1, ptr } [(i1 1)(ptr @40)]",
    ),
    ("@z = global [0 x %T] []", "global @1 = [0 x %18] []"),
    (
        "@p = global ptr getelementptr inbounds (i8, ptr @g, i64 1)",
        "global @1 = ptr getelementptr (i8, ptr @49, i64 1)",
    ),
    (
        "@n = global [2 x [1 x i8]] [[1 x i8] c\"a\", [1 x i8] zeroinitializer]",
        "global @1 = [2 x ..] [([1 x i8] \\97)([1 x i8] zero)]",
    ),
    (
        "declare void @f(i64 noundef, ptr)",
        "declare void @14(i64)(ptr)",
    ),
    (
        "declare dso_local noundef i1 @f() local_unnamed_addr #0 !dbg !7",
        "declare i1 @30",
    ),
    (
        "define internal i64 @f(i64 %x, ptr, i8 noundef %0) #0 {",
        "define i64 @21(i64 %28)(ptr)(i8 %48)",
    ),
    ("define { i8 } @f() {", "define { i8 } @15"),
];

/// Lines inside functions, and what they stand for.
const BODY: &[(&str, &str)] = &[
    ("a:", "label 0"),
    ("  -a.b$:", "label 2"),
    ("}", "end"),
    ("ret void", "instruction"),
    ("%x = alloca i8", "instruction"),
    ("%x = alloca void", "unfit token 3"),
    ("a: ret void", "unfit token 1"),
    ("} }", "unfit token 1"),
    ("define void @f() {", "unfit token 0"),
    ("ret void x", "unfit token 2"),
];

fn flat_init(rt: &impl Abort, out: &mut String, init: &Init) {
    match init {
        Init::Zero => word(rt, out, "zero"),
        Init::Int(value) => number(rt, out, "", *value),
        Init::Null => word(rt, out, "null"),
        Init::Addr(sym) => symbol(rt, out, *sym),
        Init::Gep(gep) => address(rt, out, gep),
        Init::Bytes(bytes) => {
            for byte in bytes.bytes() {
                number(rt, out, "\\", u64::from(*byte));
            }
        }
        Init::Parts(_) => word(rt, out, ".."),
    }
}

fn initialiser(rt: &impl Abort, out: &mut String, init: &Init) {
    match init {
        Init::Parts(parts) => {
            word(rt, out, "[");
            for (ty, part) in parts.items() {
                word(rt, out, "(");
                inner_type(rt, out, ty);
                word(rt, out, " ");
                flat_init(rt, out, part);
                word(rt, out, ")");
            }
            word(rt, out, "]");
        }
        _ => flat_init(rt, out, init),
    }
}

fn global(rt: &impl Abort, out: &mut String, global: &GlobalVar) {
    word(rt, out, "global ");
    symbol(rt, out, global.sym);
    word(rt, out, " = ");
    inner_type(rt, out, &global.ty);
    word(rt, out, " ");
    initialiser(rt, out, &global.init);
}

fn parameter(rt: &impl Abort, out: &mut String, ty: &Ty, name: Option<Loc>) {
    word(rt, out, "(");
    inner_type(rt, out, ty);
    if let Some(name) = name {
        number(rt, out, " %", u64::from(name.0));
    }
    word(rt, out, ")");
}

fn top_line(rt: &impl Abort, out: &mut String, line: &TopLine) {
    match line {
        TopLine::Type(name, ty) => {
            number(rt, out, "type %", u64::from(name.0));
            word(rt, out, " = ");
            inner_type(rt, out, ty);
        }
        TopLine::Global(of) => global(rt, out, of),
        TopLine::Declare(declare) => {
            word(rt, out, "declare ");
            inner_type(rt, out, &declare.ret);
            word(rt, out, " ");
            symbol(rt, out, declare.sym);
            for ty in declare.params.items() {
                parameter(rt, out, ty, None);
            }
        }
        TopLine::Define(head) => {
            word(rt, out, "define ");
            inner_type(rt, out, &head.ret);
            word(rt, out, " ");
            symbol(rt, out, head.sym);
            for (ty, name) in head.params.items() {
                parameter(rt, out, ty, *name);
            }
        }
    }
}

fn error(rt: &impl Abort, out: &mut String, error: LineError) {
    match error {
        LineError::Unfit(place) => number(rt, out, "unfit token ", place as u64),
        LineError::NoMemory => word(rt, out, "no memory"),
    }
}

fn shown_top(rt: &impl Abort, alloc: Global, line: &str) -> String {
    let mut out = String::new(alloc);
    let bytes = line.as_bytes();
    assert!(rt; bytes.len() <= 4_194_304);
    let tokens = lex_line(alloc, bytes).expect(rt, "a line has no tokens");
    match read_top_line(alloc, bytes, &tokens) {
        Ok(line) => {
            top_line(rt, &mut out, &line);
            drop(line);
        }
        Err(stop) => error(rt, &mut out, stop),
    }
    out
}

fn body_line(rt: &impl Abort, out: &mut String, line: &BodyLine) {
    match line {
        BodyLine::Label(at) => number(rt, out, "label ", u64::from(at.0)),
        BodyLine::End => word(rt, out, "end"),
        BodyLine::Inst(_) => word(rt, out, "instruction"),
    }
}

fn shown_body(rt: &impl Abort, alloc: Global, line: &str) -> String {
    let mut out = String::new(alloc);
    let bytes = line.as_bytes();
    assert!(rt; bytes.len() <= 4_194_304);
    let tokens = lex_line(alloc, bytes).expect(rt, "a line has no tokens");
    match read_body_line(alloc, bytes, &tokens) {
        Ok(line) => {
            body_line(rt, &mut out, &line);
            drop(line);
        }
        Err(stop) => error(rt, &mut out, stop),
    }
    out
}

#[test]
fn lines_outside_functions_stand_for_what_they_say(rt: HostRuntime) {
    let alloc = rt.alloc();
    for (line, want) in TOP {
        let found = shown_top(&rt, alloc, line);
        assert!(rt; found.as_str() == *want, "{found} in {line:?}");
    }
}

#[test]
fn lines_inside_functions_are_labels_ends_and_instructions(rt: HostRuntime) {
    let alloc = rt.alloc();
    for (line, want) in BODY {
        let found = shown_body(&rt, alloc, line);
        assert!(rt; found.as_str() == *want, "{found} in {line:?}");
    }
}
