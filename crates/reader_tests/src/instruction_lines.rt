//! Instruction lines: what they stand for. At which tokens lines are refused is in `tests/lines.txt`.
use crate::shown::shown;
use ir_core::{Func, Inst, Module, Sym, Ty};
use ir_lex::lex_line;
use ir_parse_body::parse_inst;
use std::alloc::Global;
use std::process::Abort;

/// Lines that calculate, with no optional part and with all of them, and the instructions that they stand for.
const CALCULATIONS: &[(&str, &str)] = &[
    ("%x = add i64 %a, %b", "%0 = add i64 %1, %2"),
    (
        "%x = add nsw nuw nsw i64 %a, -3, !dbg !7, !x !0",
        "%0 = add nuw nsw i64 %1, 18446744073709551613",
    ),
    ("%0=sub nuw i8 1,2", "%0 = sub nuw i8 1, 2"),
    ("%x = mul nsw i16 %x, %x", "%0 = mul nsw i16 %0, %0"),
    (
        "%x = udiv exact exact i32 %a, 7",
        "%0 = udiv exact i32 %1, 7",
    ),
    ("%x = sdiv exact i1 true, false", "%0 = sdiv exact i1 1, 0"),
    ("%x = urem i64 %a, %a", "%0 = urem i64 %1, %1"),
    ("%x = srem i64 5, %a", "%0 = srem i64 5, %1"),
    ("%x = shl nsw nuw i64 1, %a", "%0 = shl nuw nsw i64 1, %1"),
    ("%x = lshr exact i64 %a, 007", "%0 = lshr exact i64 %1, 7"),
    ("%x = ashr i64 %a, -0", "%0 = ashr i64 %1, 0"),
    ("%x = and i64 %a, 1", "%0 = and i64 %1, 1"),
    ("%x = or disjoint disjoint i64 %a, 1", "%0 = or i64 %1, 1"),
    ("%x = xor i1 %a, -1", "%0 = xor i1 %1, 1"),
    ("%x = icmp eq i64 %a, %b", "%0 = icmp eq i64 %1, %2"),
    (
        "%x = icmp samesign samesign ne ptr %p, null, !dbg !7",
        "%0 = icmp ne ptr %1, null",
    ),
    ("%x = icmp ugt i1 true, %a", "%0 = icmp ugt i1 1, %1"),
    ("%x = icmp uge i8 %a, 0", "%0 = icmp uge i8 %1, 0"),
    (
        "%x = icmp samesign ult i16 %a, 0",
        "%0 = icmp ult i16 %1, 0",
    ),
    ("%x = icmp ule i32 %a, 0", "%0 = icmp ule i32 %1, 0"),
    ("%x = icmp sgt ptr @f, @g", "%0 = icmp sgt ptr @0, @1"),
    ("%x = icmp sge i8 %a, 0", "%0 = icmp sge i8 %1, 0"),
    ("%x = icmp slt i8 %a, 0", "%0 = icmp slt i8 %1, 0"),
    ("%x = icmp sle i8 %a, 0", "%0 = icmp sle i8 %1, 0"),
    (
        "%x = select i1 %c, i8 %a, i8 %b",
        "%0 = select i1 %1, i8 %2, i8 %3",
    ),
    (
        "%x = select i1 false, ptr null, ptr @g, !dbg !7",
        "%0 = select i1 0, ptr null, ptr @0",
    ),
    ("%x = zext i8 %a to i64", "%0 = zext i8 %1 to i64"),
    (
        "%x = zext nneg nneg i8 %a to i64, !dbg !7",
        "%0 = zext i8 %1 to i64",
    ),
    ("%x = sext i1 true to i16", "%0 = sext i1 1 to i16"),
    (
        "%x = trunc i64 -1 to i8",
        "%0 = trunc i64 18446744073709551615 to i8",
    ),
    ("%x = trunc nsw nuw i64 %a to i1", "%0 = trunc i64 %1 to i1"),
    ("%x = ptrtoint ptr @g to i64", "%0 = ptrtoint ptr @0 to i64"),
    ("%x = inttoptr i64 5 to ptr", "%0 = inttoptr i64 5 to ptr"),
    ("%x = zext %T %a to [2 x i8]", "%0 = zext %0 %1 to [2 x i8]"),
    ("%x = sext { i8 } %x to {}", "%0 = sext { i8 } %0 to { }"),
    (
        "%x = getelementptr i8, ptr %p, i64 %i",
        "%0 = getelementptr i8, ptr %1, i64 %2",
    ),
    (
        "%x = getelementptr nuw inbounds nusw inbounds { i32, ptr }, ptr @g, i64 -1, i32 %i, i1 true, !dbg !7",
        "%0 = getelementptr { i32, ptr }, ptr @0, i64 18446744073709551615, i32 %1, i1 1",
    ),
    (
        "%x = getelementptr %x, ptr null, i8 255, !a !b, !c !d",
        "%0 = getelementptr %0, ptr null, i8 255",
    ),
    ("%x = alloca i64", "%0 = alloca i64"),
    (
        "%x = alloca { i8, ptr, %T }, align 8, !dbg !7, !a !b",
        "%0 = alloca { i8, ptr, %0 }",
    ),
    (
        "%x = alloca [4294967295 x %x], align 18446744073709551615",
        "%0 = alloca [4294967295 x %0]",
    ),
    ("%x = alloca [000 x ptr], !dbg !7", "%0 = alloca [0 x ptr]"),
    ("%x = alloca {}, align 000", "%0 = alloca { }"),
    (
        "%x = extractvalue { i64, i1 } %p, 0",
        "%0 = extractvalue { i64, i1 } %1, 0",
    ),
    (
        "%x = extractvalue { { ptr }, i1 } %x, 01, !dbg !7",
        "%0 = extractvalue { { ptr }, i1 } %0, 1",
    ),
    ("%x = phi i64 [ 1, %a ]", "%0 = phi i64 [ 1, %1 ]"),
    (
        "%x = phi ptr [null, %0], [@g, %1], [%x, %0], !dbg !7",
        "%0 = phi ptr [ null, %1 ], [ @0, %2 ], [ %0, %1 ]",
    ),
    (
        "%x = phi i1 [true,%x], [-1,%x]",
        "%0 = phi i1 [ 1, %0 ], [ 1, %0 ]",
    ),
    ("ret i1 -1", "ret i1 1"),
    ("ret i1 1", "ret i1 1"),
    ("ret i8 -128", "ret i8 128"),
    ("ret i8 255", "ret i8 255"),
    ("ret i16 -32768", "ret i16 32768"),
    ("ret i16 65535", "ret i16 65535"),
    ("ret i32 -2147483648", "ret i32 2147483648"),
    ("ret i32 4294967295", "ret i32 4294967295"),
    (
        "ret i64 -9223372036854775808",
        "ret i64 9223372036854775808",
    ),
    (
        "ret i64 18446744073709551615",
        "ret i64 18446744073709551615",
    ),
    (
        "ret i64 -9223372036854775807",
        "ret i64 9223372036854775809",
    ),
    (
        "ret i64 00018446744073709551615",
        "ret i64 18446744073709551615",
    ),
];

/// The same of lines that read and write memory, or lead to another place.
const ACCESSES_AND_TRANSFERS: &[(&str, &str)] = &[
    ("%x = load i8, ptr %p", "%0 = load i8, ptr %1"),
    (
        "%x = load ptr, ptr @g, align 8, !dbg !7",
        "%0 = load ptr, ptr @0",
    ),
    (
        "%x = load i64, ptr getelementptr nuw inbounds (%T, ptr @g, i64 0, i32 -1), !dbg !7",
        "%0 = load i64, ptr getelementptr (%0, ptr @0, i64 0, i32 4294967295)",
    ),
    (
        "%x = load atomic i32, ptr %p acquire",
        "%0 = load atomic i32, ptr %1",
    ),
    (
        "%x = load atomic i16, ptr null seq_cst, align 2, !dbg !7",
        "%0 = load atomic i16, ptr null",
    ),
    (
        "%x = load atomic i8, ptr %p unordered, !dbg !7",
        "%0 = load atomic i8, ptr %1",
    ),
    ("store i8 %a, ptr %p", "store i8 %0, ptr %1"),
    (
        "store ptr @f, ptr @g, align 8, !dbg !7",
        "store ptr @0, ptr @1",
    ),
    (
        "store ptr getelementptr ({ i8, i8 }, ptr @g, i1 true), ptr getelementptr nusw (i8, ptr @g, i8 1)",
        "store ptr getelementptr ({ i8, i8 }, ptr @0, i1 1), ptr getelementptr (i8, ptr @0, i8 1)",
    ),
    ("store i64 1, ptr %p, !dbg !7", "store i64 1, ptr %0"),
    (
        "store atomic i16 1, ptr %p release",
        "store atomic i16 1, ptr %0",
    ),
    (
        "store atomic ptr null, ptr %p monotonic, align 8, !dbg !7",
        "store atomic ptr null, ptr %0",
    ),
    (
        "%x = atomicrmw add ptr %p, i64 1 acq_rel",
        "%0 = atomicrmw add ptr %1, i64 1",
    ),
    (
        "%x = atomicrmw xchg ptr @g, ptr @f seq_cst, align 8, !dbg !7",
        "%0 = atomicrmw xchg ptr @0, ptr @1",
    ),
    (
        "%x = atomicrmw xchg ptr %p, i32 %a release",
        "%0 = atomicrmw xchg ptr %1, i32 %2",
    ),
    (
        "%x = atomicrmw sub ptr %p, i8 1 monotonic",
        "%0 = atomicrmw sub ptr %1, i8 1",
    ),
    (
        "%x = atomicrmw and ptr %p, i16 1 acquire",
        "%0 = atomicrmw and ptr %1, i16 1",
    ),
    (
        "%x = atomicrmw or ptr %p, i32 1 unordered",
        "%0 = atomicrmw or ptr %1, i32 1",
    ),
    (
        "%x = atomicrmw xor ptr %p, i64 1 seq_cst, !dbg !7",
        "%0 = atomicrmw xor ptr %1, i64 1",
    ),
    (
        "%x = atomicrmw nand ptr %p, i64 1 seq_cst",
        "%0 = atomicrmw nand ptr %1, i64 1",
    ),
    (
        "%x = atomicrmw max ptr %p, i64 1 seq_cst",
        "%0 = atomicrmw max ptr %1, i64 1",
    ),
    (
        "%x = atomicrmw min ptr %p, i64 1 seq_cst",
        "%0 = atomicrmw min ptr %1, i64 1",
    ),
    (
        "%x = atomicrmw umax ptr %p, i64 1 seq_cst",
        "%0 = atomicrmw umax ptr %1, i64 1",
    ),
    (
        "%x = atomicrmw umin ptr %p, i64 1 seq_cst",
        "%0 = atomicrmw umin ptr %1, i64 1",
    ),
    (
        "%x = cmpxchg ptr %p, i64 %a, i64 1 acq_rel monotonic",
        "%0 = cmpxchg ptr %1, i64 %2, i64 1",
    ),
    (
        "%x = cmpxchg weak ptr @g, ptr null, ptr %a release unordered, align 8, !dbg !7",
        "%0 = cmpxchg ptr @0, ptr null, ptr %1",
    ),
    (
        "%x = cmpxchg ptr %p, i8 1, i8 2 seq_cst acquire, !dbg !7",
        "%0 = cmpxchg ptr %1, i8 1, i8 2",
    ),
    ("fence acquire", "fence"),
    ("fence seq_cst, !dbg !7", "fence"),
    ("call void @f()", "call void @0()"),
    (
        "tail call private internal common weak linkonce_odr dso_local local_unnamed_addr unnamed_addr hidden i32 @f()",
        "call i32 @0()",
    ),
    (
        "notail call protected default ccc fastcc noundef signext zeroext nonnull noalias nocapture i32 @f() #3",
        "call i32 @0()",
    ),
    (
        "call readonly ccc readnone writeonly returned align 8 ccc dereferenceable(0) i8 @f(), !dbg !7",
        "call i8 @0()",
    ),
    (
        "call dereferenceable_or_null(18446744073709551615) captures(none) noundef noundef i8 @f()",
        "call i8 @0()",
    ),
    (
        "call void @f(i32 noundef signext zeroext 5, ptr nonnull noalias nocapture readonly readnone %p)",
        "call void @0(i32 5, ptr %0)",
    ),
    (
        "tail call void @f(ptr writeonly returned align 8 dereferenceable(8) @g) #0, !dbg !7, !a !b",
        "call void @0(ptr @1)",
    ),
    (
        "call void @f(ptr dereferenceable_or_null(1) captures(none) noundef noundef null, i1 false)",
        "call void @0(ptr null, i1 0)",
    ),
    (
        "%x = notail call ptr @f(ptr @g, ptr @f) #0",
        "%0 = call ptr @0(ptr @1, ptr @0)",
    ),
    (
        "%x = tail call %T @f(%T %x, %S %y)",
        "%0 = call %0 @0(%0 %0, %1 %1)",
    ),
    ("%x = call void @f(i8 -1)", "%0 = call void @0(i8 255)"),
    (
        "call {} @llvm.memcpy.p0([2 x i8] %a)",
        "call { } @0([2 x i8] %0)",
    ),
    ("call void @llvm.dbg()", "call void @0()"),
    ("call void @llvm.lifetimes.x()", "call void @0()"),
    ("br label %a", "br label %0"),
    ("br label %0, !llvm.loop !6", "br label %0"),
    (
        "br i1 %c, label %a, label %b",
        "br i1 %0, label %1, label %2",
    ),
    (
        "br i1 false, label %a, label %a, !prof !0, !dbg !7",
        "br i1 0, label %0, label %0",
    ),
    ("switch i32 %a, label %b []", "switch i32 %0, label %1 [ ]"),
    (
        "switch i8 %a, label %d [ i8 1, label %b i8 -1, label %d ], !dbg !7",
        "switch i8 %0, label %1 [ i8 1, label %2 i8 255, label %1 ]",
    ),
    (
        "switch i1 true, label %a [i1 false, label %b i1 true, label %a]",
        "switch i1 1, label %0 [ i1 0, label %1 i1 1, label %0 ]",
    ),
    ("ret void", "ret void"),
    ("ret void, !dbg !7", "ret void"),
    ("ret i32 %a, !dbg !7, !dbg !7", "ret i32 %0"),
    (
        "ret ptr getelementptr ([2 x i8], ptr @g, i64 0, i64 1)",
        "ret ptr getelementptr ([2 x i8], ptr @0, i64 0, i64 1)",
    ),
    ("ret %T %a", "ret %0 %0"),
    ("ret [1 x i8] %a", "ret [1 x i8] %0"),
    ("unreachable", "unreachable"),
    ("unreachable, !dbg !7, !a !0", "unreachable"),
    ("\tret\r void ", "ret void"),
    ("ret ptr @f", "ret ptr @0"),
];

/// What the text stands for, by tokens of a line of the same places; its names join the tables. `unfit token K` or
/// `no memory` where it stands for nothing.
fn shown_by(
    rt: &impl Abort,
    alloc: Global,
    m: &mut Module,
    f: &mut Func,
    text: &str,
    line: &str,
) -> String {
    let text = text.as_bytes();
    let line = line.as_bytes();
    assert!(rt; line.len() <= 4_194_304 && text.len() == line.len());
    let tokens = lex_line(alloc, line).expect(rt, "a line has no tokens");
    match parse_inst(alloc, m, f, text, &tokens) {
        Ok(inst) => shown_and_dropped(rt, alloc, inst),
        Err(error) => format!(in alloc; "{error}").expect(rt, "no memory for a text"),
    }
}

fn shown_and_dropped(rt: &impl Abort, alloc: Global, inst: Inst) -> String {
    let text = shown(rt, alloc, &inst);
    drop(inst);
    text
}

/// What the line stands for alone.
fn shown_alone(rt: &impl Abort, alloc: Global, line: &str) -> String {
    let mut m = Module::new(alloc);
    let mut f = Func::new(alloc, Sym(0), Ty::Void);
    shown_by(rt, alloc, &mut m, &mut f, line, line)
}

fn assert_lines(rt: &impl Abort, alloc: Global, lines: &[(&str, &str)]) {
    for (line, want) in lines {
        let found = shown_alone(rt, alloc, line);
        assert!(rt; found.as_str() == *want, "{found} in {line:?}");
    }
}

#[test]
fn each_form_stands_for_its_instruction(rt: HostRuntime) {
    assert_lines(&rt, rt.alloc(), CALCULATIONS);
    assert_lines(&rt, rt.alloc(), ACCESSES_AND_TRANSFERS);
}

/// Lines of one function, and what they stand for one after the other: a name keeps the number that its first
/// line gave it, and an unfit line gives none.
const IN_ONE_FUNCTION: &[(&str, &str)] = &[
    ("%b = add i64 %a, %b", "%0 = add i64 %1, %0"),
    ("br label %c", "br label %2"),
    (
        "%d = call %c @g(%b %a, ptr @f, ptr @g)",
        "%3 = call %0 @0(%1 %1, ptr @1, ptr @0)",
    ),
    ("%e = call %e @e(ptr @e", "unfit token 8"),
    ("%0 = load %0, ptr @0", "unfit token 3"),
    ("store ptr @h, ptr @f", "store ptr @2, ptr @1"),
    ("%e = phi ptr [ @g, %c ]", "%4 = phi ptr [ @0, %2 ]"),
    ("ret %d %d", "ret %2 %3"),
    ("ret %b %e", "ret %1 %4"),
];

/// A `switch` over three lines, and the same in one.
const CASES: &str = "switch i8 %a, label %b [\n  i8 -1,\tlabel %a\n\n  i8 7, label %c\n], !dbg !7";

const CASES_IN_LINE: &str =
    "switch i8 %a, label %b [   i8 -1,\tlabel %a    i8 7, label %c ], !dbg !7";

#[test]
fn names_are_numbered_in_the_order_of_the_lines(rt: HostRuntime) {
    let alloc = rt.alloc();
    let mut m = Module::new(alloc);
    let mut f = Func::new(alloc, Sym(0), Ty::Void);
    for (line, want) in IN_ONE_FUNCTION {
        let found = shown_by(&rt, alloc, &mut m, &mut f, line, line);
        assert!(rt; found.as_str() == *want, "{found} in {line:?}");
    }
    assert!(rt; m.sym_count() == 3 && m.type_count() == 3 && f.loc_count() == 5);
    let found = shown_by(&rt, alloc, &mut m, &mut f, CASES, CASES_IN_LINE);
    assert_eq!(rt;
        found.as_str(),
        "switch i8 %1, label %0 [ i8 255, label %1 i8 7, label %2 ]"
    );
}
