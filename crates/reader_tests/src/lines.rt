//! Texts cut into lines, lines cut into tokens or dropped, and what strings stand for.
use ir_lex::TokKind::{At, Bang, Bytes, Hash, Label, Local, Num, Punct, Str, Word};
use ir_lex::{
    LinePlace, TokKind, is_dropped, lex_line, lines_law, name_from, split_line, string_bytes,
};
use std::alloc::Global;
use std::process::Abort;

/// Lines, and their tokens: the kind of each, where it starts, and its text.
const TOKENS: [(&[u8], &[(TokKind, u32, &[u8])]); 46] = [
    (b"", &[]),
    (b" \t\r", &[]),
    (b"; a \"comment\0\xff", &[]),
    (b" ;", &[]),
    (
        b"  %a = add i64 2,-3 ; sum",
        &[
            (Local, 2, b"%a"),
            (Punct, 5, b"="),
            (Word, 7, b"add"),
            (Word, 11, b"i64"),
            (Num, 15, b"2"),
            (Punct, 16, b","),
            (Num, 17, b"-3"),
        ],
    ),
    (b"\tadd\r", &[(Word, 1, b"add")]),
    (b"_x.1_", &[(Word, 0, b"_x.1_")]),
    (b"i1;i8", &[(Word, 0, b"i1")]),
    (b"0x10", &[(Num, 0, b"0"), (Word, 1, b"x10")]),
    (b"%x", &[(Local, 0, b"%x")]),
    (b"%-", &[(Local, 0, b"%-")]),
    (b"%$a-Z._9", &[(Local, 0, b"%$a-Z._9")]),
    (b"%5a", &[(Local, 0, b"%5"), (Word, 2, b"a")]),
    (b"%a%b", &[(Local, 0, b"%a"), (Local, 2, b"%b")]),
    (b"@0a", &[(At, 0, b"@0"), (Word, 2, b"a")]),
    (b"@.str", &[(At, 0, b"@.str")]),
    (b"entry:", &[(Label, 0, b"entry:")]),
    (b" \t0:", &[(Label, 2, b"0:")]),
    (b"-5:", &[(Label, 0, b"-5:")]),
    (b"$a-:x", &[(Label, 0, b"$a-:"), (Word, 4, b"x")]),
    (b"5", &[(Num, 0, b"5")]),
    (b"-5", &[(Num, 0, b"-5")]),
    (b"007", &[(Num, 0, b"007")]),
    (b"5-3", &[(Num, 0, b"5"), (Num, 1, b"-3")]),
    (b"c\"\\5A\\\\\\q\"", &[(Bytes, 0, b"c\"\\5A\\\\\\q\"")]),
    (b"c\"\"", &[(Bytes, 0, b"c\"\"")]),
    (b"c\";\"", &[(Bytes, 0, b"c\";\"")]),
    (b"c\"\\\"a", &[(Bytes, 0, b"c\"\\\""), (Word, 4, b"a")]),
    (b"c \"\"", &[(Word, 0, b"c"), (Str, 2, b"\"\"")]),
    (b"cc\"\"", &[(Word, 0, b"cc"), (Str, 2, b"\"\"")]),
    (b"C\"\"", &[(Word, 0, b"C"), (Str, 1, b"\"\"")]),
    (b"\"\"", &[(Str, 0, b"\"\"")]),
    (b"\"a;b\" ; \"", &[(Str, 0, b"\"a;b\"")]),
    (b"\"\0\xff\t\"", &[(Str, 0, b"\"\0\xff\t\"")]),
    (b"\"a\"\"b\"", &[(Str, 0, b"\"a\""), (Str, 3, b"\"b\"")]),
    (b"#0", &[(Hash, 0, b"#0")]),
    (b"#12a", &[(Hash, 0, b"#12"), (Word, 3, b"a")]),
    (b"!dbg", &[(Bang, 0, b"!dbg")]),
    (b"!0a", &[(Bang, 0, b"!0"), (Word, 2, b"a")]),
    (b"!-", &[(Bang, 0, b"!-")]),
    (
        b"=,(){}",
        &[
            (Punct, 0, b"="),
            (Punct, 1, b","),
            (Punct, 2, b"("),
            (Punct, 3, b")"),
            (Punct, 4, b"{"),
            (Punct, 5, b"}"),
        ],
    ),
    (
        b"[]*",
        &[(Punct, 0, b"["), (Punct, 1, b"]"), (Punct, 2, b"*")],
    ),
    (b"**", &[(Punct, 0, b"*"), (Punct, 1, b"*")]),
    (b"a b", &[(Word, 0, b"a"), (Word, 2, b"b")]),
    (b"x;y:", &[(Word, 0, b"x")]),
    (b"br:;", &[(Label, 0, b"br:")]),
];

/// The line has these tokens and no others.
fn assert_tokens(rt: &impl Abort, alloc: Global, line: &[u8], want: &[(TokKind, u32, &[u8])]) {
    assert!(rt; line.len() <= 4_194_304);
    let tokens = lex_line(alloc, line).expect(rt, "a line has no tokens");
    assert_eq!(rt; tokens.len(), want.len(), "in {line:?}");
    for (token, (kind, start, text)) in tokens.iter().zip(want) {
        assert!(rt; token.kind == *kind, "in {line:?}");
        assert_eq!(rt; token.start, *start, "in {line:?}");
        let found = line.get(token.start as usize..token.end as usize);
        assert!(rt; found == Some(*text), "in {line:?}");
    }
}

#[test]
fn lines_are_cut_into_their_longest_tokens(rt: HostRuntime) {
    for (line, want) in TOKENS {
        assert_tokens(&rt, rt.alloc(), line, want);
    }
}

/// Lines, and whether they are dropped outside functions and inside one.
const DROPPED: [(&[u8], bool, bool); 46] = [
    (b"", false, false),
    (b"; #dbg_", false, false),
    (b"source_filename = \"a.c\"", true, true),
    (b"source_filenames", false, false),
    (b" \t\rtarget triple = \"x\"", true, true),
    (b"target1", true, true),
    (b"target_", false, false),
    (b"targe", false, false),
    (b"\0target", false, false),
    (b"attributes #0 = { nounwind }", true, true),
    (b"attribute", false, false),
    (b"!0 = !{}", true, true),
    (b"!", true, true),
    (b" !0 = !{}", false, false),
    (b"declare void @haft_out(i64)", false, false),
    (b"declare i64 @haft_arg(i32)", false, false),
    (
        b"declare i32 @pthread_create(ptr, ptr, ptr, ptr)",
        false,
        false,
    ),
    (b"declare i32 @pthread_join(i64, ptr)", false, false),
    (b"declare i32 @pthread_mutex_lock(ptr)", false, false),
    (b"declare i32 @pthread_mutex_unlock(ptr)", false, false),
    (b"declare i32 @putchar(i32)", false, false),
    (b"declare void @exit(i32) #1", false, false),
    (b"declare noalias ptr @malloc(i64)", false, false),
    (b"\tdeclare void @free(ptr)", false, false),
    (b"declare void @haft_output(i64)", true, true),
    (b"declare void @haft_ou", true, true),
    (b"declare void @free-", true, true),
    (b"declare i32 @printf(ptr, ...)", true, true),
    (b"declare i32 @\"free\"()", true, true),
    (b"declare void @ free(ptr)", true, true),
    (b"declare @", true, true),
    (b"declare @x @free", true, true),
    (b"declare @free @x", false, false),
    (b"declare void", false, false),
    (b"declared @x", false, false),
    (b"define void @x() {", false, false),
    (b"    #dbg_value(i32 0)", false, true),
    (b"#dbg", false, false),
    (b"call void @llvm.dbg.value(i64 0)", false, true),
    (
        b"\ttail call void @llvm.lifetime.start.p0(i64 8, ptr %a)",
        false,
        true,
    ),
    (b"tail call void @llvm.dbg.", false, true),
    (b"call void @llvm.lifetime.", false, true),
    (b"call void  @llvm.dbg.x", false, false),
    (b"call void @llvm.dbg", false, false),
    (b"call void @llvm.memcpy.p0", false, false),
    (b"notail call void @llvm.dbg.x", false, false),
];

#[test]
fn lines_are_dropped_by_their_place(rt: HostRuntime) {
    for (line, outside, inside) in DROPPED {
        assert_eq!(rt; is_dropped(LinePlace::Top, line), outside, "{line:?}");
        assert_eq!(rt; is_dropped(LinePlace::Function, line), inside, "{line:?}");
        assert!(rt; !is_dropped(LinePlace::Switch, line), "{line:?}");
    }
}

/// Texts, and their lines.
const LINES: [(&[u8], &[&[u8]]); 9] = [
    (b"", &[]),
    (b"\n", &[b""]),
    (b"a", &[b"a"]),
    (b"a\n", &[b"a"]),
    (b"a\nb", &[b"a", b"b"]),
    (b"a\n\nb\n", &[b"a", b"", b"b"]),
    (b"\n\n", &[b"", b""]),
    (b"a\r\n\0", &[b"a\r", b"\0"]),
    (b"; c\n\xff", &[b"; c", b"\xff"]),
];

#[test]
fn texts_are_lines(rt: HostRuntime) {
    for (text, want) in LINES {
        let mut left = text;
        for line in want {
            let (found, rest) = split_line(left).expect(&rt, "a line is missing");
            assert!(rt; found == *line, "in {text:?}");
            left = rest;
        }
        assert!(rt; split_line(left).is_none(), "in {text:?}");
        lines_law(text);
    }
}

/// Tokens of strings, and the bytes that they stand for.
const STRINGS: [(&[u8], &[u8]); 16] = [
    (b"c\"\"", b""),
    (b"c\"a;b\"", b"a;b"),
    (b"c\"\\5A\\\\\\q\"", b"Z\\\\q"),
    (b"c\"\\fF\\Ff\"", b"\xff\xff"),
    (b"c\"\\00\\0a\"", b"\0\n"),
    (b"c\"\\\\5A\"", b"\\5A"),
    (b"c\"\\\\\\5A\"", b"\\Z"),
    (b"c\"\\5\"", b"\\5"),
    (b"c\"\\5G\"", b"\\5G"),
    (b"c\"\\g5\"", b"\\g5"),
    (b"c\"\\5\\5A\"", b"\\5Z"),
    (b"c\"a\\\"", b"a\\"),
    (b"c\"\\\\\"", b"\\"),
    (b"c\"\\\\\\\"", b"\\\\"),
    (b"c\"\\aAa\"", b"\xaaa"),
    (b"c\"\0\xff\"", b"\0\xff"),
];

/// Texts, places in them, and the longest names that begin there.
const NAMES: [(&[u8], usize, &[u8]); 8] = [
    (b"@haft_out(i64)", 1, b"haft_out"),
    (b"@0a", 1, b"0"),
    (b"%-5.$ ", 1, b"-5.$"),
    (b"%", 1, b""),
    (b"-5", 0, b"-5"),
    (b"a b", 1, b""),
    (b"a:", 0, b"a"),
    (b"\"a\"", 0, b""),
];

#[test]
fn strings_and_names_are_read(rt: HostRuntime) {
    for (token, want) in STRINGS {
        let bytes = string_bytes(rt.alloc(), token).expect(&rt, "no memory for bytes");
        assert_eq!(rt; bytes.as_slice(), want, "for {token:?}");
    }
    for (text, at, want) in NAMES {
        assert!(rt; at <= text.len());
        assert_eq!(rt; name_from(text, at), want, "in {text:?}");
    }
}
