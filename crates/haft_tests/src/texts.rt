//! The files and the reports of the tests, and calls over devices in memory.
use haft_cli::{Status, haft};
use haft_io::{MemInputs, MemSink};
use std::alloc::Global;
use std::process::Abort;

/// Gives 5 out and ends with 0: hardened in twelve turns, which stand for four.
pub const SUM: &str =
    "declare void @haft_out(i64)\ndefine i32 @main() {\n  %a = add i64 2, 3\n  call void @haft_out(i64 %a)\n  ret i32 0\n}\n";

/// The same with a word that is no operation.
pub const UNKNOWN_OPERATION: &str =
    "declare void @haft_out(i64)\ndefine i32 @main() {\n  %a = fadd i64 2, 3\n  call void @haft_out(i64 %a)\n  ret i32 0\n}\n";

/// The same without its last line.
pub const UNENDED: &str =
    "declare void @haft_out(i64)\ndefine i32 @main() {\n  %a = add i64 2, 3\n  call void @haft_out(i64 %a)\n  ret i32 0\n";

/// The same with a byte at which no token begins.
pub const BAD_BYTE: &str =
    "declare void @haft_out(i64)\ndefine i32 @main() {\n  %a = add i64 2, 3\n  call void @haft_out(i64 ?a)\n  ret i32 0\n}\n";

/// A program of two blocks.
pub const TWO_BLOCKS: &str = "define i32 @main() {\n  br label %end\nend:\n  ret i32 0\n}\n";

/// Two threads that count under a lock, as a compiler of C writes it, with lines left out.
pub const COUNT: &str =
    "; ModuleID = 'count.c'\nsource_filename = \"count.c\"\ntarget triple = \"x86_64-pc-linux-gnu\"\n\n%union.pthread_mutex_t = type { %struct.__pthread_mutex_s }\n%struct.__pthread_mutex_s = type { i32, i32, i32, i32, i32, i16, i16, %struct.__pthread_internal_list }\n%struct.__pthread_internal_list = type { ptr, ptr }\n\n@lock = dso_local global %union.pthread_mutex_t zeroinitializer, align 8\n@count = dso_local global i32 0, align 4\n\n; Function Attrs: noinline nounwind optnone uwtable\ndefine dso_local ptr @work(ptr noundef %0) #0 {\n  %2 = alloca ptr, align 8\n  %3 = alloca i32, align 4\n  store ptr %0, ptr %2, align 8\n  store i32 0, ptr %3, align 4\n  br label %4\n\n4:                                                ; preds = %12, %1\n  %5 = load i32, ptr %3, align 4\n  %6 = icmp slt i32 %5, 10\n  br i1 %6, label %7, label %15\n\n7:                                                ; preds = %4\n  %8 = call i32 @pthread_mutex_lock(ptr noundef @lock) #3\n  %9 = load i32, ptr @count, align 4\n  %10 = add nsw i32 %9, 1\n  store i32 %10, ptr @count, align 4\n  %11 = call i32 @pthread_mutex_unlock(ptr noundef @lock) #3\n  br label %12\n\n12:                                               ; preds = %7\n  %13 = load i32, ptr %3, align 4\n  %14 = add nsw i32 %13, 1\n  store i32 %14, ptr %3, align 4\n  br label %4, !llvm.loop !6\n\n15:                                               ; preds = %4\n  ret ptr null\n}\n\ndeclare i32 @pthread_mutex_lock(ptr noundef) #1\ndeclare i32 @pthread_mutex_unlock(ptr noundef) #1\n\ndefine dso_local i32 @main() #0 {\n  %1 = alloca i32, align 4\n  %2 = alloca i64, align 8\n  %3 = alloca i64, align 8\n  store i32 0, ptr %1, align 4\n  %4 = call i32 @pthread_create(ptr noundef %2, ptr noundef null, ptr noundef @work, ptr noundef null) #3\n  %5 = call i32 @pthread_create(ptr noundef %3, ptr noundef null, ptr noundef @work, ptr noundef null) #3\n  %6 = load i64, ptr %2, align 8\n  %7 = call i32 @pthread_join(i64 noundef %6, ptr noundef null)\n  %8 = load i64, ptr %3, align 8\n  %9 = call i32 @pthread_join(i64 noundef %8, ptr noundef null)\n  %10 = load i32, ptr @count, align 4\n  %11 = sext i32 %10 to i64\n  call void @haft_out(i64 noundef %11)\n  ret i32 0\n}\n\ndeclare i32 @pthread_create(ptr noundef, ptr noundef, ptr noundef, ptr noundef) #1\ndeclare i32 @pthread_join(i64 noundef, ptr noundef) #2\ndeclare void @haft_out(i64 noundef) #2\n\nattributes #0 = { noinline nounwind optnone uwtable \"frame-pointer\"=\"all\" }\n!llvm.module.flags = !{!0}\n!0 = !{i32 1, !\"wchar_size\", i32 4}\n!6 = distinct !{!6, !7}\n!7 = !{!\"llvm.loop.mustprogress\"}\n";

/// Turns enough for the sum to end.
pub const TURNS: &str = "turn 0 40\n";

/// What the sum comes to where it ends, in 40 bytes.
pub const REPORT: &str = "out 5\naborts 0 0 0 0\nstop end 0\nsrc 0*4\n";

/// A copy of the bytes.
pub fn bytes_of(rt: &impl Abort, alloc: Global, bytes: &[u8]) -> Vec<u8> {
    Vec::from_slice(alloc, bytes).expect(rt, "no memory for bytes")
}

/// The words of a line.
pub fn words_of(rt: &impl Abort, alloc: Global, line: &str) -> Vec<String> {
    let mut words = Vec::new(alloc);
    for word in line.split_whitespace() {
        let word = String::from_str(alloc, word).expect(rt, "no memory for a word");
        words.push(word).expect(rt, "no memory for the words");
    }
    words
}

/// The files in memory, where this read fails.
pub fn inputs_of(
    rt: &impl Abort,
    alloc: Global,
    first: &[u8],
    second: &[u8],
    failing: u32,
) -> MemInputs {
    let first = bytes_of(rt, alloc, first);
    let second = bytes_of(rt, alloc, second);
    let fail = vec![in alloc; failing].expect(rt, "no memory for a number");
    MemInputs::new(alloc, first, second, fail)
}

/// A sink that takes three bytes at a time, where this write fails.
pub fn sink_of(rt: &impl Abort, alloc: Global, failing: u32) -> MemSink {
    let fail = vec![in alloc; failing].expect(rt, "no memory for a number");
    MemSink::new(alloc, 3, fail, 100).expect(rt, "no memory for a sink")
}

/// What a check of a file answers and writes, where the read with a number fails.
pub fn check_on(rt: &impl Abort, alloc: Global, first: &[u8], read: u32) -> (Status, Vec<u8>) {
    let words = words_of(rt, alloc, "check a");
    let mut inputs = inputs_of(rt, alloc, first, b"turn 64 1", read);
    let mut out = sink_of(rt, alloc, 0);
    let status = haft(alloc, &words, &mut inputs, &mut out);
    (status, bytes_of(rt, alloc, out.bytes()))
}

/// How the call `run a b` ends on these files, and what it writes, three bytes at a time, where this
/// read and this write fail: they are numbered from 1.
pub fn run_on(
    rt: &impl Abort,
    alloc: Global,
    first: &[u8],
    second: &[u8],
    read: u32,
    write: u32,
) -> (Status, Vec<u8>) {
    let words = words_of(rt, alloc, "run a b");
    let mut inputs = inputs_of(rt, alloc, first, second, read);
    let mut out = sink_of(rt, alloc, write);
    let status = haft(alloc, &words, &mut inputs, &mut out);
    (status, bytes_of(rt, alloc, out.bytes()))
}
