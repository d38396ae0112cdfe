//! Benchmarks of the readers and of the passes: the program cuts each line of a file into tokens, copies the file's bytes one by one,
//! reads the file as a module, or checks and hardens that, and prints how many tokens, bytes, instructions or hardened instructions
//! there were. Its words are the file's name and `copy`, `module`, `check`, `harden` or none. `bench/lex.sh`, `bench/parse.sh` and
//! `bench/harden.sh` compare the times.
#![tactic(auto)]

ghost use Rattle.std.specs.Prelude.{◌≡◌, ◌≤◌, IfOk, length};

use haft_io::{FileInputs, Which, read_whole};
use haft_run::harden;
use hard_ir::{HBlock, Hardened};
use ir_check::{Accepted, accept};
use ir_core::Func;
use ir_lex::{LexError, lex_line, split_line};
use ir_parse_top::parse_module;
use std::alloc::{AllocError, Global};
use std::rt::{Env, Files};
use std::{env, io};

/// A text has at most this many bytes.
const LIMIT: usize = 4_194_304;

/// How many tokens stand on the lines of a text.
fn token_count(alloc: Global, text: &[u8]) -> Result<usize, LexError>
    requires { length text.now ≤ 4194304 }
{
    let mut count: usize = 0;
    let mut left = text;
    'lines: while let Some((line, rest)) = split_line(left) {
        count = count.saturating_add(lex_line(alloc, line)?.len());
        left = rest;
    }
    Ok(count)
}

/// How many bytes a copy of the text has that is made byte by byte.
fn copied_count(alloc: Global, text: &[u8]) -> Result<usize, AllocError>
    ensures { IfOk result (λ count. count ≡ length text.now) }
{
    let mut copy = Vec::new(alloc);
    for byte in text {
        copy.push(*byte)?;
    }
    Ok(copy.len())
}

/// How many instructions a function has.
fn func_count(f: &Func) -> usize {
    let mut count: usize = 0;
    for block in f.blocks() {
        count = count.saturating_add(block.insts.items().len());
    }
    count
}

/// How many instructions the module of a text has; nothing where it has none.
fn module_count(alloc: Global, text: &[u8]) -> Option<usize>
    requires { length text.now ≤ 4194304 }
{
    let m = parse_module(alloc, text).ok()?;
    let mut count: usize = 0;
    for f in m.funcs() {
        count = count.saturating_add(func_count(f));
    }
    drop(m);
    Some(count)
}

/// The accepted module of a text; nothing where it has none.
fn accepted(alloc: Global, text: &[u8]) -> Option<Accepted>
    requires { length text.now ≤ 4194304 }
{
    let m = parse_module(alloc, text).ok()?;
    accept(alloc, m).ok()
}

/// How many functions the accepted module of a text has; nothing where it has none.
fn accepted_count(alloc: Global, text: &[u8]) -> Option<usize>
    requires { length text.now ≤ 4194304 }
{
    let accepted = accepted(alloc, text)?;
    let count = accepted.module().funcs().len();
    drop(accepted);
    Some(count)
}

/// How many hardened instructions stand in these blocks.
fn block_count(blocks: &[HBlock]) -> usize {
    let mut count: usize = 0;
    for block in blocks {
        count = count.saturating_add(block.list.items().len());
    }
    count
}

/// How many hardened instructions a hardened module has, phis not counted.
fn item_count(hardened: Hardened) -> usize {
    let (heads, funcs) = hardened.take();
    drop(heads);
    let mut count: usize = 0;
    for blocks in funcs.items() {
        count = count.saturating_add(block_count(blocks.items()));
    }
    drop(funcs);
    count
}

/// How many hardened instructions the hardened module of a text has; nothing where it has none.
fn hardened_count(alloc: Global, text: &[u8]) -> Option<usize>
    requires { length text.now ≤ 4194304 }
{
    let accepted = accepted(alloc, text)?;
    let hardened = harden(alloc, &accepted).ok();
    drop(accepted);
    Some(item_count(hardened?))
}

/// What the words ask for; nothing where a file can't be read, a line has a bad byte or memory runs out.
fn count<'a, R: Files + AllocGlobal>(rt: &'a R, words: &'a [String]) -> Option<usize> {
    let name = words.first().map(|word| word.as_str());
    let mut inputs = FileInputs::new(rt, name, None);
    let text = read_whole(rt.alloc(), &mut inputs, Which::First, LIMIT).ok()?;
    match words.get(1) {
        Some(word) if word.as_str() == "copy" => copied_count(rt.alloc(), &text).ok(),
        Some(word) if word.as_str() == "module" => module_count(rt.alloc(), &text),
        Some(word) if word.as_str() == "check" => accepted_count(rt.alloc(), &text),
        Some(word) if word.as_str() == "harden" => hardened_count(rt.alloc(), &text),
        _ => token_count(rt.alloc(), &text).ok(),
    }
}

/// The words after the program's name.
fn words<R: Env + AllocGlobal>(rt: &R) -> io::Result<Vec<String>> {
    Ok(env::args(rt)?.skip(1).collect(rt.alloc())?)
}

fn main(rt: HostRuntime) -> io::Result<()> {
    match count(&rt, &words(&rt)?) {
        Some(count) => println!(rt; "{count}"),
        None => println!(rt; "no count"),
    }
}
