//! The program. It takes the words and the files from the system, and ends with the number of the call's
//! status; it prints nothing itself.
#![tactic(auto)]

use haft_cli::haft;
use haft_io::{FileInputs, StdSink};
use std::process::ExitCode;
use std::rt::{Env, Files};
use std::{env, io};

/// The words were faulty: one of them isn't text.
const USAGE: u8 = 2;
/// Memory ran out.
const NO_MEMORY: u8 = 5;
/// The system gave no words.
const NO_WORDS: u8 = 6;

/// The words after the program's name.
fn words<R: Env + AllocGlobal>(rt: &R) -> io::Result<Vec<String>> {
    Ok(env::args(rt)?.skip(1).collect(rt.alloc())?)
}

/// Does what the words ask for, and answers the status.
fn status<R: Files + Print + AllocGlobal>(rt: &R, words: &[String]) -> u8 {
    let first = words.get(1).map(|word| word.as_str());
    let second = words.get(2).map(|word| word.as_str());
    let mut inputs = FileInputs::new(rt, first, second);
    let mut out = StdSink::new(rt);
    haft(rt.alloc(), words, &mut inputs, &mut out) as u8
}

fn main(rt: HostRuntime) -> ExitCode {
    let code = match words(&rt) {
        Ok(words) => status(&rt, &words),
        Err(error) => match error.kind() {
            io::ErrorKind::OutOfMemory => NO_MEMORY,
            io::ErrorKind::InvalidData => USAGE,
            _ => NO_WORDS,
        },
    };
    ExitCode::from(code)
}
