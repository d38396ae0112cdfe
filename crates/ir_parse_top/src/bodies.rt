//! Functions: their parameters, and their lines up to the end.
ghost use Rattle.std.specs.Prelude.{◌≡◌, ◌≤◌, ◌<◌, ◌++◌, length, IfOk, IfErr, OnOk};
ghost use Rattle.ir_core.specs.Module.{with_inst};
ghost use Rattle.std.specs.List.{list_all};
ghost use Rattle.ir_core.specs.Tokens.{is_digit, is_digits};
ghost use Rattle.ir_core.specs.Module as module_specs;
ghost use Rattle.ir_parse_top.specs.Sheet.{numeral_at, counted, name_or, named_params, counted_params, headed, entry_of, begun, with_body};
ghost use Rattle.ir_parse_top.specs.Reading.{FindsEnd, TripsIn, Told, sheet_behind};

use crate::ParseError;
use crate::cursor::Lines;
use crate::inside::next_body;
use ir_core::{Copied, Func, Inst, Loc, Ty};
use ir_grammar::{BodyLine, Head};
use ir_numbering::name_at;
use std::alloc::{AllocError, Global};

/// How many numerals may stand behind a text; no text of 4 MiB comes near it.
const MOST_NUMERALS: usize = 1 << 28;

/// Where a numeral stands behind the text.
fn numeral_at(text: &[u8], n: usize) -> Result<Loc, AllocError>
    requires { length text.now ≤ 4194304 }
    ensures { IfOk result (λ at. at ≡ numeral_at text.now n) }
{
    if n < MOST_NUMERALS {
        Ok(Loc((text.len() + 1 + 8 * n) as u32))
    } else {
        Err(AllocError)
    }
}

fn all_digits(bytes: &[u8]) -> bool
    ensures { result ≡ list_all is_digit bytes.now }
{
    let mut left = bytes;
    'bytes: while let [byte, rest @ ..] = left {
        if !byte.is_ascii_digit() {
            return false;
        }
        left = rest;
    }
    true
}

fn is_digits(name: &[u8]) -> bool
    ensures { result ≡ is_digits name.now }
{
    match name {
        [] => false,
        [_, ..] => all_digits(name),
    }
}

/// 1 for a parameter whose name is digits, and for one without a written name.
fn counted(text: &[u8], name: Option<Loc>) -> usize
    ensures count { result ≡ counted text.now name }
    ensures within { result ≤ 1 }
{
    match name {
        None => 1,
        Some(at) if is_digits(name_at(text, at.0)) => 1,
        Some(_) => 0,
    }
}

fn name_or(text: &[u8], n: usize, name: Option<Loc>) -> Result<Loc, AllocError>
    requires { length text.now ≤ 4194304 }
    ensures { IfOk result (λ at. at ≡ name_or text.now n name) }
{
    match name {
        None => numeral_at(text, n),
        Some(at) => Ok(at),
    }
}

/// Adds the parameters of a function, and counts those whose names are digits.
#[tactic(auto, unfolding(crate::specs::Sheet::named_params, crate::specs::Sheet::counted_params))]
fn add_params(
    alloc: Global,
    text: &[u8],
    params: &[(Ty, Option<Loc>)],
    f: &mut Func,
) -> Result<usize, AllocError>
    requires { length text.now ≤ 4194304 }
    ensures count { IfOk result (λ n. n ≡ counted_params text.now 0 params.now) }
    ensures params { OnOk result
        (f.new ≡ record f.old { params = f.old.params ++ named_params text.now 0 params.now }) }
{
    let mut left = params;
    let mut n = 0;
    'params: while let [(ty, name), rest @ ..] = left {
        let at = name_or(text, n, *name)?;
        let ty = ty.copy(alloc)?;
        f.add_param(ty, at)?;
        n += counted(text, *name);
        left = rest;
    }
    Ok(n)
}

/// Adds the parameters of the line that begins a function, and gives the name that an entry block without a label has.
fn add_head(alloc: Global, text: &[u8], head: &Head, f: &mut Func) -> Result<Loc, AllocError>
    requires { length text.now ≤ 4194304 }
    ensures entry { IfOk result (λ entry. entry ≡ entry_of text.now head.now) }
    ensures params { OnOk result
        (f.new ≡ record f.old { params = f.old.params ++ named_params text.now 0 head.now.params }) }
{
    let n = add_params(alloc, text, head.params.items(), f)?;
    numeral_at(text, n)
}

/// The function that a line begins, and the name that an entry block without a label has.
fn begin(alloc: Global, text: &[u8], head: &Head) -> Result<(Func, Loc), AllocError>
    requires { length text.now ≤ 4194304 }
    ensures { IfOk result (λ begun.
        (begun.0 ≡ headed text.now head.now) × (begun.1 ≡ entry_of text.now head.now)) }
{
    let ret = head.ret.copy(alloc)?;
    let mut f = Func::new(alloc, head.sym, ret);
    match add_head(alloc, text, head, &mut f) {
        Ok(entry) => Ok((f, entry)),
        Err(error) => {
            drop(f);
            Err(error)
        }
    }
}

/// Adds an entry block where there is no block yet.
fn add_entry(f: &mut Func, entry: Loc) -> Result<(), AllocError>
    ensures blocks { OnOk result (f.new ≡ record f.old { blocks = begun entry f.old.blocks }) }
    ensures some { OnOk result (0 < length f.new.blocks) }
{
    match f.blocks() {
        [] => f.add_block(entry)?,
        [_, ..] => {}
    }
    Ok(())
}

/// Adds an instruction to the last block.
fn add_inst(f: &mut Func, entry: Loc, inst: Inst) -> Result<(), AllocError>
    ensures { OnOk result (f.new ≡ record f.old { blocks = with_inst (begun entry f.old.blocks) inst }) }
{
    match add_entry(f, entry) {
        Ok(()) => {}
        Err(error) => {
            drop(inst);
            return Err(error);
        }
    }
    f.add_inst(inst)?;
    Ok(())
}

/// Adds what a line inside a function says, and tells whether it ends that one.
fn add_line(f: &mut Func, entry: Loc, line: BodyLine) -> Result<bool, AllocError>
    ensures { IfOk result (λ over. (tree : module_specs.ModuleParts)
        → with_body tree f.old entry line ≡ sheet_behind over tree f.new entry) }
{
    match line {
        BodyLine::Label(at) => {
            f.add_block(at)?;
            Ok(false)
        }
        BodyLine::Inst(inst) => {
            add_inst(f, entry, inst)?;
            Ok(false)
        }
        BodyLine::End => {
            add_entry(f, entry)?;
            Ok(true)
        }
    }
}

/// Adds the lines of a function up to its end.
fn add_lines(alloc: Global, lines: &mut Lines, f: &mut Func, entry: Loc) -> Result<(), ParseError>
    ensures found { OnOk result (FindsEnd lines.old lines.new f.old entry f.new) }
    ensures err { IfErr result (Told (TripsIn lines.old f.old entry)) }
{
    'lines: loop {
        let line = next_body(alloc, lines)?;
        if add_line(f, entry, line)? {
            return Ok(());
        }
    }
}

/// The function that a line begins, and its lines up to its end.
pub(crate) fn function(alloc: Global, lines: &mut Lines, head: &Head) -> Result<Func, ParseError>
    ensures found { IfOk result
        (FindsEnd lines.old lines.new (headed lines.old.text head.now) (entry_of lines.old.text head.now)) }
    ensures err { IfErr result
        (Told (TripsIn lines.old (headed lines.old.text head.now) (entry_of lines.old.text head.now))) }
{
    let (mut f, entry) = begin(alloc, lines.text(), head)?;
    match add_lines(alloc, lines, &mut f, entry) {
        Ok(()) => Ok(f),
        Err(error) => {
            drop(f);
            Err(error)
        }
    }
}
