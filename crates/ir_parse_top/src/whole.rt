//! Whole texts.
ghost use Rattle.std.specs.Prelude.{◌≡◌, ◌≤◌, ◌-◌, ◌++◌, ℕ, List, length, replicate, IfOk, IfErr, IsErrOf, OnOk};
ghost use Rattle.ir_core.specs.Module.{empty_module};
ghost use Rattle.ir_numbering.specs.Numbers.{numbered_module};
ghost use Rattle.ir_parse_top.specs.Sheet.{Outside, with_top, numeral, with_numerals};
ghost use Rattle.ir_parse_top.specs.Text.{Text, Unfit, numerals_for, IsOfText};
ghost use Rattle.ir_parse_top.specs.Laws.{instruction_count};
ghost use Rattle.ir_parse_top.specs.Text as texts;
ghost use Rattle.ir_parse_top.specs.Reading.{Follows, FindsAll, TripsFrom, Told};
ghost use Rattle.ir_parse_top.specs.declared.errors.ParseError.TheVariants.{Refused, BadByte};
ghost use Rattle.ir_parse_top.specs.declared.errors.ParseError.TheVariants as errors;
ghost use Rattle.ir_grammar.specs.declared.trees.TopLine.TheVariants as tops;

use crate::ParseError;
use crate::bodies::function;
use crate::cursor::Lines;
use crate::outside::next_top;
use ir_core::{Func, Module};
use ir_grammar::{Head, TopLine};
use ir_numbering::numbered_module;
use std::alloc::{AllocError, Global};

/// Adds the function that a line begins, with its lines.
fn add_function(
    alloc: Global,
    lines: &mut Lines,
    tree: &mut Module,
    head: Head,
) -> Result<(), ParseError>
    ensures found { OnOk result (Follows lines.old lines.new tree.old (tops.Define head) tree.new) }
    ensures err { IfErr result (Told (TripsFrom lines.old (with_top lines.old.text tree.old (tops.Define head)))) }
{
    let f = function(alloc, lines, &head);
    drop(head);
    tree.add_func(f?)?;
    Ok(())
}

/// Adds what a line outside functions says, with the lines of the function that it begins.
fn add_top(
    alloc: Global,
    lines: &mut Lines,
    tree: &mut Module,
    line: TopLine,
) -> Result<(), ParseError>
    ensures found { OnOk result (Follows lines.old lines.new tree.old line tree.new) }
    ensures err { IfErr result (Told (TripsFrom lines.old (with_top lines.old.text tree.old line))) }
{
    match line {
        TopLine::Type(id, ty) => tree.add_type(id, ty)?,
        TopLine::Global(global) => tree.add_global(global)?,
        TopLine::Declare(declare) => tree.add_declare(declare)?,
        TopLine::Define(head) => add_function(alloc, lines, tree, head)?,
    }
    Ok(())
}

/// Adds what all lines say that are left.
fn add_all(alloc: Global, lines: &mut Lines, tree: &mut Module) -> Result<(), ParseError>
    ensures found { OnOk result (FindsAll lines.old tree.old tree.new) }
    ensures err { IfErr result (Told (TripsFrom lines.old (Outside tree.old))) }
{
    'lines: while let Some(line) = next_top(alloc, lines)? {
        add_top(alloc, lines, tree, line)?;
    }
    Ok(())
}

/// How many numerals the functions of a tree may need.
fn numerals_for(funcs: &[Func]) -> usize
    ensures { result ≡ numerals_for funcs.now }
{
    let mut most = 0;
    for f in funcs {
        most = most.max(f.params().len() + 1);
    }
    most
}

/// Adds blanks up to eight bytes, where so many bytes stand already.
fn add_blanks(text: &mut Vec<u8>, len: usize) -> Result<(), AllocError>
    ensures { OnOk result (text.new.items ≡ text.old.items ++ replicate (8 - len) 32) }
{
    for _blank in len..8 {
        text.push(b' ')?;
    }
    Ok(())
}

/// Adds a number's digits, with blanks behind them up to eight bytes.
#[tactic(auto, unfolding(crate::specs::Sheet::numeral))]
fn add_numeral(text: &mut Vec<u8>, n: usize) -> Result<(), AllocError>
    ensures { OnOk result (text.new.items ≡ text.old.items ++ numeral n) }
{
    let mut buffer = itoa::Buffer::new();
    let digits = buffer.format(n).as_bytes();
    text.extend_from_slice(digits)?;
    add_blanks(text, digits.len())?;
    Ok(())
}

/// The text with so many numerals behind it.
fn with_numerals(alloc: Global, count: usize, text: &[u8]) -> Result<Vec<u8>, AllocError>
    ensures { IfOk result (λ bytes. bytes.items ≡ with_numerals count text.now) }
{
    let mut bytes = Vec::from_slice(alloc, text)?;
    bytes.push(b'\n')?;
    for n in 0..count {
        add_numeral(&mut bytes, n)?;
    }
    Ok(bytes)
}

/// The module of a text's tree.
fn numbered_tree(alloc: Global, text: &[u8], tree: &Module) -> Result<Module, ParseError>
    ensures module { IfOk result (λ m.
        m ≡ numbered_module (with_numerals (numerals_for tree.now.funcs) text.now) tree.now) }
    ensures err { IfErr result (λ e. e ≡ errors.NoMemory) }
{
    let bytes = with_numerals(alloc, numerals_for(tree.funcs()), text)?;
    let m = numbered_module(tree, &bytes, alloc)?;
    Ok(m)
}

/// The module of a text, whose tree is read into an empty one.
fn read_module(alloc: Global, text: &[u8], tree: &mut Module) -> Result<Module, ParseError>
    requires short { length text.now ≤ 4194304 }
    requires none { tree.old ≡ empty_module }
    ensures module { IfOk result (Text text.now) }
    ensures err { IfErr result (Told (Unfit text.now)) }
{
    let mut lines = Lines::new(text);
    add_all(alloc, &mut lines, tree)?;
    numbered_tree(alloc, text, tree)
}

/// The module that a text stands for (LLVM Language Reference, 'Module Structure'), or its first line that fits no form
/// at its place. A line's bad byte comes before its unfit token.
///
/// Names are numbered from 0: those of types and the `@` names by first sight in the order types, globals, external
/// functions, functions; registers and labels of a function by their first definitions (parameters, then block by block
/// the label and the results), and then by first sight. The module has at most 4,194,304 instructions.
pub fn parse_module(alloc: Global, bytes: &[u8]) -> Result<Module, ParseError>
    requires { length bytes.now ≤ 4194304 }
    ensures module { IfOk result (Text bytes.now) }
    ensures refused { (line : ℕ) (word : List ℕ)
        → IsErrOf result (Refused line word) → Unfit bytes.now line (texts.BadWord word) }
    ensures bad_byte { (line col : ℕ)
        → IsErrOf result (BadByte line col) → Unfit bytes.now line (texts.BadByte col) }
    ensures of_text { IfOk result IsOfText }
    ensures small { IfOk result (λ m. instruction_count m ≤ 4194304) }
{
    let mut tree = Module::new(alloc);
    let result = read_module(alloc, bytes, &mut tree);
    drop(tree);
    result
}
