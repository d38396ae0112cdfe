//! An instruction line: what its tokens stand for, or its first token that doesn't fit.
ghost use Rattle.std.specs.Prelude.{◌≡◌, ◌≤◌, ℕ, length, IfOk, OnErr, IsErrOf};
ghost use Rattle.ir_core.specs.Tokens.{AreWithin};
ghost use Rattle.ir_grammar.specs.Tokens.{tokens_of};
ghost use Rattle.ir_grammar.specs.Lines.{instruction};
ghost use Rattle.ir_grammar.specs.Fitting.{IsInstruction, IsUnfit};
ghost use Rattle.ir_parse_body.specs.Instruction.{StandsFor, MayHaveNames};
ghost use Rattle.ir_parse_parts.specs.declared.stops.LineError.TheVariants.{Unfit};

use crate::lines::instruction;
use ir_core::{Func, Inst, Module, Token};
use ir_numbering::numbered;
use ir_parse_parts::{LineError, Reader, answered};
use std::alloc::Global;

/// The instruction that the tokens of a line stand for, with the places of names in place of their numbers.
pub fn read_inst(alloc: Global, line: &[u8], tokens: &[Token]) -> Result<Inst, LineError>
    requires short { length line.now ≤ 4194304 }
    requires within { AreWithin (length line.now) tokens.now }
    ensures inst { IfOk result (IsInstruction (tokens_of line.now tokens.now)) }
    ensures unfit { (k : ℕ) → IsErrOf result (Unfit k) → IsUnfit instruction.means (tokens_of line.now tokens.now) k }
{
    let mut reader = Reader::new(alloc, line, tokens);
    let fitting = reader.len();
    answered(instruction(&mut reader), fitting, tokens.len())
}

/// The instruction that the tokens of a line inside a function stand for (LLVM Language Reference, 'Instruction
/// Reference'). Its names are numbered by the tables of the module and of the function, which they join where
/// they are new, in the order in which the line writes them.
///
/// `line` is the text that the places of the tokens count from: one line, or the lines of one `switch`.
/// After `Unfit` nothing has changed. For want of memory the tables may have the first of these names, and nothing else has changed.
pub fn parse_inst(
    alloc: Global,
    m: &mut Module,
    f: &mut Func,
    line: &[u8],
    tokens: &[Token],
) -> Result<Inst, LineError>
    requires short { length line.now ≤ 4194304 }
    requires within { AreWithin (length line.now) tokens.now }
    ensures inst { IfOk result (StandsFor line.now tokens.now m.old f.old m.new f.new) }
    ensures unfit { (k : ℕ) → IsErrOf result (Unfit k) → IsUnfit instruction.means (tokens_of line.now tokens.now) k }
    ensures unchanged { (k : ℕ) → IsErrOf result (Unfit k) → (m.new ≡ m.old) × (f.new ≡ f.old) }
    ensures err { OnErr result (MayHaveNames line.now tokens.now m.old f.old m.new f.new) }
{
    let tree = read_inst(alloc, line, tokens)?;
    let inst = numbered(&tree, line, m, f, alloc);
    drop(tree);
    Ok(inst?)
}
