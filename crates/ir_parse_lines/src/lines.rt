//! Whole lines.
ghost use Rattle.std.specs.Prelude.{◌≡◌, ◌≤◌, ℕ, length, IfOk, IsErrOf};
ghost use Rattle.ir_core.specs.Tokens.{AreWithin};
ghost use Rattle.ir_grammar.specs.Fitting.{IsLine, IsUnfit};
ghost use Rattle.ir_grammar.specs.Tokens.{tokens_of};
ghost use Rattle.ir_grammar.specs.Top.{top_line, body_line};
ghost use Rattle.ir_parse_parts.specs.Reads.{Gave};
ghost use Rattle.ir_parse_parts.specs.declared.stops.LineError.TheVariants.{Unfit};

use crate::body::body_line;
use crate::functions::word_line;
use crate::globals::{global_line, type_line};
use ir_core::Token;
use ir_grammar::{BodyLine, TopLine};
use ir_parse_parts::{LineError, Reader, Stop, answered};
use std::alloc::Global;

#[tactic(auto, unfolding(ir_grammar::specs::Top::top_line))]
fn top_line(reader: &mut Reader) -> Result<TopLine, Stop>
    ensures { Gave result reader.new (top_line.reads reader.old) }
{
    if reader.at_local() {
        return type_line(reader);
    }
    if reader.at_symbol() {
        return global_line(reader);
    }
    word_line(reader)
}

/// What the tokens of a line outside functions stand for (LLVM Language Reference, 'Module Structure'). Names are
/// told by the places in `line` where they begin.
pub fn read_top_line(alloc: Global, line: &[u8], tokens: &[Token]) -> Result<TopLine, LineError>
    requires short { length line.now ≤ 4194304 }
    requires within { AreWithin (length line.now) tokens.now }
    ensures line { IfOk result (IsLine top_line.means (tokens_of line.now tokens.now)) }
    ensures unfit { (k : ℕ) → IsErrOf result (Unfit k) → IsUnfit top_line.means (tokens_of line.now tokens.now) k }
{
    let mut reader = Reader::new(alloc, line, tokens);
    let fitting = reader.len();
    answered(top_line(&mut reader), fitting, tokens.len())
}

/// What the tokens of a line inside a function stand for (LLVM Language Reference, 'Functions'). Names are told by
/// the places in `line` where they begin.
pub fn read_body_line(alloc: Global, line: &[u8], tokens: &[Token]) -> Result<BodyLine, LineError>
    requires short { length line.now ≤ 4194304 }
    requires within { AreWithin (length line.now) tokens.now }
    ensures line { IfOk result (IsLine body_line.means (tokens_of line.now tokens.now)) }
    ensures unfit { (k : ℕ) → IsErrOf result (Unfit k) → IsUnfit body_line.means (tokens_of line.now tokens.now) k }
{
    let mut reader = Reader::new(alloc, line, tokens);
    let fitting = reader.len();
    answered(body_line(&mut reader), fitting, tokens.len())
}
