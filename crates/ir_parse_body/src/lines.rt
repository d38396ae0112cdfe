//! Instruction lines by their opcodes.
ghost use Rattle.std.specs.Prelude.{◌≡◌};
ghost use Rattle.ir_grammar.specs.Words.{binop_word, cast_word, other_opcode_word, result_opcode_word, plain_opcode_word};
ghost use Rattle.ir_grammar.specs.Lines.{line_with, line_without, result_line, plain_line, instruction};
ghost use Rattle.ir_parse_parts.specs.Reads.{Gave};

use crate::lists::{call, element, marked_call, phi, switching};
use crate::operands::finish;
use crate::plain::{branch, fencing, returning, storing};
use crate::results::{
    allocation, binary, comparison, conversion, exchange, extraction, loading, selection, updating,
};
use ir_core::{BinOp, CastOp, Inst, Loc};
use ir_grammar::{PlainOpcode, ResultOpcode};
use ir_parse_parts::{Reader, Stop, word_table};

fn binop_word(word: &[u8]) -> Option<BinOp>
    ensures { result ≡ binop_word word.now }
{
    word_table!(word;
        b"add" => BinOp::Add, b"sub" => BinOp::Sub, b"mul" => BinOp::Mul, b"udiv" => BinOp::Udiv,
        b"sdiv" => BinOp::Sdiv, b"urem" => BinOp::Urem, b"srem" => BinOp::Srem, b"shl" => BinOp::Shl,
        b"lshr" => BinOp::Lshr, b"ashr" => BinOp::Ashr, b"and" => BinOp::And, b"or" => BinOp::Or,
        b"xor" => BinOp::Xor)
}

fn cast_word(word: &[u8]) -> Option<CastOp>
    ensures { result ≡ cast_word word.now }
{
    word_table!(word;
        b"zext" => CastOp::Zext, b"sext" => CastOp::Sext, b"trunc" => CastOp::Trunc,
        b"ptrtoint" => CastOp::Ptrtoint, b"inttoptr" => CastOp::Inttoptr)
}

/// The opcodes beside operators and casts.
fn other_opcode_word(word: &[u8]) -> Option<ResultOpcode>
    ensures { result ≡ other_opcode_word word.now }
{
    word_table!(word;
        b"icmp" => ResultOpcode::Icmp, b"select" => ResultOpcode::Select,
        b"getelementptr" => ResultOpcode::Gep, b"alloca" => ResultOpcode::Alloca,
        b"load" => ResultOpcode::Load, b"atomicrmw" => ResultOpcode::Rmw,
        b"cmpxchg" => ResultOpcode::CmpXchg, b"extractvalue" => ResultOpcode::Extract,
        b"call" => ResultOpcode::Call, b"tail" => ResultOpcode::MarkedCall,
        b"notail" => ResultOpcode::MarkedCall, b"phi" => ResultOpcode::Phi)
}

fn result_opcode_word(word: &[u8]) -> Option<ResultOpcode>
    ensures { result ≡ result_opcode_word word.now }
{
    match binop_word(word) {
        Some(op) => Some(ResultOpcode::Bin(op)),
        None => match cast_word(word) {
            Some(op) => Some(ResultOpcode::Cast(op)),
            None => other_opcode_word(word),
        },
    }
}

fn plain_opcode_word(word: &[u8]) -> Option<PlainOpcode>
    ensures { result ≡ plain_opcode_word word.now }
{
    word_table!(word;
        b"store" => PlainOpcode::Store, b"fence" => PlainOpcode::Fence,
        b"call" => PlainOpcode::Call, b"tail" => PlainOpcode::MarkedCall,
        b"notail" => PlainOpcode::MarkedCall, b"br" => PlainOpcode::Br,
        b"switch" => PlainOpcode::Switch, b"ret" => PlainOpcode::Ret,
        b"unreachable" => PlainOpcode::Unreachable)
}

/// The rest of a line behind its opcode, with the register that takes the result.
fn line_with(reader: &mut Reader, dst: Loc, opcode: ResultOpcode) -> Result<Inst, Stop>
    ensures { Gave result reader.new ((line_with dst opcode).reads reader.old) }
{
    match opcode {
        ResultOpcode::Bin(op) => binary(reader, dst, op),
        ResultOpcode::Icmp => comparison(reader, dst),
        ResultOpcode::Select => selection(reader, dst),
        ResultOpcode::Cast(op) => conversion(reader, dst, op),
        ResultOpcode::Gep => element(reader, dst),
        ResultOpcode::Alloca => allocation(reader, dst),
        ResultOpcode::Load => loading(reader, dst),
        ResultOpcode::Rmw => updating(reader, dst),
        ResultOpcode::CmpXchg => exchange(reader, dst),
        ResultOpcode::Extract => extraction(reader, dst),
        ResultOpcode::Call => call(reader, Some(dst)),
        ResultOpcode::MarkedCall => marked_call(reader, Some(dst)),
        ResultOpcode::Phi => phi(reader, dst),
    }
}

/// The rest of a line behind its opcode, where no register takes a result.
fn line_without(reader: &mut Reader, opcode: PlainOpcode) -> Result<Inst, Stop>
    ensures { Gave result reader.new ((line_without opcode).reads reader.old) }
{
    match opcode {
        PlainOpcode::Store => storing(reader),
        PlainOpcode::Fence => fencing(reader),
        PlainOpcode::Call => call(reader, None),
        PlainOpcode::MarkedCall => marked_call(reader, None),
        PlainOpcode::Br => branch(reader),
        PlainOpcode::Switch => switching(reader),
        PlainOpcode::Ret => returning(reader),
        PlainOpcode::Unreachable => finish(reader, Inst::Unreachable),
    }
}

/// `%x = ..`
#[tactic(auto, unfolding(ir_grammar::specs::Lines::result_line))]
fn result_line(reader: &mut Reader) -> Result<Inst, Stop>
    ensures { Gave result reader.new (result_line.reads reader.old) }
{
    let dst = reader.local()?;
    reader.punct(b'=')?;
    let found = reader.word().and_then(result_opcode_word);
    let opcode = reader.take(found)?;
    line_with(reader, dst, opcode)
}

fn plain_line(reader: &mut Reader) -> Result<Inst, Stop>
    ensures { Gave result reader.new (plain_line.reads reader.old) }
{
    let found = reader.word().and_then(plain_opcode_word);
    let opcode = reader.take(found)?;
    line_without(reader, opcode)
}

/// An instruction line: the reader goes to its end.
#[tactic(auto, unfolding(ir_grammar::specs::Lines::instruction))]
pub fn instruction(reader: &mut Reader) -> Result<Inst, Stop>
    ensures { Gave result reader.new (instruction.reads reader.old) }
{
    if reader.at_local() {
        return result_line(reader);
    }
    plain_line(reader)
}
