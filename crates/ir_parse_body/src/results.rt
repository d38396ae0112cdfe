//! Lines of instructions with a result.
ghost use Rattle.std.specs.Prelude.{◌≡◌};
ghost use Rattle.ir_grammar.specs.Lines.{binary, comparison, selection, conversion, allocation, loading, updating, exchange, extraction};
ghost use Rattle.ir_grammar.specs.Words.{pred_word, rmw_word};
ghost use Rattle.ir_parse_parts.specs.Reads.{Gave, Filled};

use crate::operands::{comma_operand, comma_pointer, comma_same, finish, finish_aligned, pointer};
use ir_core::{BinOp, CastOp, Inst, Loc, Pred, RmwOp, Ty, Width};
use ir_grammar::FlagSet;
use ir_parse_parts::{Reader, Stop, word_table};

/// A binary operation (LLVM Language Reference, 'Binary Operations', 'Bitwise Binary Operations').
#[tactic(auto, unfolding(ir_grammar::specs::Lines::binary))]
pub(crate) fn binary(reader: &mut Reader, dst: Loc, op: BinOp) -> Result<Inst, Stop>
    ensures { Gave result reader.new ((binary dst op).reads reader.old) }
{
    let flags = reader.flags(FlagSet::Binary(op));
    let w = reader.width()?;
    let ty = Ty::Int(w);
    let a = reader.value(&ty)?;
    let b = comma_operand(reader, &ty)?;
    finish(
        reader,
        Inst::Bin {
            dst,
            op,
            flags,
            w,
            a,
            b,
        },
    )
}

fn pred_word(word: &[u8]) -> Option<Pred>
    ensures { result ≡ pred_word word.now }
{
    word_table!(word;
        b"eq" => Pred::Eq, b"ne" => Pred::Ne, b"ugt" => Pred::Ugt, b"uge" => Pred::Uge,
        b"ult" => Pred::Ult, b"ule" => Pred::Ule, b"sgt" => Pred::Sgt, b"sge" => Pred::Sge,
        b"slt" => Pred::Slt, b"sle" => Pred::Sle)
}

/// LLVM Language Reference, 'icmp' Instruction.
#[tactic(auto, unfolding(ir_grammar::specs::Lines::comparison))]
pub(crate) fn comparison(reader: &mut Reader, dst: Loc) -> Result<Inst, Stop>
    ensures { Gave result reader.new ((comparison dst).reads reader.old) }
{
    reader.flags(FlagSet::Icmp);
    let found = reader.word().and_then(pred_word);
    let pred = reader.take(found)?;
    let ty = reader.scalar()?;
    let a = reader.value(&ty)?;
    let b = comma_operand(reader, &ty)?;
    finish(
        reader,
        Inst::Cmp {
            dst,
            pred,
            ty,
            a,
            b,
        },
    )
}

/// LLVM Language Reference, 'select' Instruction.
#[tactic(auto, unfolding(ir_grammar::specs::Lines::selection))]
pub(crate) fn selection(reader: &mut Reader, dst: Loc) -> Result<Inst, Stop>
    ensures { Gave result reader.new ((selection dst).reads reader.old) }
{
    reader.keyword(b"i1")?;
    let cond = reader.value(&Ty::Int(Width::W1))?;
    reader.punct(b',')?;
    let ty = reader.scalar()?;
    let a = reader.value(&ty)?;
    let b = comma_same(reader, &ty)?;
    finish(
        reader,
        Inst::Select {
            dst,
            cond,
            ty,
            a,
            b,
        },
    )
}

/// A conversion (LLVM Language Reference, 'Conversion Operations').
#[tactic(auto, unfolding(ir_grammar::specs::Lines::conversion))]
pub(crate) fn conversion(reader: &mut Reader, dst: Loc, op: CastOp) -> Result<Inst, Stop>
    ensures { Gave result reader.new ((conversion dst op).reads reader.old) }
{
    reader.flags(FlagSet::Cast(op));
    let from = reader.any_type()?;
    let a = reader.value(&from)?;
    reader.keyword(b"to")?;
    let to = reader.any_type()?;
    finish(
        reader,
        Inst::Cast {
            dst,
            op,
            from,
            a,
            to,
        },
    )
}

/// LLVM Language Reference, 'alloca' Instruction.
#[tactic(auto, unfolding(ir_grammar::specs::Lines::allocation))]
pub(crate) fn allocation(reader: &mut Reader, dst: Loc) -> Result<Inst, Stop>
    ensures { Gave result reader.new ((allocation dst).reads reader.old) }
{
    let ty = reader.any_type()?;
    finish_aligned(reader, Inst::Alloca { dst, ty })
}

/// LLVM Language Reference, 'load' Instruction.
#[tactic(auto, unfolding(ir_grammar::specs::Lines::loading))]
pub(crate) fn loading(reader: &mut Reader, dst: Loc) -> Result<Inst, Stop>
    ensures { Gave result reader.new ((loading dst).reads reader.old) }
{
    let atomic = reader.optional_word(b"atomic");
    let ty = reader.memory_type()?;
    let ptr = comma_pointer(reader)?;
    reader.order_of(atomic)?;
    finish_aligned(
        reader,
        Inst::Load {
            dst,
            ty,
            ptr,
            atomic,
        },
    )
}

fn rmw_word(word: &[u8]) -> Option<RmwOp>
    ensures { result ≡ rmw_word word.now }
{
    word_table!(word;
        b"xchg" => RmwOp::Xchg, b"add" => RmwOp::Add, b"sub" => RmwOp::Sub, b"and" => RmwOp::And,
        b"or" => RmwOp::Or, b"xor" => RmwOp::Xor, b"nand" => RmwOp::Nand, b"max" => RmwOp::Max,
        b"min" => RmwOp::Min, b"umax" => RmwOp::Umax, b"umin" => RmwOp::Umin)
}

/// LLVM Language Reference, 'atomicrmw' Instruction.
#[tactic(auto, unfolding(ir_grammar::specs::Lines::updating))]
pub(crate) fn updating(reader: &mut Reader, dst: Loc) -> Result<Inst, Stop>
    ensures { Gave result reader.new ((updating dst).reads reader.old) }
{
    let found = reader.word().and_then(rmw_word);
    let op = reader.take(found)?;
    let ptr = pointer(reader)?;
    reader.punct(b',')?;
    let ty = reader.rmw_type(op)?;
    let val = reader.value(&ty)?;
    reader.order()?;
    finish_aligned(
        reader,
        Inst::Rmw {
            dst,
            op,
            ptr,
            ty,
            val,
        },
    )
}

/// LLVM Language Reference, 'cmpxchg' Instruction.
#[tactic(auto, unfolding(ir_grammar::specs::Lines::exchange))]
pub(crate) fn exchange(reader: &mut Reader, dst: Loc) -> Result<Inst, Stop>
    ensures { Gave result reader.new ((exchange dst).reads reader.old) }
{
    reader.optional_word(b"weak");
    let ptr = pointer(reader)?;
    reader.punct(b',')?;
    let ty = reader.memory_type()?;
    let old = reader.value(&ty)?;
    let new = comma_same(reader, &ty)?;
    reader.order()?;
    reader.order()?;
    finish_aligned(
        reader,
        Inst::CmpXchg {
            dst,
            ptr,
            ty,
            old,
            new,
        },
    )
}

/// `extractvalue` of the pair of a `cmpxchg` (LLVM Language Reference, 'extractvalue' Instruction).
#[tactic(auto, unfolding(ir_grammar::specs::Lines::extraction))]
pub(crate) fn extraction(reader: &mut Reader, dst: Loc) -> Result<Inst, Stop>
    ensures { Gave result reader.new ((extraction dst).reads reader.old) }
{
    reader.punct(b'{')?;
    let elem = reader.any_type()?;
    reader.punct(b',')?;
    reader.keyword(b"i1")?;
    reader.punct(b'}')?;
    let pair = reader.local()?;
    reader.punct(b',')?;
    let index = reader.bit()?;
    finish(
        reader,
        Inst::Extract {
            dst,
            elem,
            pair,
            index,
        },
    )
}
