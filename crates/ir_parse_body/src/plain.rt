//! Lines of instructions without a result.
ghost use Rattle.std.specs.Prelude.{◌≡◌};
ghost use Rattle.ir_grammar.specs.Lines.{storing, fencing, jump, conditional, branch, plain_return, value_return, returning};
ghost use Rattle.ir_parse_parts.specs.Reads.{Gave};

use crate::operands::{comma_label, comma_pointer, finish, finish_aligned, label};
use ir_core::{Inst, Ty, Width};
use ir_parse_parts::{Reader, Stop};

/// LLVM Language Reference, 'store' Instruction.
#[tactic(auto, unfolding(ir_grammar::specs::Lines::storing))]
pub(crate) fn storing(reader: &mut Reader) -> Result<Inst, Stop>
    ensures { Gave result reader.new (storing.reads reader.old) }
{
    let atomic = reader.optional_word(b"atomic");
    let ty = reader.memory_type()?;
    let val = reader.value(&ty)?;
    let ptr = comma_pointer(reader)?;
    reader.order_of(atomic)?;
    finish_aligned(
        reader,
        Inst::Store {
            ty,
            val,
            ptr,
            atomic,
        },
    )
}

/// LLVM Language Reference, 'fence' Instruction.
#[tactic(auto, unfolding(ir_grammar::specs::Lines::fencing))]
pub(crate) fn fencing(reader: &mut Reader) -> Result<Inst, Stop>
    ensures { Gave result reader.new (fencing.reads reader.old) }
{
    reader.order()?;
    finish(reader, Inst::Fence)
}

fn jump(reader: &mut Reader) -> Result<Inst, Stop>
    ensures { Gave result reader.new (jump.reads reader.old) }
{
    let to = label(reader)?;
    finish(reader, Inst::Br { to })
}

fn conditional(reader: &mut Reader) -> Result<Inst, Stop>
    ensures { Gave result reader.new (conditional.reads reader.old) }
{
    reader.keyword(b"i1")?;
    let cond = reader.value(&Ty::Int(Width::W1))?;
    let yes = comma_label(reader)?;
    let no = comma_label(reader)?;
    finish(reader, Inst::CondBr { cond, yes, no })
}

/// LLVM Language Reference, 'br' Instruction.
#[tactic(auto, unfolding(ir_grammar::specs::Lines::branch))]
pub(crate) fn branch(reader: &mut Reader) -> Result<Inst, Stop>
    ensures { Gave result reader.new (branch.reads reader.old) }
{
    if reader.at_word(b"label") {
        return jump(reader);
    }
    conditional(reader)
}

fn plain_return(reader: &mut Reader) -> Result<Inst, Stop>
    ensures { Gave result reader.new (plain_return.reads reader.old) }
{
    reader.keyword(b"void")?;
    let ty = Ty::Void;
    finish(reader, Inst::Ret { ty, val: None })
}

fn value_return(reader: &mut Reader) -> Result<Inst, Stop>
    ensures { Gave result reader.new (value_return.reads reader.old) }
{
    let ty = reader.any_type()?;
    let val = reader.value(&ty)?;
    finish(reader, Inst::Ret { ty, val: Some(val) })
}

/// LLVM Language Reference, 'ret' Instruction.
#[tactic(auto, unfolding(ir_grammar::specs::Lines::returning))]
pub(crate) fn returning(reader: &mut Reader) -> Result<Inst, Stop>
    ensures { Gave result reader.new (returning.reads reader.old) }
{
    if reader.at_word(b"void") {
        return plain_return(reader);
    }
    value_return(reader)
}
