//! Operands of instructions, and how their lines end.
ghost use Rattle.std.specs.Prelude.{◌≡◌};
ghost use Rattle.ir_grammar.specs.Tails.{finished, aligned};
ghost use Rattle.ir_grammar.specs.Lines.{pointer, comma_pointer, comma_operand, comma_same, label, comma_label, index};
ghost use Rattle.ir_parse_parts.specs.Reads.{Gave, Filled};
ghost use Rattle.ir_core.specs.declared.types.Ty.TheVariants as types;

use ir_core::{GepIdx, Inst, Loc, Ty, Val, Width};
use ir_parse_parts::{Reader, Stop};

/// `ptr V`
#[tactic(auto, unfolding(ir_grammar::specs::Lines::pointer))]
pub(crate) fn pointer(reader: &mut Reader) -> Result<Val, Stop>
    ensures { Gave result reader.new (pointer.reads reader.old) }
{
    reader.keyword(b"ptr")?;
    reader.value(&Ty::Ptr)
}

/// `, ptr V`
#[tactic(auto, unfolding(ir_grammar::specs::Lines::comma_pointer))]
pub(crate) fn comma_pointer(reader: &mut Reader) -> Result<Val, Stop>
    ensures { Gave result reader.new (comma_pointer.reads reader.old) }
{
    reader.punct(b',')?;
    pointer(reader)
}

/// `, V`
#[tactic(auto, unfolding(ir_grammar::specs::Lines::comma_operand))]
pub(crate) fn comma_operand(reader: &mut Reader, ty: &Ty) -> Result<Val, Stop>
    ensures { Gave result reader.new ((comma_operand ty.now).reads reader.old) }
{
    reader.punct(b',')?;
    reader.value(ty)
}

/// `, T V`, where T is the type again.
#[tactic(auto, unfolding(ir_grammar::specs::Lines::comma_same))]
pub(crate) fn comma_same(reader: &mut Reader, ty: &Ty) -> Result<Val, Stop>
    ensures { Gave result reader.new ((comma_same ty.now).reads reader.old) }
{
    reader.punct(b',')?;
    reader.same_type(ty)?;
    reader.value(ty)
}

/// `label %L`
#[tactic(auto, unfolding(ir_grammar::specs::Lines::label))]
pub(crate) fn label(reader: &mut Reader) -> Result<Loc, Stop>
    ensures { Gave result reader.new (label.reads reader.old) }
{
    reader.keyword(b"label")?;
    reader.local()
}

/// `, label %L`
#[tactic(auto, unfolding(ir_grammar::specs::Lines::comma_label))]
pub(crate) fn comma_label(reader: &mut Reader) -> Result<Loc, Stop>
    ensures { Gave result reader.new (comma_label.reads reader.old) }
{
    reader.punct(b',')?;
    label(reader)
}

/// `, iN V`
#[tactic(auto, unfolding(ir_grammar::specs::Lines::index))]
pub(crate) fn index(reader: &mut Reader) -> Result<(Width, Val), Stop>
    ensures { Gave result reader.new (index.reads reader.old) }
{
    reader.punct(b',')?;
    let width = reader.width()?;
    let value = reader.value(&Ty::Int(width))?;
    Ok((width, value))
}

/// The instruction, where its line ends here.
pub(crate) fn finish(reader: &mut Reader, inst: Inst) -> Result<Inst, Stop>
    ensures { Gave result reader.new ((finished inst).reads reader.old) }
{
    match reader.tail() {
        Ok(()) => Ok(inst),
        Err(stop) => {
            drop(inst);
            Err(stop)
        }
    }
}

/// The instruction, where its line ends here or behind an alignment.
pub(crate) fn finish_aligned(reader: &mut Reader, inst: Inst) -> Result<Inst, Stop>
    ensures { Gave result reader.new ((aligned inst).reads reader.old) }
{
    match reader.align_tail() {
        Ok(()) => Ok(inst),
        Err(stop) => {
            drop(inst);
            Err(stop)
        }
    }
}
