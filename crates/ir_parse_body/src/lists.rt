//! Lines with lists of operands: `getelementptr`, `phi`, calls and `switch`.
ghost use Rattle.std.specs.Prelude.{◌≡◌, [], ◌∷◌};
ghost use Rattle.std.specs.Option.{option_and_then};
ghost use Rattle.ir_grammar.specs.Tokens.{close_paren};
ghost use Rattle.ir_grammar.specs.Types.{listed, more_listed};
ghost use Rattle.ir_grammar.specs.Lines.{more_indices, element, arm, more_arms, phi, is_callee, callee_of, callee, argument, call_operands, call, marked_call, arm_of_switch, more_cases, switch_cases, switching};
ghost use Rattle.ir_parse_parts.specs.Views.{tok_view};
ghost use Rattle.ir_parse_parts.specs.Reads.{Gave, Filled};

use crate::operands::{comma_label, comma_pointer, finish, index};
use ir_core::{Arms, Cases, GepIdx, Inst, Loc, Seq, Sym, TokKind, Ty, Val, Vals, Width};
use ir_grammar::FlagSet;
use ir_parse_parts::{Reader, Stop, Tok};

fn more_indices(reader: &mut Reader, indices: &mut GepIdx) -> Result<(), Stop>
    ensures { Filled result indices.new reader.new ((more_indices indices.old).reads reader.old) }
{
    'more: while reader.goes_on() {
        indices.push(index(reader)?)?;
    }
    Ok(())
}

/// LLVM Language Reference, 'getelementptr' Instruction.
#[tactic(auto, unfolding(ir_grammar::specs::Lines::element))]
pub(crate) fn element(reader: &mut Reader, dst: Loc) -> Result<Inst, Stop>
    ensures { Gave result reader.new ((element dst).reads reader.old) }
{
    reader.flags(FlagSet::Gep);
    let base = reader.any_type()?;
    let ptr = comma_pointer(reader)?;
    let mut indices = Seq::new(reader.alloc());
    indices.push(index(reader)?)?;
    more_indices(reader, &mut indices)?;
    finish(
        reader,
        Inst::Gep {
            dst,
            base,
            ptr,
            index: indices,
        },
    )
}

/// `[ V , %L ]`
#[tactic(auto, unfolding(ir_grammar::specs::Lines::arm))]
fn arm(reader: &mut Reader, ty: &Ty) -> Result<(Val, Loc), Stop>
    ensures { Gave result reader.new ((arm ty.now).reads reader.old) }
{
    reader.punct(b'[')?;
    let value = reader.value(ty)?;
    reader.punct(b',')?;
    let from = reader.local()?;
    reader.punct(b']')?;
    Ok((value, from))
}

fn more_arms(reader: &mut Reader, ty: &Ty, arms: &mut Arms) -> Result<(), Stop>
    ensures { Filled result arms.new reader.new ((more_arms ty.now arms.old).reads reader.old) }
{
    'more: while reader.goes_on() {
        reader.punct(b',')?;
        arms.push(arm(reader, ty)?)?;
    }
    Ok(())
}

/// LLVM Language Reference, 'phi' Instruction.
#[tactic(auto, unfolding(ir_grammar::specs::Lines::phi))]
pub(crate) fn phi(reader: &mut Reader, dst: Loc) -> Result<Inst, Stop>
    ensures { Gave result reader.new ((phi dst).reads reader.old) }
{
    let ty = reader.scalar()?;
    let mut arms = Seq::new(reader.alloc());
    arms.push(arm(reader, &ty)?)?;
    more_arms(reader, &ty, &mut arms)?;
    finish(reader, Inst::Phi { dst, ty, arms })
}

fn is_callee(name: &[u8]) -> bool
    ensures { result ≡ is_callee name.now }
{
    !(name.starts_with(b"@llvm.dbg.") || name.starts_with(b"@llvm.lifetime."))
}

fn callee_of(tok: &Tok) -> Option<Sym>
    ensures { result ≡ callee_of (tok_view tok.now) }
{
    match tok.kind {
        TokKind::At if is_callee(tok.text) => Some(Sym(tok.name_place())),
        _ => None,
    }
}

fn callee(reader: &mut Reader) -> Result<Sym, Stop>
    ensures { Gave result reader.new (callee.reads reader.old) }
{
    let found = match reader.peek() {
        Some(tok) => callee_of(&tok),
        None => None,
    };
    reader.take(found)
}

#[tactic(auto, unfolding(ir_grammar::specs::Lines::argument))]
fn argument(reader: &mut Reader) -> Result<(Ty, Val), Stop>
    ensures { Gave result reader.new (argument.reads reader.old) }
{
    let ty = reader.any_type()?;
    reader.attributes(false)?;
    let value = reader.value(&ty)?;
    Ok((ty, value))
}

fn more_arguments(reader: &mut Reader, arguments: &mut Vals) -> Result<(), Stop>
    ensures { Filled result arguments.new reader.new
        ((more_listed arguments.old argument).reads reader.old) }
{
    'more: while reader.at_punct(b',') {
        reader.punct(b',')?;
        arguments.push(argument(reader)?)?;
    }
    Ok(())
}

fn arguments(reader: &mut Reader) -> Result<Vals, Stop>
    ensures { Gave result reader.new ((listed close_paren argument).reads reader.old) }
{
    let mut arguments = Seq::new(reader.alloc());
    if reader.at_punct(b')') {
        reader.punct(b')')?;
        return Ok(arguments);
    }
    arguments.push(argument(reader)?)?;
    more_arguments(reader, &mut arguments)?;
    reader.punct(b')')?;
    Ok(arguments)
}

#[tactic(auto, unfolding(ir_grammar::specs::Lines::call_operands))]
fn call_operands(reader: &mut Reader) -> Result<(Sym, Vals), Stop>
    ensures { Gave result reader.new (call_operands.reads reader.old) }
{
    let callee = callee(reader)?;
    reader.punct(b'(')?;
    let args = arguments(reader)?;
    Ok((callee, args))
}

/// LLVM Language Reference, 'call' Instruction.
#[tactic(auto, unfolding(ir_grammar::specs::Lines::call))]
pub(crate) fn call(reader: &mut Reader, dst: Option<Loc>) -> Result<Inst, Stop>
    ensures { Gave result reader.new ((call dst).reads reader.old) }
{
    reader.attributes(true)?;
    let ret = reader.result_type()?;
    let (callee, args) = call_operands(reader)?;
    reader.optional_hash();
    finish(
        reader,
        Inst::Call {
            dst,
            ret,
            callee,
            args,
        },
    )
}

/// A call behind `tail` or `notail`.
#[tactic(auto, unfolding(ir_grammar::specs::Lines::marked_call))]
pub(crate) fn marked_call(reader: &mut Reader, dst: Option<Loc>) -> Result<Inst, Stop>
    ensures { Gave result reader.new ((marked_call dst).reads reader.old) }
{
    reader.keyword(b"call")?;
    call(reader, dst)
}

/// `iN K , label %L`
#[tactic(auto, unfolding(ir_grammar::specs::Lines::arm_of_switch))]
fn arm_of_switch(reader: &mut Reader, width: Width) -> Result<(u64, Loc), Stop>
    ensures { Gave result reader.new ((arm_of_switch width).reads reader.old) }
{
    reader.same_width(width)?;
    let word = reader.integer(width)?;
    let to = comma_label(reader)?;
    Ok((word, to))
}

fn more_cases(reader: &mut Reader, width: Width, cases: &mut Cases) -> Result<(), Stop>
    ensures { Filled result cases.new reader.new ((more_cases width cases.old).reads reader.old) }
{
    'more: while reader.at_other(b']') {
        cases.push(arm_of_switch(reader, width)?)?;
    }
    Ok(())
}

/// The cases of a `switch` in their brackets.
#[tactic(auto, unfolding(ir_grammar::specs::Lines::switch_cases))]
fn switch_cases(reader: &mut Reader, width: Width) -> Result<Cases, Stop>
    ensures { Gave result reader.new ((switch_cases width).reads reader.old) }
{
    reader.punct(b'[')?;
    let mut cases = Seq::new(reader.alloc());
    more_cases(reader, width, &mut cases)?;
    reader.punct(b']')?;
    Ok(cases)
}

/// LLVM Language Reference, 'switch' Instruction.
#[tactic(auto, unfolding(ir_grammar::specs::Lines::switching))]
pub(crate) fn switching(reader: &mut Reader) -> Result<Inst, Stop>
    ensures { Gave result reader.new (switching.reads reader.old) }
{
    let width = reader.width()?;
    let ty = Ty::Int(width);
    let on = reader.value(&ty)?;
    let default = comma_label(reader)?;
    let cases = switch_cases(reader, width)?;
    finish(
        reader,
        Inst::Switch {
            ty,
            on,
            default,
            cases,
        },
    )
}
