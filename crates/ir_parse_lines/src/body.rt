//! Lines inside functions.
ghost use Rattle.std.specs.Prelude.{◌≡◌};
ghost use Rattle.std.specs.Option.{is_some};
ghost use Rattle.ir_grammar.specs.Parts.{ends, heads, seen};
ghost use Rattle.ir_grammar.specs.Lines.{instruction};
ghost use Rattle.ir_grammar.specs.Top.{label_of, is_label, label_line, end_line, body_line};
ghost use Rattle.ir_grammar.specs.declared.trees.BodyLine.TheVariants.{Inst};
ghost use Rattle.ir_parse_parts.specs.Views.{tok_view};
ghost use Rattle.ir_parse_parts.specs.Reads.{Gave};

use ir_core::{Loc, TokKind};
use ir_grammar::BodyLine;
use ir_parse_body::instruction;
use ir_parse_parts::{Reader, Stop, Tok};

fn label_of(tok: &Tok) -> Option<Loc>
    ensures { result ≡ label_of (tok_view tok.now) }
{
    match tok.kind {
        TokKind::Label => Some(Loc(tok.at)),
        _ => None,
    }
}

fn at_label(reader: &Reader) -> bool
    ensures { result ≡ heads is_label reader.now }
{
    match reader.peek() {
        Some(tok) => label_of(&tok).is_some(),
        None => false,
    }
}

/// The label of a block.
fn label_line(reader: &mut Reader) -> Result<BodyLine, Stop>
    ensures { Gave result reader.new (label_line.reads reader.old) }
{
    let found = match reader.peek() {
        Some(tok) => label_of(&tok),
        None => None,
    };
    let label = reader.take(found)?;
    reader.end()?;
    Ok(BodyLine::Label(label))
}

/// The end of a function.
fn end_line(reader: &mut Reader) -> Result<BodyLine, Stop>
    ensures { Gave result reader.new (end_line.reads reader.old) }
{
    reader.punct(b'}')?;
    reader.end()?;
    Ok(BodyLine::End)
}

fn inst_line(reader: &mut Reader) -> Result<BodyLine, Stop>
    ensures { Gave result reader.new ((seen Inst instruction).reads reader.old) }
{
    let inst = instruction(reader)?;
    Ok(BodyLine::Inst(inst))
}

/// A line inside a function (LLVM Language Reference, 'Functions').
#[tactic(auto, unfolding(ir_grammar::specs::Top::body_line))]
pub(crate) fn body_line(reader: &mut Reader) -> Result<BodyLine, Stop>
    ensures { Gave result reader.new (body_line.reads reader.old) }
{
    if at_label(reader) {
        return label_line(reader);
    }
    if reader.at_punct(b'}') {
        return end_line(reader);
    }
    inst_line(reader)
}
