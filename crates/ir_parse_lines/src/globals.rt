//! Lines of named types and of globals.
ghost use Rattle.std.specs.Prelude.{◌≡◌, Ok, true};
ghost use Rattle.ir_grammar.specs.Parts.{ends, heads};
ghost use Rattle.ir_grammar.specs.Words.{in_table};
ghost use Rattle.ir_grammar.specs.Top.{linkage_word, linkage, global_word, global_line, type_line};
ghost use Rattle.ir_grammar.specs.Tails.{aligned};
ghost use Rattle.ir_parse_parts.specs.Reads.{Gave, Passed};
ghost use Rattle.std.specs.Option.{is_some};

use crate::initialisers::init;
use ir_core::{GlobalVar, Ty, TypeId};
use ir_grammar::TopLine;
use ir_parse_parts::{ANY_DEPTH, Reader, Stop, linkage_word, word_table};

/// The line, where it ends here.
pub(crate) fn ended(reader: &mut Reader, line: TopLine) -> Result<TopLine, Stop>
    ensures { Gave result reader.new ((ends line).reads reader.old) }
{
    match reader.end() {
        Ok(()) => Ok(line),
        Err(stop) => {
            drop(line);
            Err(stop)
        }
    }
}

/// A named struct type (LLVM Language Reference, 'Structure Types').
#[tactic(auto, unfolding(ir_grammar::specs::Top::type_line))]
pub(crate) fn type_line(reader: &mut Reader) -> Result<TopLine, Stop>
    ensures { Gave result reader.new (type_line.reads reader.old) }
{
    let name = reader.local()?;
    reader.punct(b'=')?;
    reader.keyword(b"type")?;
    reader.punct(b'{')?;
    let parts = reader.types()?;
    ended(reader, TopLine::Type(TypeId(name.0), Ty::Struct(parts)))
}

fn at_linkage(reader: &Reader) -> bool
    ensures { result ≡ heads (λ t. is_some (in_table linkage_word t)) reader.now }
{
    match reader.word() {
        Some(word) => linkage_word(word).is_some(),
        None => false,
    }
}

/// Words of linkage, any number of them.
#[tactic(auto, unfolding(ir_grammar::specs::Top::linkage))]
fn linkage(reader: &mut Reader)
    ensures { linkage.reads reader.old ≡ Ok (true, reader.new) }
{
    'words: while at_linkage(reader) {
        reader.skip();
    }
}

fn global_word(word: &[u8]) -> Option<bool>
    ensures { result ≡ global_word word.now }
{
    word_table!(word; b"global" => true, b"constant" => true)
}

/// The line of a global, where it ends here or behind an alignment.
fn global_ended(reader: &mut Reader, global: GlobalVar) -> Result<TopLine, Stop>
    ensures { Gave result reader.new ((aligned (TopLine.Global global)).reads reader.old) }
{
    match reader.align_tail() {
        Ok(()) => Ok(TopLine::Global(global)),
        Err(stop) => {
            drop(global);
            Err(stop)
        }
    }
}

/// A global (LLVM Language Reference, 'Global Variables').
#[tactic(auto, unfolding(ir_grammar::specs::Top::global_line))]
pub(crate) fn global_line(reader: &mut Reader) -> Result<TopLine, Stop>
    ensures { Gave result reader.new (global_line.reads reader.old) }
{
    let sym = reader.symbol()?;
    reader.punct(b'=')?;
    linkage(reader);
    let found = reader.word().and_then(global_word);
    reader.take(found)?;
    let ty = reader.any_type()?;
    let init = init(reader, &ty, ANY_DEPTH)?;
    global_ended(reader, GlobalVar { sym, ty, init })
}
