//! The first lines of functions.
ghost use Rattle.std.specs.Prelude.{◌≡◌, Bool, [], ◌∷◌};
ghost use Rattle.std.specs.Option.{option_and_then};
ghost use Rattle.ir_grammar.specs.Parts.{first, one, chain, chained};
ghost use Rattle.ir_grammar.specs.Top.{tail_word, tail_head, tail_rest, behind_params, separator, declared_param, param_name, defined_param, params_of, declare_line, define_line, top_word, function_line, word_line};
ghost use Rattle.ir_parse_parts.specs.Views.{tok_view};
ghost use Rattle.ir_parse_parts.specs.Reads.{Gave, Passed, Filled};

use crate::globals::ended;
use ir_core::{Declare, Loc, Seq, TokKind, Ty, Tys};
use ir_grammar::{Head, Params, TailHead, TopLine, TopWord};
use ir_parse_parts::{Reader, Stop, Tok, word_table};

fn tail_word(word: &[u8]) -> Option<TailHead>
    ensures { result ≡ tail_word word.now }
{
    word_table!(word;
        b"unnamed_addr" => TailHead::Whole, b"local_unnamed_addr" => TailHead::Whole)
}

fn tail_head(tok: &Tok) -> Option<TailHead>
    ensures { result ≡ tail_head (tok_view tok.now) }
{
    match tok.kind {
        TokKind::Word => tail_word(tok.text),
        TokKind::Hash => Some(TailHead::Whole),
        TokKind::Bang => Some(TailHead::Metadata),
        _ => None,
    }
}

fn next_tail(reader: &Reader) -> Option<TailHead>
    ensures { result ≡ option_and_then tail_head (first reader.now) }
{
    match reader.peek() {
        Some(tok) => tail_head(&tok),
        None => None,
    }
}

fn tail_rest(reader: &mut Reader, head: TailHead) -> Result<(), Stop>
    ensures { Passed result reader.new ((tail_rest head).reads reader.old) }
{
    match head {
        TailHead::Whole => Ok(()),
        TailHead::Metadata => reader.bang(),
    }
}

/// What may stand behind the parameters.
#[tactic(auto, unfolding(ir_grammar::specs::Top::behind_params))]
fn behind_params(reader: &mut Reader) -> Result<(), Stop>
    ensures { Passed result reader.new (behind_params.reads reader.old) }
{
    'tails: while let Some(head) = next_tail(reader) {
        reader.skip();
        tail_rest(reader, head)?;
    }
    Ok(())
}

fn separator(tok: &Tok) -> Option<bool>
    ensures { result ≡ separator (tok_view tok.now) }
{
    match tok.kind {
        TokKind::Punct => {
            let text = tok.text;
            word_table!(text; b"," => true, b")" => false)
        }
        _ => None,
    }
}

/// `,` before another parameter, or `)` behind the last one: whether another one follows.
fn another(reader: &mut Reader) -> Result<bool, Stop>
    ensures { Gave result reader.new ((one separator).reads reader.old) }
{
    let found = match reader.peek() {
        Some(tok) => separator(&tok),
        None => None,
    };
    reader.take(found)
}

#[tactic(auto, unfolding(ir_grammar::specs::Top::declared_param))]
fn declared_param(reader: &mut Reader) -> Result<(Ty, bool), Stop>
    ensures { Gave result reader.new (declared_param.reads reader.old) }
{
    let ty = reader.any_type()?;
    reader.attributes(false)?;
    let more = another(reader)?;
    Ok((ty, more))
}

#[tactic(auto, unfolding(ir_grammar::specs::Top::param_name))]
fn param_name(reader: &mut Reader) -> Result<(Option<Loc>, bool), Stop>
    ensures { Gave result reader.new (param_name.reads reader.old) }
{
    if reader.at_local() {
        let name = reader.local()?;
        let more = another(reader)?;
        return Ok((Some(name), more));
    }
    let more = another(reader)?;
    Ok((None, more))
}

#[tactic(auto, unfolding(ir_grammar::specs::Top::defined_param))]
fn defined_param(reader: &mut Reader) -> Result<((Ty, Option<Loc>), bool), Stop>
    ensures { Gave result reader.new (defined_param.reads reader.old) }
{
    let ty = reader.any_type()?;
    reader.attributes(false)?;
    let (name, more) = param_name(reader)?;
    Ok(((ty, name), more))
}

fn declared_chain(reader: &mut Reader, params: &mut Tys) -> Result<(), Stop>
    ensures { Filled result params.new reader.new
        ((chained params.old declared_param).reads reader.old) }
{
    'params: loop {
        let (ty, more) = declared_param(reader)?;
        params.push(ty)?;
        if !more {
            return Ok(());
        }
    }
}

fn defined_chain(reader: &mut Reader, params: &mut Params) -> Result<(), Stop>
    ensures { Filled result params.new reader.new
        ((chained params.old defined_param).reads reader.old) }
{
    'params: loop {
        let (param, more) = defined_param(reader)?;
        params.push(param)?;
        if !more {
            return Ok(());
        }
    }
}

fn declared_params(reader: &mut Reader) -> Result<Tys, Stop>
    ensures { Gave result reader.new ((params_of declared_param).reads reader.old) }
{
    reader.punct(b'(')?;
    let mut params = Seq::new(reader.alloc());
    if reader.at_punct(b')') {
        reader.punct(b')')?;
        return Ok(params);
    }
    declared_chain(reader, &mut params)?;
    Ok(params)
}

fn defined_params(reader: &mut Reader) -> Result<Params, Stop>
    ensures { Gave result reader.new ((params_of defined_param).reads reader.old) }
{
    reader.punct(b'(')?;
    let mut params = Seq::new(reader.alloc());
    if reader.at_punct(b')') {
        reader.punct(b')')?;
        return Ok(params);
    }
    defined_chain(reader, &mut params)?;
    Ok(params)
}

/// An external function (LLVM Language Reference, 'Functions').
#[tactic(auto, unfolding(ir_grammar::specs::Top::declare_line))]
fn declare_line(reader: &mut Reader) -> Result<TopLine, Stop>
    ensures { Gave result reader.new (declare_line.reads reader.old) }
{
    reader.attributes(true)?;
    let ret = reader.result_type()?;
    let sym = reader.symbol()?;
    let params = declared_params(reader)?;
    behind_params(reader)?;
    ended(reader, TopLine::Declare(Declare { sym, ret, params }))
}

/// The line that begins a function (LLVM Language Reference, 'Functions').
#[tactic(auto, unfolding(ir_grammar::specs::Top::define_line))]
fn define_line(reader: &mut Reader) -> Result<TopLine, Stop>
    ensures { Gave result reader.new (define_line.reads reader.old) }
{
    reader.attributes(true)?;
    let ret = reader.result_type()?;
    let sym = reader.symbol()?;
    let params = defined_params(reader)?;
    behind_params(reader)?;
    reader.punct(b'{')?;
    ended(reader, TopLine::Define(Head { sym, ret, params }))
}

fn top_word(word: &[u8]) -> Option<TopWord>
    ensures { result ≡ top_word word.now }
{
    word_table!(word; b"declare" => TopWord::Declare, b"define" => TopWord::Define)
}

/// A line that begins by a word.
pub(crate) fn word_line(reader: &mut Reader) -> Result<TopLine, Stop>
    ensures { Gave result reader.new (word_line.reads reader.old) }
{
    let found = reader.word().and_then(top_word);
    match reader.take(found)? {
        TopWord::Declare => declare_line(reader),
        TopWord::Define => define_line(reader),
    }
}
