//! Initialisers of globals.
ghost use Rattle.std.specs.Prelude.{◌≡◌, IfOk, [], ◌∷◌};
ghost use Rattle.std.specs.Option.{option_and_then};
ghost use Rattle.ir_core.specs.Strings.{string_bytes, between_quotes};
ghost use Rattle.ir_grammar.specs.Types.{listed, more_listed};
ghost use Rattle.ir_grammar.specs.Top.{of_value, bytes_in, is_string, zero_or, parts_of, init_head, whole_init, flat_init, typed_init, init_rest, init};
ghost use Rattle.ir_grammar.specs.Parts.{taken};
ghost use Rattle.ir_grammar.specs.Values.{constant_head};
ghost use Rattle.ir_parse_parts.specs.Views.{tok_view};
ghost use Rattle.ir_parse_parts.specs.Reads.{Gave, Filled};

use ir_core::{Init, Inits, Name, Seq, TokKind, Ty, Width};
use ir_grammar::{InitHead, ValueHead};
use ir_lex::{string_bytes, string_len};
use ir_parse_parts::{Reader, Stop, Tok, constant_head, word_table};
use std::alloc::{AllocError, Global};

/// A constant that is no part of an instruction.
fn of_value(head: ValueHead) -> Option<InitHead>
    ensures { result ≡ of_value head }
{
    match head {
        ValueHead::Reg(_) => None,
        ValueHead::Int(word) => Some(InitHead::Int(word)),
        ValueHead::Null => Some(InitHead::Null),
        ValueHead::Global(sym) => Some(InitHead::Addr(sym)),
        ValueHead::Gep => Some(InitHead::Gep),
    }
}

/// How many `i8` the type is an array of.
fn bytes_in(ty: &Ty) -> Option<u64>
    ensures { result ≡ bytes_in ty.now }
{
    match ty {
        Ty::Array(count, element) => match element.get() {
            Ty::Int(Width::W8) => Some(*count),
            _ => None,
        },
        _ => None,
    }
}

/// Whether the type is an array of so many `i8`.
fn is_string(ty: &Ty, len: usize) -> bool
    ensures { result ≡ is_string ty.now len }
{
    match bytes_in(ty) {
        Some(count) => count == len as u64,
        None => false,
    }
}

fn zero_or(other: Option<InitHead>, word: &[u8]) -> Option<InitHead>
    ensures { result ≡ zero_or other word.now }
{
    if word == b"zeroinitializer".as_slice() {
        Some(InitHead::Zero)
    } else {
        other
    }
}

fn parts_of(text: &[u8]) -> Option<InitHead>
    ensures { result ≡ parts_of text.now }
{
    word_table!(text; b"[" => InitHead::Array, b"{" => InitHead::Struct)
}

fn constant(ty: &Ty, tok: &Tok) -> Option<InitHead>
    ensures { result ≡ option_and_then of_value (constant_head ty.now (tok_view tok.now)) }
{
    match constant_head(ty, tok) {
        Some(head) => of_value(head),
        None => None,
    }
}

/// What the first token of an initialiser of the type says.
fn init_head(ty: &Ty, tok: &Tok) -> Option<InitHead>
    ensures { result ≡ init_head ty.now (tok_view tok.now) }
{
    match tok.kind {
        TokKind::Word => zero_or(constant(ty, tok), tok.text),
        TokKind::Bytes if is_string(ty, string_len(tok.text)) => Some(InitHead::Bytes),
        TokKind::Bytes => None,
        TokKind::Punct => parts_of(tok.text),
        _ => constant(ty, tok),
    }
}

/// The bytes of a `c"..."`.
fn bytes(alloc: Global, text: &[u8]) -> Result<Name, AllocError>
    ensures { IfOk result (λ name. name ≡ string_bytes (between_quotes text.now)) }
{
    let bytes = string_bytes(alloc, text)?;
    Name::new(alloc, bytes.as_slice())
}

/// An initialiser of one token, by that token.
fn whole_init(alloc: Global, head: InitHead, text: &[u8]) -> Result<Option<Init>, AllocError>
    ensures { IfOk result (λ init. init ≡ whole_init text.now head) }
{
    match head {
        InitHead::Zero => Ok(Some(Init::Zero)),
        InitHead::Int(word) => Ok(Some(Init::Int(word))),
        InitHead::Null => Ok(Some(Init::Null)),
        InitHead::Addr(sym) => Ok(Some(Init::Addr(sym))),
        InitHead::Bytes => Ok(Some(Init::Bytes(bytes(alloc, text)?))),
        InitHead::Gep | InitHead::Array | InitHead::Struct => Ok(None),
    }
}

/// An initialiser of one token that the type has.
fn flat_init(reader: &mut Reader, head: InitHead, text: &[u8]) -> Result<Init, Stop>
    ensures { Gave result reader.new (taken (whole_init text.now head) reader.old) }
{
    let found = whole_init(reader.alloc(), head, text)?;
    reader.take(found)
}

/// An initialiser of the type, with so many lists of parts at most inside one another.
#[cycle(inits)]
#[tactic(auto, unfolding(ir_grammar::specs::Top::init))]
pub(crate) fn init(reader: &mut Reader, ty: &Ty, brackets: u32) -> Result<Init, Stop>
    ensures { Gave result reader.new ((init brackets ty.now).reads reader.old) }
{
    let Some(tok) = reader.peek() else {
        return Err(reader.unfit());
    };
    let Some(head) = init_head(ty, &tok) else {
        return Err(reader.unfit());
    };
    if brackets == 0 {
        return flat_init(reader, head, tok.text);
    }
    reader.skip();
    init_rest(reader, head, tok.text, brackets - 1)
}

/// The rest of an initialiser behind its first token.
#[cycle(inits)]
fn init_rest(reader: &mut Reader, head: InitHead, text: &[u8], inner: u32) -> Result<Init, Stop>
    ensures { Gave result reader.new ((init_rest (init inner) text.now head).reads reader.old) }
{
    match head {
        InitHead::Zero => Ok(Init::Zero),
        InitHead::Int(word) => Ok(Init::Int(word)),
        InitHead::Null => Ok(Init::Null),
        InitHead::Addr(sym) => Ok(Init::Addr(sym)),
        InitHead::Bytes => Ok(Init::Bytes(bytes(reader.alloc(), text)?)),
        InitHead::Gep => Ok(Init::Gep(reader.const_gep()?)),
        InitHead::Array => Ok(Init::Parts(parts(reader, inner, b']')?)),
        InitHead::Struct => Ok(Init::Parts(parts(reader, inner, b'}')?)),
    }
}

/// A type and an initialiser of it.
#[cycle(inits)]
fn typed(reader: &mut Reader, inner: u32) -> Result<(Ty, Init), Stop>
    ensures { Gave result reader.new ((typed_init (init inner)).reads reader.old) }
{
    let ty = reader.any_type()?;
    let init = init(reader, &ty, inner)?;
    Ok((ty, init))
}

/// Types and initialisers up to the closing bracket.
#[cycle(inits)]
fn parts(reader: &mut Reader, inner: u32, close: u8) -> Result<Inits, Stop>
    ensures { Gave result reader.new
        ((listed close (typed_init (init inner))).reads reader.old) }
{
    let mut parts = Seq::new(reader.alloc());
    if reader.at_punct(close) {
        reader.punct(close)?;
        return Ok(parts);
    }
    parts.push(typed(reader, inner)?)?;
    more_parts(reader, &mut parts, inner)?;
    reader.punct(close)?;
    Ok(parts)
}

#[cycle(inits)]
fn more_parts(reader: &mut Reader, parts: &mut Inits, inner: u32) -> Result<(), Stop>
    ensures { Filled result parts.new reader.new
        ((more_listed parts.old (typed_init (init inner))).reads reader.old) }
{
    'more: while reader.at_punct(b',') {
        reader.punct(b',')?;
        parts.push(typed(reader, inner)?)?;
    }
    Ok(())
}
