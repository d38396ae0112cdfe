//! Lines that are dropped without being cut into tokens.
ghost use Rattle.std.specs.Prelude.{◌≡◌, ◌≤◌, ◌↔◌, length, IsTrue};
ghost use Rattle.std.specs.List.{prefix_len};
ghost use Rattle.ir_core.specs.Tokens.{is_blank, begins_word};
ghost use Rattle.ir_core.specs.Lines.{past_blanks, first_word, externals, IsDropped};
ghost use Rattle.ir_core.specs.Dropping.{isnt_at, has_at, name_at, is_among, begins, is_header, is_foreign, is_debug, is_dropped};

use crate::lengths::{begins_word, is_blank};
use crate::names::name_from;
use ir_core::LinePlace;

fn blanks_len(line: &[u8]) -> usize
    ensures len { result ≡ prefix_len is_blank line.now }
    ensures within { result ≤ length line.now }
{
    line.iter().take_while(|byte| is_blank(**byte)).count()
}

fn word_len(line: &[u8]) -> usize
    ensures len { result ≡ prefix_len begins_word line.now }
    ensures within { result ≤ length line.now }
{
    line.iter().take_while(|byte| begins_word(**byte)).count()
}

/// How many bytes stand before the first `@`.
fn before_at(line: &[u8]) -> usize
    ensures len { result ≡ prefix_len isnt_at line.now }
    ensures within { result ≤ length line.now }
{
    line.iter().take_while(|byte| **byte != b'@').count()
}

fn past_blanks(line: &[u8]) -> &[u8]
    ensures { result.now ≡ past_blanks line.now }
{
    line.split_at(blanks_len(line)).1
}

fn first_word(line: &[u8]) -> &[u8]
    ensures { result.now ≡ first_word line.now }
{
    let rest = past_blanks(line);
    rest.split_at(word_len(rest)).0
}

fn is_external(name: &[u8]) -> bool
    ensures { result ≡ is_among externals name.now }
{
    name == b"pthread_create".as_slice()
        || name == b"pthread_join".as_slice()
        || name == b"pthread_mutex_lock".as_slice()
        || name == b"pthread_mutex_unlock".as_slice()
        || name == b"putchar".as_slice()
        || name == b"exit".as_slice()
        || name == b"malloc".as_slice()
        || name == b"free".as_slice()
        || name == b"haft_out".as_slice()
        || name == b"haft_arg".as_slice()
}

#[tactic(auto, unfolding(ir_core::specs::Dropping::is_header))]
fn is_header(line: &[u8]) -> bool
    ensures { result ≡ is_header line.now }
{
    let word = first_word(line);
    word == b"source_filename".as_slice()
        || word == b"target".as_slice()
        || word == b"attributes".as_slice()
        || line.starts_with(b"!")
}

/// Whether the line declares something that is no external.
#[tactic(auto, unfolding(ir_core::specs::Dropping::is_foreign))]
fn is_foreign(line: &[u8]) -> bool
    ensures { result ≡ is_foreign line.now }
{
    if first_word(line) != b"declare".as_slice() {
        return false;
    }
    let at = before_at(line);
    if at == line.len() {
        return false;
    }
    !is_external(name_from(line, at + 1))
}

#[tactic(auto, unfolding(ir_core::specs::Dropping::is_debug))]
fn is_debug(rest: &[u8]) -> bool
    ensures { result ≡ is_debug rest.now }
{
    rest.starts_with(b"#dbg_")
        || rest.starts_with(b"call void @llvm.dbg.")
        || rest.starts_with(b"call void @llvm.lifetime.")
        || rest.starts_with(b"tail call void @llvm.dbg.")
        || rest.starts_with(b"tail call void @llvm.lifetime.")
}

#[tactic(auto, unfolding(ir_core::specs::Dropping::is_dropped))]
fn has_dropped_form(place: LinePlace, line: &[u8]) -> bool
    ensures { result ≡ is_dropped place line.now }
{
    match place {
        LinePlace::Top => is_header(line) || is_foreign(line),
        LinePlace::Function => is_header(line) || is_foreign(line) || is_debug(past_blanks(line)),
        LinePlace::Switch => false,
    }
}

/// Whether a line is dropped without being cut into tokens, where it stands at this place.
pub fn is_dropped(place: LinePlace, line: &[u8]) -> bool
    ensures { IsTrue result ↔ IsDropped place line.now }
{
    has_dropped_form(place, line)
}
