//! Lines cut from a text, and fields from a line.
ghost use Rattle.std.specs.Prelude.{◌≡◌, ◌≤◌, ◌<◌, [], ◌∷◌, length, IfNone, IfSome};
ghost use Rattle.std.specs.List.{prefix_len};
ghost use Rattle.ir_core.specs.Tokens.{is_blank};
ghost use Rattle.ir_core.specs.Lines.{lines_of};
ghost use Rattle.sched_file.specs.Fields.{fields_of};
ghost use Rattle.sched_file.specs.Cutting.{isnt_feed, isnt_blank};

use std::marker::Model;

/// How many bytes stand before the first line feed.
fn line_len(text: &[u8]) -> usize
    ensures len { result ≡ prefix_len isnt_feed text.now }
    ensures within { result ≤ length text.now }
{
    let mut len = 0;
    for &byte in text {
        if byte == b'\n' {
            break;
        }
        len += 1;
    }
    len
}

/// The first line of a text that isn't empty, and the text behind it.
pub(crate) fn cut_line(text: &[u8]) -> (&[u8], &[u8])
    requires { 0 < length text.now }
    ensures lines { lines_of text.now ≡ result.0.now ∷ lines_of result.1.now }
    ensures shorter { length result.1.now < length text.now }
{
    let len = line_len(text);
    if len == text.len() {
        return (text, &[]);
    }
    (&text[..len], &text[len + 1..])
}

fn is_blank(byte: u8) -> bool
    ensures { result ≡ is_blank byte }
{
    byte == b' ' || byte == b'\t' || byte == b'\r'
}

fn blanks_len(line: &[u8]) -> usize
    ensures len { result ≡ prefix_len is_blank line.now }
    ensures within { result ≤ length line.now }
{
    let mut len = 0;
    for &byte in line {
        if !is_blank(byte) {
            break;
        }
        len += 1;
    }
    len
}

fn field_len(line: &[u8]) -> usize
    ensures len { result ≡ prefix_len isnt_blank line.now }
    ensures within { result ≤ length line.now }
{
    let mut len = 0;
    for &byte in line {
        if is_blank(byte) {
            break;
        }
        len += 1;
    }
    len
}

/// The fields of a line that are left. Contracts see them as a list.
#[derive(Drop)]
pub(crate) struct Fields<'a> {
    rest: &'a [u8],
}

impl<'a> Model for Fields<'a> {
    ghost use Rattle.std.specs.Prelude.{List, ℕ};
    ghost use Rattle.sched_file.specs.Fields.{fields_of};

    ghost Value = { List (List ℕ) };

    ghost view = { λ f. fields_of f.rest.now };
}

impl<'a> Fields<'a> {
    /// The fields of the line.
    pub(crate) fn of(line: &'a [u8]) -> Fields<'a>
        ensures { result ≡ fields_of line.now }
    {
        Fields { rest: line }
    }

    /// The next field.
    pub(crate) fn next(&mut self) -> Option<&'a [u8]>
        ensures none { IfNone result (self.old ≡ []) }
        ensures some { IfSome result (λ field. self.old ≡ field.now ∷ self.new) }
    {
        let start = &self.rest[blanks_len(self.rest)..];
        let len = field_len(start);
        if len == 0 {
            return None;
        }
        let (field, rest) = start.split_at(len);
        self.rest = rest;
        Some(field)
    }
}
