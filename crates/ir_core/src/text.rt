//! The tokens of the text of a module, and where its lines stand.

/// The kinds of token. A name is a letter, `-`, `$`, `.` or `_` and then such bytes and digits, or it is
/// digits alone.
#[derive(Clone, Copy, PartialEq, Eq)]
pub enum TokKind {
    /// A letter or `_`, then letters, digits, `_` and `.`, as `store`.
    Word,
    /// `%` and a name.
    Local,
    /// `@` and a name.
    At,
    /// A name directly followed by `:`, only as the first token of a line.
    Label,
    /// Digits, with `-` before them or not.
    Num,
    /// `c"..."` without a quote inside.
    Bytes,
    /// `"..."` without a quote inside.
    Str,
    /// `#` and digits.
    Hash,
    /// `!` and a name.
    Bang,
    /// One of `= , ( ) { } [ ] *`.
    Punct,
}

/// A token of a line, and where it stands: from `start` to before `end`, counted in bytes from the
/// start of the line.
#[derive(Clone, Copy)]
pub struct Token {
    pub kind: TokKind,
    pub start: u32,
    pub end: u32,
}

/// Where a line stands, on which it depends whether it is dropped.
#[derive(Clone, Copy, PartialEq, Eq)]
pub enum LinePlace {
    /// Outside functions.
    Top,
    /// Inside a function, and not between the brackets of a `switch`.
    Function,
    /// Between the `[` and the `]` of one `switch`.
    Switch,
}
