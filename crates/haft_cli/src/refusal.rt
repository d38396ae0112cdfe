//! What is refused, and why a command has no report.
ghost use Rattle.std.specs.Prelude.{◌≡◌, ◌++◌, codes, IfOk, OnOk};
ghost use Rattle.std.specs.Fmt.{decimal};
ghost use Rattle.haft_cli.specs.Refusals.{which_word, limit_word, kind_word, name_part, long_line, module_line, line_of, text_line};
ghost use Rattle.haft_cli.specs.Work.{of_parse, of_check, of_schedule};
ghost use Rattle.haft_cli.specs.declared.refusal.Stopped.TheVariants.{NoMemory};

use haft_io::Which;
use ir_check::{CheckError, Kind};
use ir_core::Name;
use ir_layout::LimitKind;
use ir_parse_top::ParseError;
use sched_file::SchedError;
use std::alloc::{AllocError, Global};

/// Why files are refused, in the order in which it is looked at. Lines and columns are counted from 1.
#[derive(Drop)]
pub enum Refusal {
    /// A file has more than 4,194,304 bytes.
    Long(Which),
    /// A line of the first file fits no form at its place. The word is its first unfit token, or `end`.
    TextWord {
        line: u32,
        word: Name,
    },
    /// No token begins at a column of a line of the first file.
    TextByte {
        line: u32,
        col: u32,
    },
    /// The module of the first file isn't accepted: the kind of its fault, the place, and a name where one is reported.
    Module {
        kind: Kind,
        at: Name,
        name: Option<Name>,
    },
    /// A line of the second file is the first unfit one of a schedule.
    Schedule {
        line: u32,
    },
}

/// Why a command has no report.
#[derive(Drop)]
pub enum Stopped {
    /// Its files are refused.
    Refused(Refusal),
    /// A file couldn't be read.
    ReadFault,
    /// Memory ran out.
    NoMemory,
}

impl From<AllocError> for Stopped {
    ghost from_gives = { λ _ e. e ≡ NoMemory };

    fn from(_: AllocError) -> Stopped {
        Stopped::NoMemory
    }
}

impl From<ParseError> for Stopped {
    ghost from_gives = { λ error e. e ≡ of_parse error };

    fn from(error: ParseError) -> Stopped {
        match error {
            ParseError::Refused { line, word } => {
                Stopped::Refused(Refusal::TextWord { line, word })
            }
            ParseError::BadByte { line, col } => {
                Stopped::Refused(Refusal::TextByte { line, col })
            }
            ParseError::NoMemory => Stopped::NoMemory,
        }
    }
}

impl From<CheckError> for Stopped {
    ghost from_gives = { λ error e. e ≡ of_check error };

    fn from(error: CheckError) -> Stopped {
        match error {
            CheckError::Fault { kind, at, name } => {
                Stopped::Refused(Refusal::Module { kind, at, name })
            }
            CheckError::NoMemory => Stopped::NoMemory,
        }
    }
}

impl From<SchedError> for Stopped {
    ghost from_gives = { λ error e. e ≡ of_schedule error };

    fn from(error: SchedError) -> Stopped {
        match error {
            SchedError::Refused { line } => Stopped::Refused(Refusal::Schedule { line }),
            SchedError::NoMemory => Stopped::NoMemory,
        }
    }
}

/// The word of a file.
fn which_word(which: Which) -> &'static [u8]
    ensures { result.now ≡ which_word which }
{
    match which {
        Which::First => b"first",
        Which::Second => b"second",
    }
}

/// `refused long`, and which file.
fn long_line(alloc: Global, which: Which) -> Result<Vec<u8>, AllocError>
    ensures { IfOk result (λ text. text.items ≡ long_line which) }
{
    let mut text = Vec::from_slice(alloc, b"refused long ")?;
    text.extend_from_slice(which_word(which))?;
    text.extend_from_slice(b"\n")?;
    Ok(text)
}

/// `refused text LINE WORD`
fn text_line(alloc: Global, line: u32, before: &[u8], word: &[u8]) -> Result<Vec<u8>, AllocError>
    ensures { IfOk result (λ text. text.items ≡ text_line line before.now word.now) }
{
    let mut text = Vec::from_slice(alloc, b"refused text ")?;
    let mut buffer = itoa::Buffer::new();
    text.extend_from_slice(buffer.format(line).as_bytes())?;
    text.extend_from_slice(before)?;
    text.extend_from_slice(word)?;
    text.extend_from_slice(b"\n")?;
    Ok(text)
}

/// `refused schedule LINE`
fn schedule_line(alloc: Global, line: u32) -> Result<Vec<u8>, AllocError>
    ensures { IfOk result (λ text. text.items ≡ codes "refused schedule " ++ decimal line ++ codes "\n") }
{
    let mut text = Vec::from_slice(alloc, b"refused schedule ")?;
    let mut buffer = itoa::Buffer::new();
    text.extend_from_slice(buffer.format(line).as_bytes())?;
    text.extend_from_slice(b"\n")?;
    Ok(text)
}

/// `refused text LINE byte COL`
fn byte_line(alloc: Global, line: u32, col: u32) -> Result<Vec<u8>, AllocError>
    ensures { IfOk result (λ text. text.items ≡ text_line line (codes " byte ") (decimal col)) }
{
    let mut buffer = itoa::Buffer::new();
    text_line(alloc, line, b" byte ", buffer.format(col).as_bytes())
}

/// The word of a limit.
fn limit_word(limit: LimitKind) -> &'static [u8]
    ensures { result.now ≡ limit_word limit }
{
    match limit {
        LimitKind::Globals => b"Limit.Globals",
        LimitKind::TypeSize => b"Limit.TypeSize",
        LimitKind::TypeDepth => b"Limit.TypeDepth",
        LimitKind::Params => b"Limit.Params",
        LimitKind::Registers => b"Limit.Registers",
    }
}

/// The word of a kind of faults.
fn kind_word(kind: Kind) -> &'static [u8]
    ensures { result.now ≡ kind_word kind }
{
    match kind {
        Kind::DuplicateName => b"DuplicateName",
        Kind::UnknownName => b"UnknownName",
        Kind::Limit(limit) => limit_word(limit),
        Kind::BadTerminator => b"BadTerminator",
        Kind::BadCall => b"BadCall",
        Kind::TypeMismatch => b"TypeMismatch",
        Kind::NoMain => b"NoMain",
        Kind::EntryHasPredecessor => b"EntryHasPredecessor",
        Kind::PhiMismatch => b"PhiMismatch",
        Kind::UseBeforeDef => b"UseBeforeDef",
    }
}

/// Adds the name that a fault reports.
fn push_name(text: &mut Vec<u8>, name: &Option<Name>) -> Result<(), AllocError>
    ensures { OnOk result (text.new.items ≡ text.old.items ++ name_part name.now) }
{
    if let Some(name) = name {
        text.extend_from_slice(b" ")?;
        text.extend_from_slice(name.bytes())?;
    }
    Ok(())
}

/// `refused module KIND AT` and a name where one is reported.
fn module_line(
    alloc: Global,
    kind: Kind,
    at: &[u8],
    name: &Option<Name>,
) -> Result<Vec<u8>, AllocError>
    ensures { IfOk result (λ text. text.items ≡ module_line kind at.now name.now) }
{
    let mut text = Vec::from_slice(alloc, b"refused module ")?;
    text.extend_from_slice(kind_word(kind))?;
    text.extend_from_slice(b" ")?;
    text.extend_from_slice(at)?;
    push_name(&mut text, name)?;
    text.extend_from_slice(b"\n")?;
    Ok(text)
}

impl Refusal {
    /// The line that is written.
    pub fn line(&self, alloc: Global) -> Result<Vec<u8>, AllocError>
        ensures { IfOk result (λ text. text.items ≡ line_of self.now) }
    {
        match self {
            Refusal::Long(which) => long_line(alloc, *which),
            Refusal::TextWord { line, word } => text_line(alloc, *line, b" ", word.bytes()),
            Refusal::TextByte { line, col } => byte_line(alloc, *line, *col),
            Refusal::Module { kind, at, name } => { module_line(alloc, *kind, at.bytes(), name) }
            Refusal::Schedule { line } => schedule_line(alloc, *line),
        }
    }
}
