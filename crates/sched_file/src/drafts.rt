//! What the lines of a text so far say.
ghost use Rattle.std.specs.Prelude.{◌≡◌, ◌≤◌, ◌^◌, ◌-◌, [], Some, None, IfOk, MatchBool, false};
ghost use Rattle.sched_file.specs.Fields.{fields_of};
ghost use Rattle.sched_file.specs.Reading.{args_from, only_below, event_count, with_args, with_line, taken};

use crate::Line;
use crate::cutting::Fields;
use crate::forms::entry;
use crate::numbers::{WORDS, number_below};
use ir_core::Seq;
use std::alloc::{AllocError, Global};

/// How many events a schedule has at most.
const MOST_EVENTS: u64 = 4_194_304;

/// How many arguments a schedule has at most.
const MOST_ARGS: usize = 64;

/// What the lines so far say.
#[derive(Drop)]
pub(crate) struct Draft {
    pub(crate) args: Seq<u64>,
    pub(crate) lines: Seq<Line>,
    /// How many events the entries have.
    pub(crate) events: u64,
    /// Whether one of the lines isn't passed over.
    pub(crate) begun: bool,
}

/// The numbers of the fields, or `None` where they are no arguments.
#[tactic(auto, unfolding(crate::specs::Reading::args_from))]
fn args(alloc: Global, fields: &mut Fields) -> Result<Option<Seq<u64>>, AllocError>
    ensures { IfOk result (λ args. args ≡ args_from [] fields.old) }
{
    let mut args = Seq::new(alloc);
    'fields: while let Some(field) = fields.next() {
        if args.items().len() >= MOST_ARGS {
            return Ok(None);
        }
        let Some(number) = number_below(WORDS, field) else {
            return Ok(None);
        };
        args.push(number as u64)?;
    }
    Ok(Some(args))
}

/// How many events the entry has, where they are fewer than two to the power of 64.
#[tactic(auto, unfolding(crate::specs::Reading::event_count))]
fn event_count(line: &Line) -> Option<u64>
    ensures { result ≡ only_below (2 ^ 64) (event_count line.now) }
{
    match line {
        Line::Turn(_, turns) | Line::Mix(_, _, turns) => Some(*turns),
        Line::Round(threads, rounds) => u64::from(*threads).checked_mul(*rounds),
        Line::Abort(_) | Line::Upset(_) => Some(1),
    }
}

impl Draft {
    /// What no lines say.
    pub(crate) fn new(alloc: Global) -> Draft
        ensures { result ≡ record { args = []; lines = []; events = 0; begun = false } }
    {
        Draft {
            args: Seq::new(alloc),
            lines: Seq::new(alloc),
            events: 0,
            begun: false,
        }
    }

    #[tactic(auto, unfolding(crate::specs::Reading::with_args))]
    fn take_args(&mut self, alloc: Global, fields: &mut Fields) -> Result<bool, AllocError>
        ensures { IfOk result (λ fits. MatchBool fits
            (with_args self.old fields.old ≡ Some self.new)
            (with_args self.old fields.old ≡ None)) }
    {
        let Some(args) = args(alloc, fields)? else {
            return Ok(false);
        };
        self.args = args;
        self.begun = true;
        Ok(true)
    }

    #[tactic(auto, unfolding(crate::specs::Reading::with_line))]
    fn take_line(&mut self, line: Line) -> Result<bool, AllocError>
        requires { self.old.events ≤ 4194304 }
        ensures { IfOk result (λ fits. MatchBool fits
            (with_line self.old line ≡ Some self.new)
            (with_line self.old line ≡ None)) }
    {
        let Some(count) = event_count(&line) else {
            return Ok(false);
        };
        if count > MOST_EVENTS - self.events {
            return Ok(false);
        }
        self.lines.push(line)?;
        self.events += count;
        self.begun = true;
        Ok(true)
    }

    /// Takes one more line, and answers whether it fits. One that doesn't fit leaves nothing to rely on.
    #[tactic(auto, unfolding(crate::specs::Reading::taken))]
    pub(crate) fn take(&mut self, alloc: Global, line: &[u8]) -> Result<bool, AllocError>
        requires { self.old.events ≤ 4194304 }
        ensures { IfOk result (λ fits. MatchBool fits
            (taken self.old (fields_of line.now) ≡ Some self.new)
            (taken self.old (fields_of line.now) ≡ None)) }
    {
        let mut fields = Fields::of(line);
        let Some(word) = fields.next() else {
            return Ok(true);
        };
        if word.starts_with(b"#") {
            return Ok(true);
        }
        if !self.begun && word == b"args".as_slice() {
            return self.take_args(alloc, &mut fields);
        }
        match entry(alloc, word, &mut fields)? {
            Some(line) => self.take_line(line),
            None => Ok(false),
        }
    }
}
