//! Schedules: the text of a schedule is read as arguments and one entry a line, and its events are drawn from the
//! entries one by one.
//!
//! What a text stands for and which line is its first unfit one says `specs/Schedule.antt`, over `Fields.antt` and
//! `Entries.antt`; the events of entries are `events_of` of `Events.antt`. A text has one meaning or one first unfit
//! line, and not both, so that the clauses of `parse_schedule` leave it one answer beside `NoMemory`. A layer above
//! takes the events from a `Cursor`, which contracts see as the list of those that are left.
#![tactic(auto)]

mod cutting;
mod drafts;
mod drawing;
mod entries;
mod forms;
mod laws;
mod numbers;
mod one_upset;
mod parsing;

pub use drawing::Cursor;
pub use entries::{Event, Line, UpsetSpec};
pub use laws::{a_schedule_has_no_unfit_line, one_meaning, one_unfit_line, schedule_or_unfit};
pub use parsing::{SchedError, Schedule, parse_schedule};
