//! The events of a schedule, drawn one by one from its entries.
ghost use Rattle.std.specs.Prelude.{◌≡◌, ◌+◌, ◌*◌, ◌%◌, ◌^◌, [], ◌∷◌, ◌++◌, IfNone, IfSome};
ghost use Rattle.std.specs.List.{AllByRecursion};
ghost use Rattle.sched_file.specs.Events.{mixed, turn_of, events_in, events_of, HasThread, TurnOf};
ghost use Rattle.sched_file.specs.Pending.{turns_left, IsReady};
ghost use Rattle.sched_file.specs.Shown.{shown};

use crate::{Event, Line};
use ir_core::Tid;
use std::marker::Model;

/// The turns of one entry that are left.
#[derive(Clone, Copy)]
pub(crate) enum Pending {
    /// So many turns of one thread.
    Same(Tid, u64),
    /// A turn of each thread below the first number from the second on, and then so many rounds.
    Rounds(u32, u32, u64),
    /// So many turns of a mix of threads below the first number, which has come to the second.
    Mixed(u32, u64, u64),
}

/// The next number of a mix.
fn mixed(x: u64) -> u64
    ensures { result ≡ mixed x }
{
    x.wrapping_mul(6_364_136_223_846_793_005)
        .wrapping_add(1_442_695_040_888_963_407)
}

#[tactic(auto, unfolding(crate::specs::Pending::turns_left))]
fn draw_same(tid: Tid, turns: u64) -> Option<(Tid, Pending)>
    ensures none { IfNone result (turns_left (Pending.Same tid turns) ≡ []) }
    ensures some { IfSome result (λ x.
        turns_left (Pending.Same tid turns) ≡ TurnOf x.0 ∷ turns_left x.1) }
    ensures ready { IfSome result (λ x. IsReady x.1) }
{
    if turns == 0 {
        return None;
    }
    Some((tid, Pending::Same(tid, turns - 1)))
}

#[tactic(auto, using(crate::proofs::Turns::next_round, crate::proofs::Turns::no_round), unfolding(crate::specs::Pending::turns_left))]
fn draw_round(threads: u32, next: u32, rounds: u64) -> Option<(Tid, Pending)>
    requires { IsReady (Pending.Rounds threads next rounds) }
    ensures none { IfNone result (turns_left (Pending.Rounds threads next rounds) ≡ []) }
    ensures some { IfSome result (λ x.
        turns_left (Pending.Rounds threads next rounds) ≡ TurnOf x.0 ∷ turns_left x.1) }
    ensures ready { IfSome result (λ x. IsReady x.1) }
{
    if next < threads {
        return Some((Tid(next), Pending::Rounds(threads, next + 1, rounds)));
    }
    if rounds == 0 {
        return None;
    }
    Some((Tid(0), Pending::Rounds(threads, 1, rounds - 1)))
}

#[tactic(auto, unfolding(crate::specs::Pending::turns_left, crate::specs::Events::mix_turns))]
fn draw_mixed(threads: u32, x: u64, turns: u64) -> Option<(Tid, Pending)>
    requires { IsReady (Pending.Mixed threads x turns) }
    ensures none { IfNone result (turns_left (Pending.Mixed threads x turns) ≡ []) }
    ensures some { IfSome result (λ y.
        turns_left (Pending.Mixed threads x turns) ≡ TurnOf y.0 ∷ turns_left y.1) }
    ensures ready { IfSome result (λ y. IsReady y.1) }
{
    if turns == 0 {
        return None;
    }
    let x = mixed(x);
    let thread = (x >> 33) % u64::from(threads);
    Some((Tid(thread as u32), Pending::Mixed(threads, x, turns - 1)))
}

impl Pending {
    /// The thread that has the next turn, and the turns that are left behind it.
    fn draw(self) -> Option<(Tid, Pending)>
        requires { IsReady self }
        ensures none { IfNone result (turns_left self ≡ []) }
        ensures some { IfSome result (λ x. turns_left self ≡ TurnOf x.0 ∷ turns_left x.1) }
        ensures ready { IfSome result (λ x. IsReady x.1) }
    {
        match self {
            Pending::Same(tid, turns) => draw_same(tid, turns),
            Pending::Rounds(threads, next, rounds) => draw_round(threads, next, rounds),
            Pending::Mixed(threads, x, turns) => draw_mixed(threads, x, turns),
        }
    }
}

/// The first event of the turns and the entries, with the turns and the entries behind it.
fn draw_event<'a>(pending: Pending, lines: &'a [Line]) -> Option<(Event<'a>, Pending, &'a [Line])>
    requires pending { IsReady pending }
    requires lines { AllByRecursion HasThread lines.now }
    ensures none { IfNone result (turns_left pending ++ events_of lines.now ≡ []) }
    ensures some { IfSome result (λ x. turns_left pending ++ events_of lines.now
        ≡ shown x.0 ∷ (turns_left x.1 ++ events_of x.2.now)) }
    ensures ready { IfSome result (λ x. IsReady x.1 × AllByRecursion HasThread x.2.now) }
{
    let mut pending = pending;
    let mut lines = lines;
    'lines: loop {
        if let Some((tid, left)) = pending.draw() {
            return Some((Event::Turn(tid), left, lines));
        }
        let Some((line, rest)) = lines.split_first() else {
            return None;
        };
        lines = rest;
        pending = match line {
            Line::Turn(tid, turns) => Pending::Same(*tid, *turns),
            Line::Round(threads, rounds) => Pending::Rounds(*threads, *threads, *rounds),
            Line::Mix(threads, seed, turns) => Pending::Mixed(*threads, *seed, *turns),
            Line::Abort(tid) => return Some((Event::Abort(*tid), pending, lines)),
            Line::Upset(upset) => return Some((Event::Upset(upset), pending, lines)),
        };
    }
}

/// A place in the events of a schedule. Contracts see it as the list of the events that are left.
/// It takes no memory, whatever the entries count up to.
#[derive(Drop)]
pub struct Cursor<'a> {
    pending: Pending,
    lines: &'a [Line],
}

impl<'a> Model for Cursor<'a> {
    ghost use Rattle.std.specs.Prelude.{List, ◌++◌};
    ghost use Rattle.std.specs.Coded.{codes};
    ghost use Rattle.std.specs.List.{AllByRecursion};
    ghost use Rattle.sched_file.specs.Events.{Happening, events_of, HasThread};
    ghost use Rattle.sched_file.specs.Pending.{turns_left, IsReady};

    ghost Value = { List Happening };

    ghost coded = { Prim.hlevel codes };

    ghost view = { λ c. turns_left c.pending ++ events_of c.lines.now };

    ghost invariant = { λ c. IsReady c.pending × AllByRecursion HasThread c.lines.now };
}

impl<'a> Cursor<'a> {
    /// The place before the first event of the entries.
    #[tactic(auto, unfolding(crate::specs::Pending::turns_left))]
    pub(crate) fn new(lines: &'a [Line]) -> Cursor<'a>
        requires { AllByRecursion HasThread lines.now }
        ensures { result ≡ events_of lines.now }
    {
        Cursor {
            pending: Pending::Same(Tid(0), 0),
            lines,
        }
    }

    /// The next event, or `None` at the end.
    pub fn next_event(&mut self) -> Option<Event<'a>>
        // At the end no event is left, and the cursor stays there.
        ensures end { IfNone result ((self.old ≡ []) × (self.new ≡ [])) }
        ensures next { IfSome result (λ event. self.old ≡ shown event ∷ self.new) }
    {
        let (event, pending, lines) = draw_event(self.pending, self.lines)?;
        self.pending = pending;
        self.lines = lines;
        Some(event)
    }
}
