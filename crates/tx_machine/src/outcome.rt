//! What a run comes to.
use hard_frames::{Aborts, Stop};
use ir_core::{Outs, Turns};
use std::marker::Model;
use upset_model::Records;

/// What a run comes to. A place is the names of function and block and the index of a hardened
/// instruction in the block, joined by `/`.
#[derive(Drop)]
pub struct RunResult {
    /// The outputs in order.
    pub outs: Outs,
    /// What has become of the upsets, in order.
    pub upsets: Records,
    /// How many transactions were aborted, by cause.
    pub aborts: Aborts,
    pub stop: Stop,
    /// The turns of the source run that the run stands for.
    pub turns: Turns,
}

impl Model for RunResult {
    ghost use Rattle.std.specs.Coded.{codes};
    ghost use Rattle.hard_meaning.specs.Runs.{RunParts};

    ghost Value = { RunParts };

    ghost coded = { Prim.hlevel codes };

    ghost view = { λ r. record { outs = r.outs; upsets = r.upsets; aborts = r.aborts; stop = r.stop; turns = r.turns } };
}
