//! The machine.
ghost use Rattle.std.specs.Prelude.{ℕ, ◌≡◌, None, IfOk, OnOk, OnErr};
ghost use Rattle.std.specs.Option.{option_copied, ForSome};
ghost use Rattle.sched_file.specs.Events.{TurnOf, AbortOf, UpsetBy};
ghost use Rattle.sched_file.specs.Shown.{shown};
ghost use Rattle.elide.specs.Watches.{watch_of};
ghost use Rattle.rtm_core.specs.Transactions.{thread};
ghost use Rattle.upset_model.specs.Table.{HoldsWindows};
ghost use Rattle.hard_meaning.specs.State.{opening};
ghost use Rattle.hard_meaning.specs.Runs.{happened, result_of};
ghost use Rattle.tx_machine.specs.Machined.{flow_of, open_at, words_at, watched_at};

use crate::RunResult;
use crate::parts::Core;
use crate::records::UpsetLog;
use crate::turns::turn;
use crate::upsets::{abort, upset};
use elide::Elision;
use hard_frames::Frame;
use hard_ir::Hardened;
use ir_core::Tid;
use process::CallStack;
use rtm_core::Rtm;
use sched_file::{Event, UpsetSpec};
use std::alloc::{AllocError, Global};
use std::marker::Model;
use tx_runtime::Words;
use upset_model::WindowTable;

/// A hardened program that runs. Contracts see the program and its state.
#[derive(Drop)]
pub struct Machine<'a> {
    core: Core<'a>,
    upsets: UpsetLog,
    windows: WindowTable,
}

impl<'a> Model for Machine<'a> {
    ghost use Rattle.std.specs.Coded.{codes};
    ghost use Rattle.ir_core.specs.contracts.types.Ty as ty;
    ghost use Rattle.ir_core.specs.contracts.values.Init as init;
    ghost use Rattle.upset_model.specs.Table.{HoldsWindows};
    ghost use Rattle.tx_machine.specs.Meant.{state_of, IsTied};
    ghost use Rattle.tx_machine.specs.Machined.{Machined};

    ghost Value = { Machined };

    ghost coded = { Prim.hlevel (codes, ty.the_row.coded, init.the_row.coded) };

    ghost view = { λ m. record { program = m.core.program; state = state_of m.core m.upsets } };

    ghost invariant = { λ m. IsTied m.core × HoldsWindows m.core.program m.windows };
}

/// Whether a machine goes on.
#[derive(Clone, Copy, PartialEq, Eq)]
pub enum Flow {
    Going,
    Stopped,
}

impl<'a> Machine<'a> {
    /// The opening of a hardened program with these arguments. It makes the table of the program's windows.
    pub fn new(alloc: Global, h: &'a Hardened, args: &[u64]) -> Result<Machine<'a>, AllocError>
        ensures { IfOk result (λ machine. machine ≡ record { program = h.now; state = opening h.now args.now }) }
    {
        let windows = WindowTable::new(alloc, h)?;
        let core = Core::new(alloc, h, args)?;
        Ok(Machine {
            core,
            upsets: UpsetLog::new(alloc),
            windows,
        })
    }

    // An upset of a schedule. For want of memory nothing changes.
    fn strike(&mut self, spec: &UpsetSpec) -> Result<(), AllocError>
        requires { self.old.state.stop ≡ None }
        ensures state { OnOk result (self.new ≡ record self.old { state = happened self.old.program self.old.state (UpsetBy spec.now) }) }
        ensures err { OnErr result (self.new ≡ self.old) }
    {
        let Machine {
            core,
            upsets,
            windows,
        } = self;
        upset(core, upsets, windows, spec)
    }

    // A turn of a thread. For want of memory nothing changes.
    fn turn(&mut self, t: Tid) -> Result<(), AllocError>
        requires { self.old.state.stop ≡ None }
        ensures state { OnOk result (self.new ≡ record self.old { state = happened self.old.program self.old.state (TurnOf t) }) }
        ensures err { OnErr result (self.new ≡ self.old) }
    {
        turn(&mut self.core, t)
    }

    // A thread's transaction is aborted, where it has one.
    fn abort(&mut self, t: Tid)
        requires { self.old.state.stop ≡ None }
        ensures { self.new ≡ record self.old { state = happened self.old.program self.old.state (AbortOf t) } }
    {
        abort(&mut self.core, t);
    }

    // An event, where nothing has stopped. For want of memory nothing changes.
    fn happen(&mut self, e: &Event<'_>) -> Result<(), AllocError>
        requires { self.old.state.stop ≡ None }
        ensures state { OnOk result (self.new ≡ record self.old { state = happened self.old.program self.old.state (shown e.now) }) }
        ensures err { OnErr result (self.new ≡ self.old) }
    {
        match e {
            Event::Turn(t) => self.turn(*t),
            Event::Abort(t) => {
                self.abort(*t);
                Ok(())
            }
            Event::Upset(spec) => self.strike(spec),
        }
    }

    // Whether it goes on.
    fn flow(&self) -> Flow
        ensures { result ≡ flow_of self.now.state.stop }
    {
        if self.core.has_stopped() {
            Flow::Stopped
        } else {
            Flow::Going
        }
    }

    /// One event of a schedule. It takes its memory first; for want of it nothing changes.
    pub fn event(&mut self, e: &Event<'_>) -> Result<Flow, AllocError>
        ensures state { OnOk result (self.new ≡ record self.old { state = happened self.old.program self.old.state (shown e.now) }) }
        ensures flow { IfOk result (λ flow. flow ≡ flow_of self.new.state.stop) }
        ensures err { OnErr result (self.new ≡ self.old) }
    {
        if self.flow() == Flow::Going {
            self.happen(e)?;
        }
        Ok(self.flow())
    }

    /// What the run has come to. It takes no memory.
    pub fn result(self) -> RunResult
        ensures { result ≡ result_of self.entry.state }
    {
        let Machine { core, upsets, .. } = self;
        core.into_result(upsets)
    }

    /// The memory under transactions over which the machine works: its memory and open transactions are those of the state.
    pub fn rtm(&self) -> &Rtm<CallStack<Frame>>
        ensures memory { result.now.memory ≡ self.now.state.memory }
        ensures open { (t : ℕ) → thread result.now t ≡ open_at self.now.state t }
    {
        self.core.rtm()
    }

    /// The runtime's words of a thread, which are those of the state; `None` exactly where it wasn't made.
    pub fn words(&self, t: Tid) -> Option<&Words>
        ensures { option_copied result ≡ words_at self.now.state t.0 }
    {
        self.core.words(t)
    }

    /// What open transactions watch and hold: what those of the state do.
    pub fn elision(&self) -> &Elision
        ensures { (t : ℕ) → ForSome (watched_at self.now.state t) (λ watch. watch_of result.now t ≡ watch) }
    {
        self.core.elision()
    }

    /// The table of the program's windows.
    pub fn windows(&self) -> &WindowTable
        ensures { HoldsWindows self.now.program result.now }
    {
        &self.windows
    }
}
