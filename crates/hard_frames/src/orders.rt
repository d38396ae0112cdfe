//! What hardened instructions ask for.
ghost use Rattle.std.specs.Prelude.{◌≡◌, IfOk};
ghost use Rattle.inst_meaning.specs.Registers.{get};
ghost use Rattle.hard_frames.specs.Orders.{is_active};
ghost use Rattle.hard_frames.specs.Frames.{destination_on};
ghost use Rattle.hard_frames.specs.Orders.{passing, undefined, comparing, checking, copying};

use crate::Frame;
use hard_ir::When;
use inst_meaning::{Action, Cause, destination};
use ir_core::{Inst, Loc, Side};
use std::alloc::AllocError;

/// What the instruction at a frame's place asks for.
#[derive(Drop)]
pub enum Order {
    /// An action: where its result goes, and whether it retires an instruction of the source.
    Acts {
        dst: Option<(Side, Loc)>,
        retires: bool,
        action: Action,
    },
    /// The machine's stop: a check has failed.
    Fails,
}

/// Whether a check compares outside a transaction.
pub fn is_active(when: When) -> bool
    ensures { result ≡ is_active when }
{
    match when {
        When::Always | When::Plain => true,
        When::Tx => false,
    }
}

/// The register of a side that takes an instruction's result.
pub fn destination_on(side: Side, inst: &Inst) -> Option<(Side, Loc)>
    ensures { result ≡ destination_on side inst.now }
{
    match destination(inst) {
        Some(at) => Some((side, at)),
        None => None,
    }
}

impl Order {
    /// To go on.
    pub fn passing() -> Order
        ensures { result ≡ passing }
    {
        Order::Acts {
            dst: None,
            retires: false,
            action: Action::Pass,
        }
    }

    // Nothing that can be done.
    fn undefined() -> Order
        ensures { result ≡ undefined }
    {
        Order::Acts {
            dst: None,
            retires: false,
            action: Action::Fault(Cause::Unreachable),
        }
    }

    // A check that compares these words.
    fn comparing(master: Option<u128>, shadow: Option<u128>) -> Order
        ensures { result ≡ comparing master shadow }
    {
        let (Some(master), Some(shadow)) = (master, shadow) else {
            return Order::undefined();
        };
        if master == shadow {
            Order::passing()
        } else {
            Order::Fails
        }
    }

    /// A check of a register in a frame.
    pub fn checking(frame: &mut Frame, reg: Loc, active: bool) -> Result<Order, AllocError>
        ensures order { IfOk result (λ order. order ≡ checking frame.old reg active) }
        ensures same { frame.new ≡ frame.old }
    {
        if !active {
            return Ok(Order::passing());
        }
        let master = frame.masters.get(reg);
        let shadow = frame.shadows.word(reg)?;
        Ok(Order::comparing(master, shadow))
    }

    /// A copy of a register in a frame.
    pub fn copying(frame: &Frame, reg: Loc) -> Order
        ensures { result ≡ copying reg (get frame.now.masters reg.0) }
    {
        match frame.masters.get(reg) {
            Some(word) => Order::Acts {
                dst: Some((Side::S, reg)),
                retires: false,
                action: Action::Assign(word),
            },
            None => Order::undefined(),
        }
    }
}
