//! What actions read and write.
ghost use Rattle.std.specs.Prelude.{◌≡◌, ◌<◌, ◌^◌, ◌*◌};
ghost use Rattle.op_table.specs.Operators.{bits};
ghost use Rattle.mem_image.specs.Accesses.{bytes};
ghost use Rattle.inst_meaning.specs.Accesses.{IsWordOf, updated, found, access_at, access_of, clash};
ghost use Rattle.inst_meaning.specs.Action.{action_of};
ghost use Rattle.inst_meaning.specs.Accesses.{Fits};

use crate::{Access, Action, Callee, Operands, Place, Update};
use ir_core::Inst;
use ir_layout::THREAD_LIMIT;
use mem_image::{Size, overlap};
use op_table::{bit_count, rmw};

impl Update {
    /// The word that stands there, once this one did.
    pub fn updated(self, old: u64) -> u64
        requires { Fits self old }
        ensures word { result ≡ updated self old }
        ensures below { IsWordOf self result }
    {
        match self {
            Update::Combine {
                op,
                width,
                argument,
            } => rmw(op, width, old, argument),
            Update::Exchange {
                expected,
                desired,
                ..
            } => { if old == expected { desired } else { old } }
        }
    }

    /// The result, where this word stood there.
    pub fn found(self, old: u64) -> u128
        ensures { result ≡ found self old }
    {
        match self {
            Update::Exchange {
                width,
                expected,
                ..
            } if old == expected => u128::from(old) + (1 << bit_count(width)),
            _ => u128::from(old),
        }
    }
}

impl Access {
    // The access at a place.
    fn at(place: Place, writes: bool, atomic: bool) -> Access
        ensures { result ≡ access_at place writes atomic }
    {
        Access {
            addr: place.address,
            size: place.size,
            writes,
            atomic,
        }
    }

    /// Whether two accesses overlap, one of them writes, and one isn't atomic.
    pub fn clashes(&self, other: &Access) -> bool
        ensures { result ≡ clash self.now other.now }
    {
        overlap(self.addr, self.size, other.addr, other.size)
            && (self.writes || other.writes)
            && !(self.atomic && other.atomic)
    }
}

impl Action {
    /// The access to memory that the action makes, where so many threads were made.
    pub fn access(&self, made: usize) -> Option<Access>
        ensures { result ≡ access_of made self.now }
    {
        match self {
            Action::Read { place, atomic } => Some(Access::at(*place, false, *atomic)),
            Action::Write { place, atomic, .. } => Some(Access::at(*place, true, *atomic)),
            Action::Update { place, .. } => Some(Access::at(*place, true, true)),
            Action::Create { address, .. } if made < THREAD_LIMIT => Some(Access {
                addr: *address,
                size: Size::S8,
                writes: true,
                atomic: false,
            }),
            _ => None,
        }
    }
}

impl Operands<'_> {
    /// The access to memory that an instruction would make, where so many threads were made. It takes no memory.
    pub fn access(&self, made: usize, inst: &Inst) -> Option<Access>
        ensures { result ≡ access_of made (action_of self.now.layout.now self.now.callees.now self.now.registers.now inst.now) }
    {
        let action = match inst {
            Inst::Load {
                ty,
                ptr,
                atomic,
                ..
            } => self.load(ty, ptr, *atomic),
            Inst::Store {
                ty,
                val,
                ptr,
                atomic,
            } => self.store(ty, val, ptr, *atomic),
            Inst::Rmw {
                op,
                ptr,
                ty,
                val,
                ..
            } => self.combine(*op, ptr, ty, val),
            Inst::CmpXchg {
                ptr,
                ty,
                old,
                new,
                ..
            } => self.exchange(ptr, ty, old, new),
            Inst::Call { callee, args, .. } => match self.callee(*callee) {
                Callee::Outside(external) => self.ask(external, args.items()),
                _ => return None,
            },
            _ => return None,
        };
        action.access(made)
    }
}
