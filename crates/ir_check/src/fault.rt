//! Faults of modules.
ghost use Rattle.std.specs.Prelude.{◌≡◌, Some, IfOk};
ghost use Rattle.ir_check.specs.Places.{site_text, named_text};
ghost use Rattle.ir_check.specs.Faults.{fault_at, fault_with, Tells};

use crate::places::{named_text, site_text};
use ir_core::{Module, Name};
use ir_layout::LimitKind;
use ir_lines::{Named, Site};
use std::alloc::{AllocError, Global};

/// The kinds of faults, in the order in which they are looked for.
#[derive(Clone, Copy, PartialEq, Eq)]
pub enum Kind {
    /// A name is defined twice.
    DuplicateName,
    /// A name is used and nowhere defined.
    UnknownName,
    /// A limit is broken.
    Limit(LimitKind),
    /// A block doesn't end in its one terminator, or a phi stands behind another instruction.
    BadTerminator,
    /// A call, a declare or a function's name as a value isn't as it must be.
    BadCall,
    /// A type isn't the one that must stand there.
    TypeMismatch,
    /// There is no function `i32 @main()`.
    NoMain,
    /// An edge leads to the entry of a function.
    EntryHasPredecessor,
    /// The labels of a phi aren't its block's predecessors, or one of them has two values.
    PhiMismatch,
    /// Some path reaches a use of a register and passes no definition of it.
    UseBeforeDef,
}

/// Why a module isn't accepted.
#[derive(Drop)]
pub enum CheckError {
    /// The first fault: its kind, its place and, for the kinds that tell one, a name.
    Fault {
        kind: Kind,
        at: Name,
        name: Option<Name>,
    },
    /// There was no memory.
    NoMemory,
}

impl From<AllocError> for CheckError {
    ghost use Rattle.std.specs.Prelude.{◌≡◌};
    ghost use Rattle.ir_check.specs.declared.fault.CheckError.TheVariants.{NoMemory};

    ghost from_gives = { λ _ e. e ≡ NoMemory };

    fn from(_error: AllocError) -> CheckError {
        CheckError::NoMemory
    }
}

// A text as a name.
fn named(alloc: Global, m: &Module, name: Named) -> Result<Name, AllocError>
    ensures { IfOk result (λ n. n ≡ named_text m.now name) }
{
    let text = named_text(alloc, m, name)?;
    Name::new(alloc, text.as_slice())
}

// The text of a place as a name.
fn placed(alloc: Global, m: &Module, site: Site) -> Result<Name, AllocError>
    ensures { IfOk result (λ n. n ≡ site_text m.now site) }
{
    let text = site_text(alloc, m, site)?;
    Name::new(alloc, text.as_slice())
}

/// The error that tells a fault at a place.
pub(crate) fn fault_at(alloc: Global, m: &Module, kind: Kind, site: Site) -> CheckError
    ensures { Tells (Some (fault_at m.now kind site)) result }
{
    match placed(alloc, m, site) {
        Ok(at) => CheckError::Fault {
            kind,
            at,
            name: None,
        },
        Err(_) => CheckError::NoMemory,
    }
}

/// The error that tells a fault at a place, with a name.
pub(crate) fn fault_with(
    alloc: Global,
    m: &Module,
    kind: Kind,
    site: Site,
    name: Named,
) -> CheckError
    ensures { Tells (Some (fault_with m.now kind (site, name))) result }
{
    match (placed(alloc, m, site), named(alloc, m, name)) {
        (Ok(at), Ok(name)) => CheckError::Fault {
            kind,
            at,
            name: Some(name),
        },
        _ => CheckError::NoMemory,
    }
}
