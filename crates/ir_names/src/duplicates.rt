//! The first name that is defined again.
ghost use Rattle.std.specs.Prelude.{◌≡◌, [], IfOk};
ghost use Rattle.ir_names.specs.Names as names;

use crate::collected::definitions;
use crate::name_set::NameSet;
use ir_core::Module;
use ir_lines::{Named, Site};
use std::alloc::{AllocError, Global};

// The first of some definitions whose name an earlier one has.
fn first_again(
    alloc: Global,
    definitions: &[(Site, Named)],
) -> Result<Option<(Site, Named)>, AllocError>
    ensures { IfOk result (λ found. found ≡ names.first_again [] definitions.now) }
{
    let mut seen = NameSet::new(alloc);
    for (site, name) in definitions {
        if !seen.insert(*name)? {
            return Ok(Some((*site, *name)));
        }
    }
    Ok(None)
}

/// The first name of a module that a line before it, or the same line, defines too: a type, an `@` name, or a register or
/// label of one function. It is told where it is defined again. For want of memory nothing is told.
pub fn duplicate(alloc: Global, m: &Module) -> Result<Option<(Site, Named)>, AllocError>
    ensures { IfOk result (λ found. found ≡ names.duplicate m.now) }
{
    let definitions = definitions(alloc, m)?;
    first_again(alloc, definitions.items())
}
