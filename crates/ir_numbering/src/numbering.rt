//! Trees whose names join the tables, and take their numbers.
//!
//! For want of memory each call may leave some of the names in the tables, and nothing else has changed.
//! Want of memory includes a table without room for 4,294,967,295 names.
ghost use Rattle.std.specs.Prelude.{◌≡◌, IfOk, OnOk, OnErr};
ghost use Rattle.ir_numbering.specs.Numbers.{renaming_of, renaming_outside, module_with, func_with, ModuleFront, HasFront};

use crate::tables::{has_local_room, has_room, number_in_func, number_in_module};
use crate::{Numbered, Numbers, Places};
use ir_core::{Func, Module, Seq, Sym, Ty};
use std::alloc::{AllocError, Global};

/// The places of a tree's names, in the order in which its line writes them.
pub fn places_of<T: Numbered>(tree: &T, alloc: Global) -> Result<Places, AllocError>
    ensures { IfOk result (λ places. places ≡ T.places tree.now) }
{
    let mut places = Seq::new(alloc);
    tree.add_places(&mut places)?;
    Ok(places)
}

/// Numbers the names of a tree in the order in which its line writes them.
pub fn add_names<T: Numbered>(
    tree: &T,
    text: &[u8],
    m: &mut Module,
    f: &mut Func,
    alloc: Global,
) -> Result<(), AllocError>
    ensures in_module { OnOk result (m.new ≡ module_with text.now (T.places tree.now) m.old) }
    ensures in_func { OnOk result (f.new ≡ func_with text.now (T.places tree.now) f.old) }
    ensures err { OnErr result (HasFront text.now (T.places tree.now) m.old f.old m.new f.new) }
{
    let places = places_of(tree, alloc)?;
    let places = places.items();
    if !has_room(places.len(), m) || !has_local_room(places.len(), f) {
        return Err(AllocError);
    }
    number_in_module(places, text, m)?;
    number_in_func(places, text, f)
}

/// Numbers the names of a tree, and gives the tree with these numbers in place of their places.
pub fn numbered<T: Numbered>(
    tree: &T,
    text: &[u8],
    m: &mut Module,
    f: &mut Func,
    alloc: Global,
) -> Result<T, AllocError>
    ensures tree { IfOk result (λ t. t ≡ T.renamed_by (renaming_of text.now m.new f.new) tree.now) }
    ensures in_module { OnOk result (m.new ≡ module_with text.now (T.places tree.now) m.old) }
    ensures in_func { OnOk result (f.new ≡ func_with text.now (T.places tree.now) f.old) }
    ensures err { OnErr result (HasFront text.now (T.places tree.now) m.old f.old m.new f.new) }
{
    add_names(tree, text, m, f, alloc)?;
    renamed_in(tree, text, m, f, alloc)
}

// The tree with the numbers of its names.
pub(crate) fn renamed_in<T: Numbered>(
    tree: &T,
    text: &[u8],
    m: &Module,
    f: &Func,
    alloc: Global,
) -> Result<T, AllocError>
    ensures { IfOk result (λ t. t ≡ T.renamed_by (renaming_of text.now m.now f.now) tree.now) }
{
    let numbers = Numbers {
        text,
        in_module: m,
        in_func: f,
    };
    tree.renamed(&numbers, alloc)
}

/// The same for a tree outside functions, as a global or a declare: it has no registers and no labels.
pub fn numbered_outside<T: Numbered>(
    tree: &T,
    text: &[u8],
    m: &mut Module,
    alloc: Global,
) -> Result<T, AllocError>
    ensures tree { IfOk result (λ t. t ≡ T.renamed_by (renaming_outside text.now m.new) tree.now) }
    ensures in_module { OnOk result (m.new ≡ module_with text.now (T.places tree.now) m.old) }
    ensures err { OnErr result (ModuleFront text.now (T.places tree.now) m.old m.new) }
{
    add_outer_names(tree, text, m, alloc)?;
    renamed_outside(tree, text, m, alloc)
}

// Numbers the names of types and the `@` names of a tree.
fn add_outer_names<T: Numbered>(
    tree: &T,
    text: &[u8],
    m: &mut Module,
    alloc: Global,
) -> Result<(), AllocError>
    ensures in_module { OnOk result (m.new ≡ module_with text.now (T.places tree.now) m.old) }
    ensures err { OnErr result (ModuleFront text.now (T.places tree.now) m.old m.new) }
{
    let places = places_of(tree, alloc)?;
    let places = places.items();
    if !has_room(places.len(), m) {
        return Err(AllocError);
    }
    number_in_module(places, text, m)
}

// The tree with the numbers of its names, none of which is a register's or a label's.
pub(crate) fn renamed_outside<T: Numbered>(
    tree: &T,
    text: &[u8],
    m: &Module,
    alloc: Global,
) -> Result<T, AllocError>
    ensures { IfOk result (λ t. t ≡ T.renamed_by (renaming_outside text.now m.now) tree.now) }
{
    let no_func = Func::new(alloc, Sym(0), Ty::Void);
    let renamed = renamed_in(tree, text, m, &no_func, alloc);
    drop(no_func);
    renamed
}
