//! Whole modules.
ghost use Rattle.std.specs.Prelude.{◌≡◌, ◌++◌, map, IfOk, OnOk};
ghost use Rattle.std.specs.List.{flat_map};
ghost use Rattle.ir_core.specs.Module.{empty_module};
ghost use Rattle.ir_numbering.specs.Places.{places_of_func};
ghost use Rattle.ir_numbering.specs.Renaming.{renamed_global, renamed_declare};
ghost use Rattle.ir_numbering.specs.Numbers.{renaming_outside, module_with, numbered_func, places_of_module, renamed_named, numbered_module};

use crate::Places;
use crate::functions::{add_places_of_func, numbered_func};
use crate::numbering::renamed_outside;
use crate::tables::{has_room, number_in_module};
use crate::trees::add_all;
use ir_core::{Declare, Func, GlobalVar, Module, Seq, Ty, TypeId};
use std::alloc::{AllocError, Global};

// Adds the places of functions.
fn add_all_funcs(funcs: &[Func], list: &mut Places) -> Result<(), AllocError>
    ensures { OnOk result (list.new ≡ list.old ++ flat_map places_of_func funcs.now) }
{
    for func in funcs {
        add_places_of_func(func, list)?;
    }
    Ok(())
}

// The places of a module's names, in the order in which they are numbered.
fn places_of_module(tree: &Module, alloc: Global) -> Result<Places, AllocError>
    ensures { IfOk result (λ places. places ≡ places_of_module tree.now) }
{
    let mut places = Seq::new(alloc);
    add_all(tree.types(), &mut places)?;
    add_all(tree.globals(), &mut places)?;
    add_all(tree.declares(), &mut places)?;
    add_all_funcs(tree.funcs(), &mut places)?;
    Ok(places)
}

// The tables of a module without parts take the names of a tree.
fn number_names(tree: &Module, text: &[u8], m: &mut Module, alloc: Global) -> Result<(), AllocError>
    ensures { OnOk result (m.new ≡ module_with text.now (places_of_module tree.now) m.old) }
{
    let places = places_of_module(tree, alloc)?;
    let places = places.items();
    if !has_room(places.len(), m) {
        return Err(AllocError);
    }
    number_in_module(places, text, m)
}

// Adds the named types with the numbers of their names.
fn fill_types(
    types: &[(TypeId, Ty)],
    text: &[u8],
    m: &mut Module,
    alloc: Global,
) -> Result<(), AllocError>
    ensures { OnOk result
        (m.new ≡ record m.old {
          types = m.old.types ++ map (renamed_named (renaming_outside text.now m.old)) types.now;
        }) }
{
    for named in types {
        let (id, ty) = renamed_outside(named, text, m, alloc)?;
        m.add_type(id, ty)?;
    }
    Ok(())
}

// Adds the globals with the numbers of their names.
fn fill_globals(
    globals: &[GlobalVar],
    text: &[u8],
    m: &mut Module,
    alloc: Global,
) -> Result<(), AllocError>
    ensures { OnOk result
        (m.new ≡ record m.old {
          globals = m.old.globals ++ map (renamed_global (renaming_outside text.now m.old)) globals.now;
        }) }
{
    for global in globals {
        let global = renamed_outside(global, text, m, alloc)?;
        m.add_global(global)?;
    }
    Ok(())
}

// Adds the external functions with the numbers of their names.
fn fill_declares(
    declares: &[Declare],
    text: &[u8],
    m: &mut Module,
    alloc: Global,
) -> Result<(), AllocError>
    ensures { OnOk result
        (m.new ≡ record m.old {
          declares = m.old.declares
              ++ map (renamed_declare (renaming_outside text.now m.old)) declares.now;
        }) }
{
    for declare in declares {
        let declare = renamed_outside(declare, text, m, alloc)?;
        m.add_declare(declare)?;
    }
    Ok(())
}

// Adds the functions with the numbers of their names.
fn fill_funcs(funcs: &[Func], text: &[u8], m: &mut Module, alloc: Global) -> Result<(), AllocError>
    ensures { OnOk result
        (m.new ≡ record m.old { funcs = m.old.funcs ++ map (numbered_func text.now m.old) funcs.now }) }
{
    for func in funcs {
        let func = numbered_func(func, text, m, alloc)?;
        m.add_func(func)?;
    }
    Ok(())
}

// Adds the parts of a tree to a module without parts, whose tables have their names.
fn fill_parts(tree: &Module, text: &[u8], m: &mut Module, alloc: Global) -> Result<(), AllocError>
    requires { m.old ≡ module_with text.now (places_of_module tree.now) empty_module }
    ensures { OnOk result (m.new ≡ numbered_module text.now tree.now) }
{
    fill_types(tree.types(), text, m, alloc)?;
    fill_globals(tree.globals(), text, m, alloc)?;
    fill_declares(tree.declares(), text, m, alloc)?;
    fill_funcs(tree.funcs(), text, m, alloc)?;
    Ok(())
}

fn fill(tree: &Module, text: &[u8], m: &mut Module, alloc: Global) -> Result<(), AllocError>
    requires { m.old ≡ empty_module }
    ensures { OnOk result (m.new ≡ numbered_module text.now tree.now) }
{
    number_names(tree, text, m, alloc)?;
    fill_parts(tree, text, m, alloc)
}

/// A module with the numbers of its names: those of types and the `@` names by first sight in the order types,
/// globals, external functions, functions; registers and labels as in `numbered_func`. The tree tells each name
/// by the place in the text where it begins. For want of memory there is none.
pub fn numbered_module(tree: &Module, text: &[u8], alloc: Global) -> Result<Module, AllocError>
    ensures { IfOk result (λ m. m ≡ numbered_module text.now tree.now) }
{
    let mut m = Module::new(alloc);
    match fill(tree, text, &mut m, alloc) {
        Ok(()) => Ok(m),
        Err(error) => {
            drop(m);
            Err(error)
        }
    }
}
