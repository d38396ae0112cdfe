//! A table of what the `@` names of a module stand for (`specs/Standings.antt`).
ghost use Rattle.std.specs.Prelude.{◌≡◌, [], ◌∷◌, map, IfOk, OnOk};
ghost use Rattle.std.specs.Option.{option_or};
ghost use Rattle.ir_core.specs.declared.types.Sym.{Sym as SymValue};
ghost use Rattle.ir_calls.specs.Calls.{first_standing, standings, of_global, of_declare, of_func};
ghost use Rattle.ir_calls.specs.Standings.{looked_up, told, AreItems};

use ir_core::{Declare, Func, GlobalVar, Module, Sym};
use std::alloc::{AllocError, Global};
use std::collections::HashMap;

/// What an `@` name stands for.
#[derive(Clone, Copy)]
pub(crate) enum Item<'m> {
    /// A global.
    Variable,
    /// An external function.
    Declared(&'m Declare),
    /// A function of the module.
    Defined(&'m Func),
}

// Enters what a name stands for, where it stands for nothing yet.
fn enter<'m>(items: &mut HashMap<u32, Item<'m>>, sym: Sym, item: Item<'m>) -> Result<(), AllocError>
    ensures { OnOk result ((other : SymValue) → looked_up items.new other ≡
        option_or (looked_up items.old other) (first_standing other ((sym, told item.entry) ∷ []))) }
{
    if !items.contains_key(&sym.0) {
        items.insert(sym.0, item)?;
    }
    Ok(())
}

// Enters globals, where their names stand for nothing yet.
fn enter_globals<'m>(
    items: &mut HashMap<u32, Item<'m>>,
    globals: &'m [GlobalVar],
) -> Result<(), AllocError>
    ensures { OnOk result ((other : SymValue) → looked_up items.new other ≡
        option_or (looked_up items.old other) (first_standing other (map of_global globals.now))) }
{
    for global in globals {
        enter(items, global.sym, Item::Variable)?;
    }
    Ok(())
}

// Enters declares, where their names stand for nothing yet.
fn enter_declares<'m>(
    items: &mut HashMap<u32, Item<'m>>,
    declares: &'m [Declare],
) -> Result<(), AllocError>
    ensures { OnOk result ((other : SymValue) → looked_up items.new other ≡
        option_or (looked_up items.old other) (first_standing other (map of_declare declares.now))) }
{
    for declare in declares {
        enter(items, declare.sym, Item::Declared(declare))?;
    }
    Ok(())
}

// Enters functions, where their names stand for nothing yet.
fn enter_funcs<'m>(items: &mut HashMap<u32, Item<'m>>, funcs: &'m [Func]) -> Result<(), AllocError>
    ensures { OnOk result ((other : SymValue) → looked_up items.new other ≡
        option_or (looked_up items.old other) (first_standing other (map of_func funcs.now))) }
{
    for f in funcs {
        enter(items, f.sym(), Item::Defined(f))?;
    }
    Ok(())
}

/// What each `@` name of a module stands for. A name that is defined twice stands for what comes first, globals before
/// declares and these before functions.
pub(crate) fn items_of<'m>(
    alloc: Global,
    m: &'m Module,
) -> Result<HashMap<u32, Item<'m>>, AllocError>
    ensures { IfOk result (λ items. AreItems (standings m.now) items) }
{
    let mut items = HashMap::new(alloc);
    enter_globals(&mut items, m.globals())?;
    enter_declares(&mut items, m.declares())?;
    enter_funcs(&mut items, m.funcs())?;
    Ok(items)
}
