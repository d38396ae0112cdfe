//! Name tables that take the names at places of a text.
ghost use Rattle.std.specs.Prelude.{◌≡◌, ◌+◌, ◌<◌, ◌↔◌, IsTrue, [], ◌∷◌, length, OnOk, OnErr};
ghost use Rattle.ir_core.specs.TokenLengths.{name_from};
ghost use Rattle.ir_numbering.specs.Numbers.{module_with, func_with, ModuleFront, FuncFront, HasRoom};

use crate::Place;
use crate::numbers::name_at;
use ir_core::{Func, Loc, Module, Sym, TypeId};
use std::alloc::AllocError;

/// Whether the name tables of a module have room for so many names more.
pub fn has_room(count: usize, m: &Module) -> bool
    ensures { IsTrue result ↔ HasRoom count m.now }
{
    count < (u32::MAX - m.sym_count()) as usize && count < (u32::MAX - m.type_count()) as usize
}

/// Whether the name table of a function has room for so many names more.
pub fn has_local_room(count: usize, f: &Func) -> bool
    ensures { IsTrue result ↔ (length f.now.names + count < 4294967295) }
{
    count < (u32::MAX - f.loc_count()) as usize
}

// Numbers the name at one place, if it is a type's or an `@` name.
#[tactic(auto, unfolding(crate::specs::Numbers::with_names))]
fn take_in_module(place: Place, text: &[u8], m: &mut Module) -> Result<(), AllocError>
    requires { HasRoom 0 m.old }
    ensures ok { OnOk result (m.new ≡ module_with text.now (place ∷ []) m.old) }
    ensures err { OnErr result (m.new ≡ m.old) }
{
    match place {
        Place::Local(_) => {}
        Place::Struct(at) => {
            m.type_id(name_at(text, at.0))?;
        }
        Place::Global(at) => {
            m.sym(name_at(text, at.0))?;
        }
    }
    Ok(())
}

// Numbers the name at one place, if it is a register's or a label's.
#[tactic(auto, unfolding(crate::specs::Numbers::with_names))]
fn take_in_func(place: Place, text: &[u8], f: &mut Func) -> Result<(), AllocError>
    requires { length f.old.names < 4294967295 }
    ensures ok { OnOk result (f.new ≡ func_with text.now (place ∷ []) f.old) }
    ensures err { OnErr result (f.new ≡ f.old) }
{
    if let Place::Local(at) = place {
        f.loc(name_at(text, at.0))?;
    }
    Ok(())
}

/// Numbers the names of types and the `@` names at the places in order: a name that its table lacks joins it.
/// For want of memory those at a front of the places may have joined, and nothing else has changed.
pub fn number_in_module(places: &[Place], text: &[u8], m: &mut Module) -> Result<(), AllocError>
    requires { HasRoom (length places.now) m.old }
    ensures ok { OnOk result (m.new ≡ module_with text.now places.now m.old) }
    ensures err { OnErr result (ModuleFront text.now places.now m.old m.new) }
{
    for place in places {
        take_in_module(*place, text, m)?;
    }
    Ok(())
}

/// Numbers the names of registers and labels at the places in order: a name that the table lacks joins it.
/// For want of memory those at a front of the places may have joined, and nothing else has changed.
pub fn number_in_func(places: &[Place], text: &[u8], f: &mut Func) -> Result<(), AllocError>
    requires { length f.old.names + length places.now < 4294967295 }
    ensures ok { OnOk result (f.new ≡ func_with text.now places.now f.old) }
    ensures err { OnErr result (FuncFront text.now places.now f.old f.new) }
{
    for place in places {
        take_in_func(*place, text, f)?;
    }
    Ok(())
}

// The `@` names of another module join a table that has none.
fn add_syms_of(table: &Module, m: &mut Module) -> Result<(), AllocError>
    requires { m.old.syms ≡ [] }
    ensures { OnOk result (m.new ≡ record m.old { syms = table.now.syms }) }
{
    let count = table.sym_count();
    let mut at = 0;
    'names: while at < count {
        m.sym(table.sym_name(Sym(at)))?;
        at += 1;
    }
    Ok(())
}

// The names of another module's types join a table that has none.
fn add_type_names_of(table: &Module, m: &mut Module) -> Result<(), AllocError>
    requires { m.old.type_names ≡ [] }
    ensures { OnOk result (m.new ≡ record m.old { type_names = table.now.type_names }) }
{
    let count = table.type_count();
    let mut at = 0;
    'names: while at < count {
        m.type_id(table.type_name(TypeId(at)))?;
        at += 1;
    }
    Ok(())
}

/// The names of another module join tables that have none: they become that module's tables, at one look-up a name.
pub fn add_module_names_of(table: &Module, m: &mut Module) -> Result<(), AllocError>
    requires syms { m.old.syms ≡ [] }
    requires type_names { m.old.type_names ≡ [] }
    ensures { OnOk result (m.new ≡ record m.old { syms = table.now.syms; type_names = table.now.type_names }) }
{
    add_syms_of(table, m)?;
    add_type_names_of(table, m)?;
    Ok(())
}

/// The names of another function join a table that has none: it becomes that other table, at one look-up a name.
pub fn add_names_of(table: &Func, f: &mut Func) -> Result<(), AllocError>
    requires { f.old.names ≡ [] }
    ensures { OnOk result (f.new ≡ record f.old { names = table.now.names }) }
{
    let count = table.loc_count();
    let mut at = 0;
    'names: while at < count {
        f.loc(table.loc_name(Loc(at)))?;
        at += 1;
    }
    Ok(())
}
