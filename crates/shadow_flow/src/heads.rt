//! The heads of a module: all that it has but the blocks of its functions.
ghost use Rattle.std.specs.Prelude.{◌≡◌, ◌++◌, map, IfOk, OnOk};
ghost use Rattle.ir_core.specs.Module.{empty_module, empty_func};
ghost use Rattle.hard_ir.specs.Hardened.{head_of, heads_of};

use ir_core::{Copied, Declare, Func, GlobalVar, Loc, Module, Ty, TypeId};
use ir_numbering::{add_module_names_of, add_names_of};
use std::alloc::{AllocError, Global};

// Adds copies of the parameters.
fn copy_params(params: &[(Ty, Loc)], f: &mut Func, alloc: Global) -> Result<(), AllocError>
    ensures { OnOk result (f.new ≡ record f.old { params = f.old.params ++ params.now }) }
{
    for (ty, at) in params {
        let ty = ty.copy(alloc)?;
        f.add_param(ty, *at)?;
    }
    Ok(())
}

// Fills a function without parts with the parameters and the names of another.
fn fill_head(from: &Func, f: &mut Func, alloc: Global) -> Result<(), AllocError>
    requires { f.old ≡ empty_func from.now.sym from.now.ret }
    ensures { OnOk result (f.new ≡ head_of from.now) }
{
    copy_params(from.params(), f, alloc)?;
    add_names_of(from, f)?;
    Ok(())
}

// The head of a function.
fn head_of(f: &Func, alloc: Global) -> Result<Func, AllocError>
    ensures { IfOk result (λ head. head ≡ head_of f.now) }
{
    let ret = f.ret().copy(alloc)?;
    let mut head = Func::new(alloc, f.sym(), ret);
    fill_head(f, &mut head, alloc)?;
    Ok(head)
}

// Adds copies of the named types.
fn copy_types(types: &[(TypeId, Ty)], m: &mut Module, alloc: Global) -> Result<(), AllocError>
    ensures { OnOk result (m.new ≡ record m.old { types = m.old.types ++ types.now }) }
{
    for (id, ty) in types {
        let ty = ty.copy(alloc)?;
        m.add_type(*id, ty)?;
    }
    Ok(())
}

// Adds copies of the globals.
fn copy_globals(globals: &[GlobalVar], m: &mut Module, alloc: Global) -> Result<(), AllocError>
    ensures { OnOk result (m.new ≡ record m.old { globals = m.old.globals ++ globals.now }) }
{
    for global in globals {
        let global = global.copy(alloc)?;
        m.add_global(global)?;
    }
    Ok(())
}

// Adds copies of the external functions.
fn copy_declares(declares: &[Declare], m: &mut Module, alloc: Global) -> Result<(), AllocError>
    ensures { OnOk result (m.new ≡ record m.old { declares = m.old.declares ++ declares.now }) }
{
    for declare in declares {
        let declare = declare.copy(alloc)?;
        m.add_declare(declare)?;
    }
    Ok(())
}

// Adds the heads of functions.
fn copy_heads(funcs: &[Func], m: &mut Module, alloc: Global) -> Result<(), AllocError>
    ensures { OnOk result (m.new ≡ record m.old { funcs = m.old.funcs ++ map head_of funcs.now }) }
{
    for f in funcs {
        let head = head_of(f, alloc)?;
        m.add_func(head)?;
    }
    Ok(())
}

// Fills a module without parts with the heads of another.
fn fill_heads(from: &Module, m: &mut Module, alloc: Global) -> Result<(), AllocError>
    requires { m.old ≡ empty_module }
    ensures { OnOk result (m.new ≡ heads_of from.now) }
{
    add_module_names_of(from, m)?;
    copy_types(from.types(), m, alloc)?;
    copy_globals(from.globals(), m, alloc)?;
    copy_declares(from.declares(), m, alloc)?;
    copy_heads(from.funcs(), m, alloc)?;
    Ok(())
}

/// The heads of a module.
pub(crate) fn heads_of(m: &Module, alloc: Global) -> Result<Module, AllocError>
    ensures { IfOk result (λ heads. heads ≡ heads_of m.now) }
{
    let mut heads = Module::new(alloc);
    fill_heads(m, &mut heads, alloc)?;
    Ok(heads)
}
