//! What `@` names stand for where they are called.
ghost use Rattle.std.specs.Prelude.{◌≡◌, map, IfOk};
ghost use Rattle.inst_meaning.specs.Action.{callees_of, outside_callee};

use crate::Callee;
use ir_calls::External;
use ir_core::{Module, Sym};
use std::alloc::{AllocError, Global};

// What a name stands for outside the module.
fn outside_callee(name: &[u8]) -> Callee
    ensures { result ≡ outside_callee name.now }
{
    match External::named(name) {
        Some(external) => Callee::Outside(external),
        None => Callee::Unknown,
    }
}

// What each `@` name of a module stands for outside it, by number.
fn outside(alloc: Global, m: &Module) -> Result<Vec<Callee>, AllocError>
    ensures { IfOk result (λ callees. callees.items ≡ map outside_callee m.now.syms) }
{
    let count = m.sym_count();
    let mut callees = Vec::with_capacity(alloc, count as usize)?;
    for number in 0..count {
        callees.push(outside_callee(m.sym_name(Sym(number))))?;
    }
    Ok(callees)
}

/// What each `@` name of a module stands for where it is called, by number. Where two functions have one name, the first
/// counts.
pub fn callees_of(alloc: Global, m: &Module) -> Result<Vec<Callee>, AllocError>
    ensures { IfOk result (λ callees. callees.items ≡ callees_of m.now) }
{
    let mut callees = outside(alloc, m)?;
    let funcs = m.funcs();
    for number in (0..funcs.len()).rev() {
        let sym = funcs[number].sym().0 as usize;
        if sym < callees.len() {
            callees[sym] = Callee::Defined(number);
        }
    }
    Ok(callees)
}
