//! What stands around calls.
ghost use Rattle.std.specs.Prelude.{◌≡◌, [], ◌∷◌, ◌++◌, slice_index_or, OnOk};
ghost use Rattle.ir_calls.specs.Calls.{external_named};
ghost use Rattle.hard_ir.specs.Image.{begins_after, begins_for, ends_before, ends_for, kind_of};

use hard_ir::{HInst, HInsts};
use ir_calls::External;
use ir_core::{Inst, Module, Sym};
use std::alloc::AllocError;

// The bytes of an `@` name, and none where the module has none of that number.
fn name_of(heads: &Module, sym: Sym) -> &[u8]
    ensures { result.now ≡ slice_index_or heads.now.syms sym.0 [] }
{
    if sym.0 < heads.sym_count() {
        heads.sym_name(sym)
    } else {
        b""
    }
}

// The external that a callee's name names.
fn external_of(heads: &Module, callee: Sym) -> Option<External>
    ensures { result ≡ external_named heads.now callee }
{
    External::named(name_of(heads, callee))
}

// Adds the end of a transaction before a call that leaves the module.
fn add_end(external: Option<External>, list: &mut HInsts) -> Result<(), AllocError>
    ensures { OnOk result (list.new ≡ list.old ++ ends_for (kind_of external)) }
{
    match external {
        None | Some(External::MutexLock | External::MutexUnlock) => Ok(()),
        Some(
            External::PthreadCreate
            | External::PthreadJoin
            | External::Putchar
            | External::Exit
            | External::Malloc
            | External::Free
            | External::HaftOut
            | External::HaftArg,
        ) => {
            list.push(HInst::End)?;
            Ok(())
        }
    }
}

// Adds what begins after a call.
fn add_begin(external: Option<External>, list: &mut HInsts) -> Result<(), AllocError>
    ensures { OnOk result (list.new ≡ list.old ++ begins_for (kind_of external)) }
{
    if external.is_none() {
        list.push(HInst::Cut)?;
    }
    list.push(HInst::Begin)?;
    Ok(())
}

// Adds the end of a transaction before an instruction that leaves the module.
pub(crate) fn add_ends(heads: &Module, inst: &Inst, list: &mut HInsts) -> Result<(), AllocError>
    ensures { OnOk result (list.new ≡ list.old ++ ends_before heads.now inst.now) }
{
    match inst {
        Inst::Call { callee, .. } => add_end(external_of(heads, *callee), list),
        Inst::Bin { .. }
        | Inst::Cmp { .. }
        | Inst::Select { .. }
        | Inst::Cast { .. }
        | Inst::Gep { .. }
        | Inst::Alloca { .. }
        | Inst::Load { .. }
        | Inst::Store { .. }
        | Inst::Rmw { .. }
        | Inst::CmpXchg { .. }
        | Inst::Fence
        | Inst::Extract { .. }
        | Inst::Phi { .. }
        | Inst::Br { .. }
        | Inst::CondBr { .. }
        | Inst::Switch { .. }
        | Inst::Ret { .. }
        | Inst::Unreachable => Ok(()),
    }
}

// Adds what begins after an instruction.
pub(crate) fn add_begins(heads: &Module, inst: &Inst, list: &mut HInsts) -> Result<(), AllocError>
    ensures { OnOk result (list.new ≡ list.old ++ begins_after heads.now inst.now) }
{
    match inst {
        Inst::Call { callee, .. } => add_begin(external_of(heads, *callee), list),
        Inst::Bin { .. }
        | Inst::Cmp { .. }
        | Inst::Select { .. }
        | Inst::Cast { .. }
        | Inst::Gep { .. }
        | Inst::Alloca { .. }
        | Inst::Load { .. }
        | Inst::Store { .. }
        | Inst::Rmw { .. }
        | Inst::CmpXchg { .. }
        | Inst::Fence
        | Inst::Extract { .. }
        | Inst::Phi { .. }
        | Inst::Br { .. }
        | Inst::CondBr { .. }
        | Inst::Switch { .. }
        | Inst::Ret { .. }
        | Inst::Unreachable => Ok(()),
    }
}
