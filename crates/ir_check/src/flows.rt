//! Phis and uses over all functions (`specs/Flows.antt`).
ghost use Rattle.std.specs.Prelude.{◌≡◌, length, OnOk, IfErr};
ghost use Rattle.ir_flow.specs.Uses.{AllAssigned};
ghost use Rattle.ir_lines.specs.declared.site.Site.TheVariants.{Inst};
ghost use Rattle.ir_check.specs.Flows.{OfAll, PhisFit, IsFirstUse};
ghost use Rattle.ir_check.specs.Faults.{TellsFlow};

use crate::fault::{CheckError, Kind, fault_at, fault_with};
use ir_core::{Loc, Module};
use ir_flow::{FlowError, flow_check};
use ir_lines::{Named, Site};
use std::alloc::Global;

/// A use of a register that some path doesn't assign.
#[derive(Clone, Copy)]
pub(crate) struct Unassigned {
    pub func: usize,
    pub block: u32,
    pub inst: u32,
    pub reg: Loc,
}

// The place of an instruction.
fn site(func: usize, block: u32, inst: u32) -> Site
    ensures { result ≡ Inst func block inst }
{
    Site::Inst {
        func,
        block: block as usize,
        inst: inst as usize,
    }
}

// The error for the first use that isn't assigned.
fn refused(alloc: Global, m: &Module, first: Option<Unassigned>) -> Result<(), CheckError>
    requires phis { OfAll PhisFit m.now.funcs }
    requires first { IsFirstUse m.now.funcs (length m.now.funcs) first }
    ensures phis { OnOk result (OfAll PhisFit m.now.funcs) }
    ensures uses { OnOk result (OfAll AllAssigned m.now.funcs) }
    ensures fault { IfErr result (λ e. TellsFlow m.now e) }
{
    match first {
        None => Ok(()),
        Some(u) => {
            let name = Named::Loc {
                func: u.func,
                at: u.reg,
            };
            Err(fault_with(
                alloc,
                m,
                Kind::UseBeforeDef,
                site(u.func, u.block, u.inst),
                name,
            ))
        }
    }
}

/// Refuses the first phi that doesn't fit, else the first register that some path doesn't assign before it is read.
pub(crate) fn check_flows(alloc: Global, m: &Module) -> Result<(), CheckError>
    ensures phis { OnOk result (OfAll PhisFit m.now.funcs) }
    ensures uses { OnOk result (OfAll AllAssigned m.now.funcs) }
    ensures fault { IfErr result (λ e. TellsFlow m.now e) }
{
    let mut first = None;
    for (n, f) in m.funcs().iter().enumerate() {
        match flow_check(alloc, f) {
            Ok(()) => {}
            Err(FlowError::PhiMismatch { block, inst }) => {
                return Err(fault_at(alloc, m, Kind::PhiMismatch, site(n, block, inst)));
            }
            Err(FlowError::UseBeforeDef { block, inst, reg }) => {
                first = first.or(Some(Unassigned {
                    func: n,
                    block,
                    inst,
                    reg,
                }));
            }
            Err(FlowError::NoMemory) => return Err(CheckError::NoMemory),
        }
    }
    refused(alloc, m, first)
}
