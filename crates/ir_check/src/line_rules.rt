//! The kinds of faults that look at one line after another (`specs/Faults.antt`).
ghost use Rattle.std.specs.Prelude.{◌≡◌, ℕ, List, Option, None, true, OnOk, IfOk, IfErr};
ghost use Rattle.std.specs.Option.{option_map};
ghost use Rattle.ir_layout.specs.Limits.{Refuses};
ghost use Rattle.ir_layout.specs.declared.limits.LimitKind.{LimitKind};
ghost use Rattle.ir_core.specs.declared.types.Ty.{Ty};
ghost use Rattle.ir_core.specs.declared.types.TypeId.{TypeId};
ghost use Rattle.ir_lines.specs.Lines.{TypeLine};
ghost use Rattle.ir_layout.specs.Memory.{layout_of};
ghost use Rattle.ir_calls.specs.Calls.{calls_keep};
ghost use Rattle.ir_types.specs.Types.{types_keep};
ghost use Rattle.ir_check.specs.Blocks.{terminators_keep, entries_keep};
ghost use Rattle.ir_check.specs.Faults.{Tells, duplicate_fault, unknown_fault, limit_told, limit_fault, rule_fault, main_fault, shape_fault, code_fault, line_fault};
ghost use Rattle.ir_check.specs.declared.fault.Kind.TheVariants as kinds;

use crate::blocks::{Entries, Terminators};
use crate::code_limits::first_of_code;
use crate::fault::{CheckError, Kind, fault_at, fault_with};
use crate::functions::has_main;
use ir_calls::Calls;
use ir_core::Module;
use ir_layout::{Layout, LayoutError, layout};
use ir_lines::{Rule, Site, first_break};
use ir_names::{duplicate, unknown};
use ir_types::Types;
use std::alloc::Global;

// Refuses a name that is defined twice.
fn check_duplicates(alloc: Global, m: &Module) -> Result<(), CheckError>
    ensures ok { OnOk result (duplicate_fault m.now ≡ None) }
    ensures fault { IfErr result (λ e. Tells (duplicate_fault m.now) e) }
{
    match duplicate(alloc, m)? {
        None => Ok(()),
        Some((site, name)) => Err(fault_with(alloc, m, Kind::DuplicateName, site, name)),
    }
}

// Refuses a name that is used and nowhere defined.
fn check_unknown(alloc: Global, m: &Module) -> Result<(), CheckError>
    ensures ok { OnOk result (unknown_fault m.now ≡ None) }
    ensures fault { IfErr result (λ e. Tells (unknown_fault m.now) e) }
{
    match unknown(alloc, m)? {
        None => Ok(()),
        Some((site, name)) => Err(fault_with(alloc, m, Kind::UnknownName, site, name)),
    }
}

// The error of a layout that isn't there.
fn limit_error(error: LayoutError) -> CheckError
    ensures { (first : Option (LimitKind × List ℕ)) → Refuses first error → Tells (option_map limit_told first) result }
{
    match error {
        LayoutError::Limit { kind, at } => CheckError::Fault {
            kind: Kind::Limit(kind),
            at,
            name: None,
        },
        LayoutError::NoMemory => CheckError::NoMemory,
    }
}

// The layout of a module, where no limit is broken.
fn check_limits(alloc: Global, m: &Module) -> Result<Layout, CheckError>
    ensures ok { OnOk result (limit_fault m.now ≡ None) }
    ensures layout { IfOk result (λ l. l ≡ layout_of m.now) }
    ensures fault { IfErr result (λ e. Tells (limit_fault m.now) e) }
{
    let layout = match layout(alloc, m) {
        Ok(layout) => layout,
        Err(error) => return Err(limit_error(error)),
    };
    match first_of_code(m, &layout) {
        None => Ok(layout),
        Some((site, kind)) => Err(fault_at(alloc, m, Kind::Limit(kind), site)),
    }
}

// Refuses the first line that breaks a rule, which asks nothing of named types.
fn check_rule<R: Rule>(alloc: Global, m: &Module, kind: Kind, rule: &R) -> Result<(), CheckError>
    requires same { R.module_of rule.now ≡ m.now }
    requires types { (named : TypeId × Ty) → R.keeps rule.now (TypeLine named) ≡ true }
    ensures ok { OnOk result (rule_fault m.now kind (R.keeps rule.now) ≡ None) }
    ensures fault { IfErr result (λ e. Tells (rule_fault m.now kind (R.keeps rule.now)) e) }
{
    match first_break(m, rule) {
        None => Ok(()),
        Some(site) => Err(fault_at(alloc, m, kind, site)),
    }
}

// Refuses a module without a `main`.
fn check_main(alloc: Global, m: &Module) -> Result<(), CheckError>
    ensures ok { OnOk result (main_fault m.now ≡ None) }
    ensures fault { IfErr result (λ e. Tells (main_fault m.now) e) }
{
    if has_main(m) {
        Ok(())
    } else {
        Err(fault_at(alloc, m, Kind::NoMain, Site::Module))
    }
}

// Refuses an edge to the entry of a function.
fn check_entries(alloc: Global, m: &Module) -> Result<(), CheckError>
    ensures ok { OnOk result (rule_fault m.now kinds.EntryHasPredecessor entries_keep ≡ None) }
    ensures fault { IfErr result (λ e. Tells (rule_fault m.now kinds.EntryHasPredecessor entries_keep) e) }
{
    let rule = Entries::new(alloc, m)?;
    check_rule(alloc, m, Kind::EntryHasPredecessor, &rule)
}

// Refuses a module without a `main`, and then an edge to an entry.
fn check_shape(alloc: Global, m: &Module) -> Result<(), CheckError>
    ensures ok { OnOk result (shape_fault m.now ≡ None) }
    ensures fault { IfErr result (λ e. Tells (shape_fault m.now) e) }
{
    check_main(alloc, m)?;
    check_entries(alloc, m)
}

// Refuses a block that doesn't end in its one terminator.
fn check_terminators(alloc: Global, m: &Module) -> Result<(), CheckError>
    ensures ok { OnOk result (rule_fault m.now kinds.BadTerminator terminators_keep ≡ None) }
    ensures fault { IfErr result (λ e. Tells (rule_fault m.now kinds.BadTerminator terminators_keep) e) }
{
    check_rule(alloc, m, Kind::BadTerminator, &Terminators { m })
}

// Refuses a bad call.
fn check_calls(alloc: Global, m: &Module) -> Result<(), CheckError>
    ensures ok { OnOk result (rule_fault m.now kinds.BadCall (calls_keep m.now) ≡ None) }
    ensures fault { IfErr result (λ e. Tells (rule_fault m.now kinds.BadCall (calls_keep m.now)) e) }
{
    let rule = Calls::new(alloc, m)?;
    check_rule(alloc, m, Kind::BadCall, &rule)
}

// Refuses a type that isn't the one that must stand there.
fn check_types(alloc: Global, m: &Module, layout: &Layout) -> Result<(), CheckError>
    requires { layout.now ≡ layout_of m.now }
    ensures ok { OnOk result (rule_fault m.now kinds.TypeMismatch (types_keep m.now) ≡ None) }
    ensures fault { IfErr result (λ e. Tells (rule_fault m.now kinds.TypeMismatch (types_keep m.now)) e) }
{
    let rule = Types::new(alloc, m, layout)?;
    check_rule(alloc, m, Kind::TypeMismatch, &rule)
}

// Refuses the first fault of the code, once names and limits are right.
fn check_code(alloc: Global, m: &Module, layout: &Layout) -> Result<(), CheckError>
    requires { layout.now ≡ layout_of m.now }
    ensures ok { OnOk result (code_fault m.now ≡ None) }
    ensures fault { IfErr result (λ e. Tells (code_fault m.now) e) }
{
    check_terminators(alloc, m)?;
    check_calls(alloc, m)?;
    check_types(alloc, m, layout)?;
    check_shape(alloc, m)
}

/// The layout of a module, or the first fault of the kinds that look at one line after another.
pub(crate) fn check_lines(alloc: Global, m: &Module) -> Result<Layout, CheckError>
    ensures ok { OnOk result (line_fault m.now ≡ None) }
    ensures layout { IfOk result (λ l. l ≡ layout_of m.now) }
    ensures fault { IfErr result (λ e. Tells (line_fault m.now) e) }
{
    check_duplicates(alloc, m)?;
    check_unknown(alloc, m)?;
    let layout = check_limits(alloc, m)?;
    check_code(alloc, m, &layout)?;
    Ok(layout)
}
