//! Makes the layout of a module, in the order in which limits are looked at.
ghost use Rattle.std.specs.Prelude.{◌≡◌, ◌≤◌, ◌∷◌, ◌++◌, [], None, IfOk, IfErr, OnOk};
ghost use Rattle.ir_layout.specs.Memory.{layout_of, spans_from, span_at, globals_start, AreAddresses};
ghost use Rattle.ir_layout.specs.Limits.{limit_of_global, first_of_types, first_of_globals, first_limit, globals_end, name_at, Refuses};

use crate::Layout;
use crate::address_map::{AREA_SIZE, GLOBALS_START};
use crate::limits::{LayoutError, LimitKind, limit_among, refusal};
use crate::spans::Span;
use crate::type_table::TypeTable;
use ir_core::{GlobalVar, Module, Sym, TypeId};
use std::alloc::{AllocError, Global};
use std::collections::HashMap;

const GLOBALS_END: u64 = GLOBALS_START + AREA_SIZE;

// Refuses the first named type that breaks a limit.
fn check_types(alloc: Global, m: &Module, types: &TypeTable) -> Result<(), LayoutError>
    requires { types.now ≡ m.now.types }
    ensures ok { OnOk result (first_of_types m.now m.now.types ≡ None) }
    ensures limit { IfErr result (λ e. Refuses (first_of_types m.now m.now.types) e) }
{
    for (id, body) in m.types() {
        if let Some(kind) = types.limit(body) {
            return Err(refusal(alloc, kind, b'%', type_name(m, *id)));
        }
    }
    Ok(())
}

// The name of a type, and no bytes where the module has none of that number.
fn type_name(m: &Module, id: TypeId) -> &[u8]
    ensures { result.now ≡ name_at m.now.type_names id.0 }
{
    if id.0 < m.type_count() {
        m.type_name(id)
    } else {
        b""
    }
}

// The `@` name, and no bytes where the module has none of that number.
fn sym_name(m: &Module, sym: Sym) -> &[u8]
    ensures { result.now ≡ name_at m.now.syms sym.0 }
{
    if sym.0 < m.sym_count() {
        m.sym_name(sym)
    } else {
        b""
    }
}

// The first limit that a global breaks which stands behind what is taken.
fn limit_of_global(types: &TypeTable, taken: u64, global: &GlobalVar) -> Option<LimitKind>
    requires low { globals_start ≤ taken }
    requires high { taken ≤ globals_end }
    ensures { result ≡ limit_of_global types.now taken global.now }
{
    let shape = types.known_shape(&global.ty);
    let start = (taken + 15) / 16 * 16;
    if shape.large || shape.size > GLOBALS_END - start {
        return Some(LimitKind::Globals);
    }
    limit_among(types, global)
}

// The place of a global behind what is taken.
fn span_at(types: &TypeTable, taken: u64, global: &GlobalVar) -> Span
    requires high { taken ≤ globals_end }
    requires fits { limit_of_global types.now taken global.now ≡ None }
    ensures { result ≡ span_at types.now taken global.now }
{
    let shape = types.known_shape(&global.ty);
    Span {
        sym: global.sym,
        start: (taken + 15) / 16 * 16,
        size: shape.size,
    }
}

// Adds a global.
fn add_global(
    globals: &mut Vec<Span>,
    addresses: &mut HashMap<u32, u64>,
    span: Span,
) -> Result<(), AllocError>
    requires { AreAddresses globals.old.items addresses.old }
    ensures added { OnOk result (globals.new.items ≡ globals.old.items ++ span ∷ []) }
    ensures addresses { OnOk result (AreAddresses globals.new.items addresses.new) }
{
    addresses.insert(span.sym.0, span.start)?;
    globals.push(span)?;
    Ok(())
}

// The places of the globals, or the first limit that one of them breaks.
fn place_globals(
    alloc: Global,
    m: &Module,
    types: &TypeTable,
) -> Result<(Vec<Span>, HashMap<u32, u64>), LayoutError>
    requires { types.now ≡ m.now.types }
    ensures ok { IfOk result (λ _. first_of_globals m.now globals_start m.now.globals ≡ None) }
    ensures placed { IfOk result
        (λ r. r.0.items ≡ spans_from m.now.types globals_start m.now.globals) }
    ensures addresses { IfOk result (λ r. AreAddresses r.0.items r.1) }
    ensures limit { IfErr result
        (λ e. Refuses (first_of_globals m.now globals_start m.now.globals) e) }
{
    let mut globals = Vec::with_capacity(alloc, m.globals().len())?;
    let mut addresses = HashMap::new(alloc);
    let mut taken = GLOBALS_START;
    for global in m.globals() {
        if let Some(kind) = limit_of_global(types, taken, global) {
            return Err(refusal(alloc, kind, b'@', sym_name(m, global.sym)));
        }
        let span = span_at(types, taken, global);
        add_global(&mut globals, &mut addresses, span)?;
        taken = span.start + span.size;
    }
    Ok((globals, addresses))
}

/// The layout of a module, or the first limit that its types or globals break.
pub fn layout(alloc: Global, m: &Module) -> Result<Layout, LayoutError>
    ensures fits { IfOk result (λ _. first_limit m.now ≡ None) }
    ensures layout { IfOk result (λ l. l ≡ layout_of m.now) }
    ensures limit { IfErr result (λ e. Refuses (first_limit m.now) e) }
{
    let types = TypeTable::new(alloc, m.types())?;
    check_types(alloc, m, &types)?;
    let (globals, addresses) = place_globals(alloc, m, &types)?;
    Ok(Layout::of(types, globals, addresses))
}
