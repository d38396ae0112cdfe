//! The texts of places and names (`specs/Places.antt`).
ghost use Rattle.std.specs.Prelude.{◌≡◌, ◌++◌, IfOk, OnOk, slice_get, codes, decimal};
ghost use Rattle.std.specs.Option.{option_copied, option_map};
ghost use Rattle.ir_layout.specs.Limits.{name_at};
ghost use Rattle.ir_check.specs.Places.{func_text, label_in, label_text, block_text, loc_text, site_text, named_text};

use ir_core::{Func, Loc, Module, Sym, TypeId};
use ir_lines::{Named, Site};
use itoa::Buffer;
use std::alloc::{AllocError, Global};

/// The `@` name, and no bytes where the module has none of that number.
pub(crate) fn sym_name(m: &Module, sym: Sym) -> &[u8]
    ensures { result.now ≡ name_at m.now.syms sym.0 }
{
    if sym.0 < m.sym_count() {
        m.sym_name(sym)
    } else {
        b""
    }
}

// The name of a type, and no bytes where the module has none of that number.
fn type_name(m: &Module, id: TypeId) -> &[u8]
    ensures { result.now ≡ name_at m.now.type_names id.0 }
{
    if id.0 < m.type_count() {
        m.type_name(id)
    } else {
        b""
    }
}

// The name of a register or a label, and no bytes where the function has none of that number.
fn loc_name(f: &Func, at: Loc) -> &[u8]
    ensures { result.now ≡ name_at f.now.names at.0 }
{
    if at.0 < f.loc_count() {
        f.loc_name(at)
    } else {
        b""
    }
}

// The name of the function with a number.
fn func_name(m: &Module, n: usize) -> &[u8]
    ensures { result.now ≡ func_text m.now n }
{
    match m.funcs().get(n) {
        Some(f) => sym_name(m, f.sym()),
        None => b"",
    }
}

// The label of a block of a function.
fn label_in(f: &Func, b: usize) -> &[u8]
    ensures { result.now ≡ label_in f.now b }
{
    match f.blocks().get(b) {
        Some(block) => loc_name(f, block.label),
        None => b"",
    }
}

fn label(m: &Module, n: usize, b: usize) -> &[u8]
    ensures { result.now ≡ label_text m.now n b }
{
    match m.funcs().get(n) {
        Some(f) => label_in(f, b),
        None => b"",
    }
}

// The name of a register or a label of the function with a number.
fn loc_of(m: &Module, n: usize, at: Loc) -> &[u8]
    ensures { result.now ≡ loc_text m.now n at }
{
    match m.funcs().get(n) {
        Some(f) => loc_name(f, at),
        None => b"",
    }
}

// Adds a function's name and a block's label.
fn push_block(text: &mut Vec<u8>, m: &Module, n: usize, b: usize) -> Result<(), AllocError>
    ensures { OnOk result (text.new.items ≡ text.old.items ++ block_text m.now n b) }
{
    text.extend_from_slice(func_name(m, n))?;
    text.extend_from_slice(b"/")?;
    text.extend_from_slice(label(m, n, b))
}

// Adds a sigil and a name.
fn push_name(text: &mut Vec<u8>, sigil: &[u8], name: &[u8]) -> Result<(), AllocError>
    ensures { OnOk result (text.new.items ≡ text.old.items ++ sigil.now ++ name.now) }
{
    text.extend_from_slice(sigil)?;
    text.extend_from_slice(name)
}

// Adds a block and the number of an instruction.
fn push_inst(text: &mut Vec<u8>, m: &Module, n: usize, b: usize, i: usize) -> Result<(), AllocError>
    ensures { OnOk result (text.new.items ≡ text.old.items ++ block_text m.now n b ++ codes "/" ++ decimal i) }
{
    push_block(text, m, n, b)?;
    let mut buffer = Buffer::new();
    push_name(text, b"/", buffer.format(i).as_bytes())
}

/// The text of a place.
pub(crate) fn site_text(alloc: Global, m: &Module, site: Site) -> Result<Vec<u8>, AllocError>
    ensures { IfOk result (λ text. text.items ≡ site_text m.now site) }
{
    let mut text = Vec::new(alloc);
    match site {
        Site::Type(id) => push_name(&mut text, b"%", type_name(m, id))?,
        Site::Global(sym) => push_name(&mut text, b"@", sym_name(m, sym))?,
        Site::Block { func, block } => push_block(&mut text, m, func, block)?,
        Site::Inst { func, block, inst } => push_inst(&mut text, m, func, block, inst)?,
        Site::Module => text.extend_from_slice(b"-")?,
    }
    Ok(text)
}

/// The text of a name.
pub(crate) fn named_text(alloc: Global, m: &Module, named: Named) -> Result<Vec<u8>, AllocError>
    ensures { IfOk result (λ text. text.items ≡ named_text m.now named) }
{
    let mut text = Vec::new(alloc);
    match named {
        Named::Type(id) => push_name(&mut text, b"%", type_name(m, id))?,
        Named::Sym(sym) => push_name(&mut text, b"@", sym_name(m, sym))?,
        Named::Loc { func, at } => push_name(&mut text, b"%", loc_of(m, func, at))?,
    }
    Ok(text)
}
