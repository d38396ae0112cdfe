//! The bytes that memory opens with (LLVM Language Reference, 'Global Variables').
ghost use Rattle.std.specs.Prelude.{◌≡◌, ◌++◌, [], fold, IfOk, OnOk};
ghost use Rattle.byteorder.specs.Endian.{little_bytes};
ghost use Rattle.mem_image.specs.Opening.{exactly, zeroes, size_in, address_in, inner_address, with_part, bytes_given, with_global};

use ir_core::{ConstGep, GlobalVar, Init, Module, Sym, Ty};
use ir_layout::{GLOBALS_START, Layout};
use std::alloc::{AllocError, Global};

/// So many zeroes.
#[tactic(auto, unfolding(crate::specs::Opening::zeroes))]
pub(crate) fn zeroes(alloc: Global, count: usize) -> Result<Vec<u8>, AllocError>
    ensures { IfOk result (λ bytes. bytes.items ≡ zeroes count) }
{
    vec![in alloc; 0; count]
}

/// Cuts the bytes, or adds zeroes, so that there are so many.
#[tactic(auto, unfolding(crate::specs::Opening::exactly))]
pub(crate) fn fit(bytes: &mut Vec<u8>, count: u64) -> Result<(), AllocError>
    ensures { OnOk result (bytes.new.items ≡ exactly count bytes.old.items) }
{
    bytes.resize(count as usize, 0)?;
    Ok(())
}

/// How many bytes a type takes, and 0 where it breaks a limit.
pub fn size_in(l: &Layout, ty: &Ty) -> u64
    ensures { result ≡ size_in l.now ty.now }
{
    match l.limit(ty) {
        None => l.size_of(ty),
        Some(_) => 0,
    }
}

/// The address of a global, and 0 for a name that is none.
pub fn address_in(l: &Layout, sym: Sym) -> u64
    ensures { result ≡ address_in l.now sym }
{
    l.address(sym).unwrap_or(0)
}

/// The address of a constant `getelementptr`.
pub fn inner_address(l: &Layout, gep: &ConstGep) -> u64
    ensures { result ≡ inner_address l.now gep.now }
{
    let offset = l.offset(&gep.base, gep.index.items()).unwrap_or(0);
    address_in(l, gep.sym).wrapping_add(offset)
}

// The bytes of a word of 64 bits, the lowest first.
fn word_bytes(alloc: Global, word: u64) -> Result<Vec<u8>, AllocError>
    ensures { IfOk result (λ bytes. bytes.items ≡ little_bytes 8 word) }
{
    Vec::from_slice(alloc, &word.to_le_bytes())
}

// Adds a part's bytes behind those so far, where its type starts.
fn add_part(l: &Layout, bytes: &mut Vec<u8>, ty: &Ty, part: Vec<u8>) -> Result<(), AllocError>
    ensures { OnOk result (bytes.new.items ≡ with_part l.now bytes.old.items (ty.now, part.items)) }
{
    let mut part = part;
    fit(&mut part, size_in(l, ty))?;
    fit(bytes, l.field_start(bytes.len() as u64, ty))?;
    bytes.extend_from_slice(&part)
}

// The bytes that an initialiser gives.
fn bytes_given(alloc: Global, l: &Layout, init: &Init) -> Result<Vec<u8>, AllocError>
    ensures { IfOk result (λ bytes. bytes.items ≡ bytes_given l.now init.now) }
{
    match init {
        Init::Zero | Init::Null => Ok(Vec::new(alloc)),
        Init::Int(word) => word_bytes(alloc, *word),
        Init::Addr(sym) => word_bytes(alloc, address_in(l, *sym)),
        Init::Gep(gep) => word_bytes(alloc, inner_address(l, gep)),
        Init::Bytes(bytes) => Vec::from_slice(alloc, bytes.bytes()),
        Init::Parts(parts) => {
            let mut bytes = Vec::new(alloc);
            for (ty, init) in parts.items() {
                let part = bytes_given(alloc, l, init)?;
                add_part(l, &mut bytes, ty, part)?;
            }
            Ok(bytes)
        }
    }
}

// Adds a global's bytes behind those so far, at its address.
fn add_global(
    alloc: Global,
    l: &Layout,
    bytes: &mut Vec<u8>,
    global: &GlobalVar,
) -> Result<(), AllocError>
    ensures { OnOk result (bytes.new.items ≡ with_global l.now bytes.old.items global.now) }
{
    let mut given = bytes_given(alloc, l, &global.init)?;
    fit(&mut given, size_in(l, &global.ty))?;
    fit(
        bytes,
        address_in(l, global.sym).saturating_sub(GLOBALS_START),
    )?;
    bytes.extend_from_slice(&given)
}

/// The bytes of the globals, each at its address.
pub(crate) fn global_bytes(alloc: Global, l: &Layout, m: &Module) -> Result<Vec<u8>, AllocError>
    ensures { IfOk result (λ bytes. bytes.items ≡ fold (with_global l.now) [] m.now.globals) }
{
    let mut bytes = Vec::new(alloc);
    for global in m.globals() {
        add_global(alloc, l, &mut bytes, global)?;
    }
    Ok(bytes)
}
