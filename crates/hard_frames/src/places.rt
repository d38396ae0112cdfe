//! Places as text.
ghost use Rattle.std.specs.Prelude.{◌≡◌, slice_get, IfOk};
ghost use Rattle.ir_layout.specs.Limits.{name_at};
ghost use Rattle.hard_frames.specs.Code.{blocks_at};
ghost use Rattle.hard_frames.specs.Places.{function_text, label_text, place_text};

use crate::Frame;
use crate::programs::{Program, sym_name};
use ir_core::{Func, Loc, Module, Name};
use itoa::Buffer;
use std::alloc::{AllocError, Global};

// The bytes of a name in a function, and none where it has none of that number.
fn loc_name(f: &Func, at: Loc) -> &[u8]
    ensures { result.now ≡ name_at f.now.names at.0 }
{
    if at.0 < f.loc_count() {
        f.loc_name(at)
    } else {
        b""
    }
}

// The name of a function.
fn function_text(m: &Module, function: usize) -> &[u8]
    ensures { result.now ≡ function_text m.now (slice_get m.now.funcs function) }
{
    match m.funcs().get(function) {
        Some(f) => sym_name(m, f.sym()),
        None => b"",
    }
}

// The label of a frame's block.
fn label_text<'a>(program: &'a Program<'_>, frame: &Frame) -> &'a [u8]
    ensures { result.now
        ≡ label_text (slice_get program.now.heads.funcs frame.now.function) (slice_get (blocks_at program.now frame.now.function) frame.now.block) }
{
    let Some(f) = program.heads().funcs().get(frame.function) else {
        return b"";
    };
    match program.blocks(frame.function).get(frame.block) {
        Some(block) => loc_name(f, block.label),
        None => b"",
    }
}

/// The place of a frame.
pub fn place_text(alloc: Global, program: &Program<'_>, frame: &Frame) -> Result<Name, AllocError>
    ensures { IfOk result (λ place. place ≡ place_text program.now frame.now) }
{
    let mut index = Buffer::new();
    let mut text = Vec::from_slice(alloc, function_text(program.heads(), frame.function))?;
    text.extend_from_slice(b"/")?;
    text.extend_from_slice(label_text(program, frame))?;
    text.extend_from_slice(b"/")?;
    text.extend_from_slice(index.format(frame.index).as_bytes())?;
    Name::new(alloc, &text)
}
