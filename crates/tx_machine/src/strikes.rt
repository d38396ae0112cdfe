//! Upsets of registers.
ghost use Rattle.std.specs.Prelude.{◌≡◌, ◌+◌, ◌<◌, Some, length, slice_get, IfOk, OnOk, OnErr};
ghost use Rattle.std.specs.Option.{option_map, option_and_then, option_copied};
ghost use Rattle.ir_core.specs.Module.{FuncParts};
ghost use Rattle.inst_meaning.specs.Registers.{get};
ghost use Rattle.hard_frames.specs.Code.{blocks_at};
ghost use Rattle.hard_frames.specs.Frames.{file};
ghost use Rattle.hard_meaning.specs.Strikes.{named_in, struck_word};
ghost use Rattle.tx_machine.specs.Struck.{found_in, once_struck, struck_place, stack_struck, stack_place};

use hard_frames::{Frame, Program};
use hard_ir::HReg;
use ir_core::{Func, Loc, Name, Side};
use process::CallStack;
use sched_file::UpsetSpec;
use std::alloc::AllocError;
use upset_model::strike;

/// Where an upset has struck: the place of a frame, and a register.
#[derive(Clone, Copy)]
pub(crate) struct StruckAt {
    pub(crate) function: usize,
    pub(crate) block: usize,
    pub(crate) index: usize,
    pub(crate) reg: HReg,
}

// The number of a name in a function.
fn named_in(f: &Func, name: &Name) -> Option<Loc>
    ensures { option_map (λ at. at.0) result ≡ named_in f.now name.now }
{
    f.find_loc(name.bytes())
}

// The head of a frame's function.
fn head<'a>(program: &'a Program<'_>, frame: &Frame) -> Option<&'a Func>
    ensures { option_copied result ≡ slice_get program.now.heads.funcs frame.now.function }
{
    program.heads().funcs().get(frame.function)
}

// The register that an upset names in a frame.
fn named(program: &Program<'_>, upset: &UpsetSpec, frame: &Frame) -> Option<Loc>
    ensures { option_map (λ at. at.0) result
        ≡ option_and_then (λ f. named_in f upset.now.name) (slice_get program.now.heads.funcs frame.now.function) }
{
    match head(program, frame) {
        Some(f) => named_in(f, &upset.name),
        None => None,
    }
}

// The word of a register of a side.
fn word_on(frame: &mut Frame, side: Side, at: Loc) -> Result<Option<u128>, AllocError>
    ensures word { IfOk result (λ word. word ≡ get (file side frame.old) at.0) }
    ensures same { frame.new ≡ frame.old }
{
    match side {
        Side::M => Ok(frame.masters.get(at)),
        Side::S => frame.shadows.word(at),
    }
}

// The word that a register of a frame gets.
fn new_word(
    program: &Program<'_>,
    upset: &UpsetSpec,
    frame: &mut Frame,
    at: Loc,
) -> Result<Option<u128>, AllocError>
    ensures word { IfOk result (λ word. (f : FuncParts) → slice_get program.now.heads.funcs frame.old.function ≡ Some f
        → word ≡ struck_word f (blocks_at program.now frame.old.function) upset.now frame.old at.0) }
    ensures same { frame.new ≡ frame.old }
{
    let Some(word) = word_on(frame, upset.side, at)? else {
        return Ok(None);
    };
    Ok(strike(word, program.width(frame.function, at), upset.mask))
}

// The register that an upset strikes in a frame, and its new word.
fn find(
    program: &Program<'_>,
    upset: &UpsetSpec,
    frame: &mut Frame,
) -> Result<Option<(Loc, u128)>, AllocError>
    ensures found { IfOk result (λ found. option_map (λ found. (found.0.0, found.1)) found ≡ found_in program.now upset.now frame.old) }
    ensures same { frame.new ≡ frame.old }
{
    let Some(at) = named(program, upset, frame) else {
        return Ok(None);
    };
    match new_word(program, upset, frame, at)? {
        Some(word) => Ok(Some((at, word))),
        None => Ok(None),
    }
}

// Where an upset strikes a frame, if anywhere.
fn place_in_frame(
    program: &Program<'_>,
    upset: &UpsetSpec,
    frame: &mut Frame,
) -> Result<Option<StruckAt>, AllocError>
    ensures place { IfOk result (λ place. place ≡ struck_place program.now upset.now frame.old) }
    ensures same { frame.new ≡ frame.old }
{
    let Some((loc, _)) = find(program, upset, frame)? else {
        return Ok(None);
    };
    Ok(Some(StruckAt {
        function: frame.function,
        block: frame.block,
        index: frame.index,
        reg: HReg {
            side: upset.side,
            loc,
        },
    }))
}

// Where it strikes a frame that waits.
fn place_in_caller(
    program: &Program<'_>,
    upset: &UpsetSpec,
    stack: &mut CallStack<Frame>,
    depth: usize,
) -> Result<Option<StruckAt>, AllocError>
    requires depth { depth + 1 ≡ upset.now.depth }
    requires there { depth < length stack.old.callers }
    ensures place { IfOk result (λ place. place ≡ stack_place program.now upset.now stack.old) }
    ensures same { stack.new ≡ stack.old }
{
    stack.callers.swap(depth, &mut stack.frame);
    let place = place_in_frame(program, upset, &mut stack.frame);
    stack.callers.swap(depth, &mut stack.frame);
    place
}

/// Where an upset strikes a stack's frame, if anywhere.
pub(crate) fn place_in_stack(
    program: &Program<'_>,
    upset: &UpsetSpec,
    stack: &mut CallStack<Frame>,
) -> Result<Option<StruckAt>, AllocError>
    ensures place { IfOk result (λ place. place ≡ stack_place program.now upset.now stack.old) }
    ensures same { stack.new ≡ stack.old }
{
    let depth = upset.depth as usize;
    if depth == 0 {
        return place_in_frame(program, upset, &mut stack.frame);
    }
    if depth > stack.callers.len() {
        return Ok(None);
    }
    place_in_caller(program, upset, stack, depth - 1)
}

// Strikes a frame. For want of memory nothing changes.
fn strike_frame(
    program: &Program<'_>,
    upset: &UpsetSpec,
    frame: &mut Frame,
) -> Result<(), AllocError>
    ensures ok { OnOk result (frame.new ≡ once_struck upset.now (found_in program.now upset.now frame.old) frame.old) }
    ensures err { OnErr result (frame.new ≡ frame.old) }
{
    if let Some((loc, word)) = find(program, upset, frame)? {
        frame.give(Some((upset.side, loc)), word)?;
    }
    Ok(())
}

// Strikes a frame that waits.
fn strike_caller(
    program: &Program<'_>,
    upset: &UpsetSpec,
    stack: &mut CallStack<Frame>,
    depth: usize,
) -> Result<(), AllocError>
    requires depth { depth + 1 ≡ upset.now.depth }
    requires there { depth < length stack.old.callers }
    ensures ok { OnOk result (stack.new ≡ stack_struck program.now upset.now stack.old) }
    ensures err { OnErr result (stack.new ≡ stack.old) }
{
    stack.callers.swap(depth, &mut stack.frame);
    let struck = strike_frame(program, upset, &mut stack.frame);
    stack.callers.swap(depth, &mut stack.frame);
    struck
}

/// Strikes a stack's frame. For want of memory nothing changes.
pub(crate) fn strike_stack(
    program: &Program<'_>,
    upset: &UpsetSpec,
    stack: &mut CallStack<Frame>,
) -> Result<(), AllocError>
    ensures ok { OnOk result (stack.new ≡ stack_struck program.now upset.now stack.old) }
    ensures err { OnErr result (stack.new ≡ stack.old) }
{
    let depth = upset.depth as usize;
    if depth == 0 {
        return strike_frame(program, upset, &mut stack.frame);
    }
    if depth > stack.callers.len() {
        return Ok(());
    }
    strike_caller(program, upset, stack, depth - 1)
}
