//! The limits of declares and of functions (`specs/CodeLimits.antt`).
ghost use Rattle.std.specs.Prelude.{◌≡◌, map};
ghost use Rattle.ir_lines.specs.Lines.{DeclareLine, HeadLine, InstLine, inst_lines, blocks_lines, block_lines, func_lines, funcs_lines, code_lines, first_told};
ghost use Rattle.ir_check.specs.CodeLimits.{limit_in};

use ir_core::{Block, Declare, Func, Inst, Module};
use ir_layout::{Layout, LimitKind};
use ir_lines::Site;

// How many parameters and names a function may have.
const PARAMS: usize = 32;

const REGISTERS: u32 = 65_536;

// The first limit that a declare breaks.
fn limit_of_declare(layout: &Layout, declare: &Declare) -> Option<LimitKind>
    ensures { result ≡ limit_in layout.now.types (DeclareLine declare.now) }
{
    if let Some(kind) = layout.limit_of_declare(declare) {
        return Some(kind);
    }
    (declare.params.items().len() > PARAMS).then_some(LimitKind::Params)
}

// The first limit that a function's head breaks.
fn limit_of_head(layout: &Layout, n: usize, f: &Func) -> Option<LimitKind>
    ensures { result ≡ limit_in layout.now.types (HeadLine n f.now) }
{
    if let Some(kind) = layout.limit_of_head(f) {
        return Some(kind);
    }
    if f.params().len() > PARAMS {
        return Some(LimitKind::Params);
    }
    (f.loc_count() > REGISTERS).then_some(LimitKind::Registers)
}

// The first limit that the instructions of a block break.
fn first_of_insts(
    layout: &Layout,
    n: usize,
    f: &Func,
    b: usize,
    insts: &[Inst],
) -> Option<(Site, LimitKind)>
    ensures { result ≡ first_told (limit_in layout.now.types) (inst_lines n f.now b 0 insts.now) }
{
    for (i, inst) in insts.iter().enumerate() {
        if let Some(kind) = layout.limit_of_inst(inst) {
            let site = Site::Inst {
                func: n,
                block: b,
                inst: i,
            };
            return Some((site, kind));
        }
    }
    None
}

// The first limit that a block breaks.
fn first_of_block(
    layout: &Layout,
    n: usize,
    f: &Func,
    b: usize,
    block: &Block,
) -> Option<(Site, LimitKind)>
    ensures { result ≡ first_told (limit_in layout.now.types) (block_lines n f.now b block.now) }
{
    first_of_insts(layout, n, f, b, block.insts.items())
}

// The first limit that the blocks of a function break.
fn first_of_blocks(
    layout: &Layout,
    n: usize,
    f: &Func,
    blocks: &[Block],
) -> Option<(Site, LimitKind)>
    ensures { result ≡ first_told (limit_in layout.now.types) (blocks_lines n f.now 0 blocks.now) }
{
    for (b, block) in blocks.iter().enumerate() {
        if let Some(first) = first_of_block(layout, n, f, b, block) {
            return Some(first);
        }
    }
    None
}

// The first limit that a function breaks.
fn first_of_func(layout: &Layout, n: usize, f: &Func) -> Option<(Site, LimitKind)>
    ensures { result ≡ first_told (limit_in layout.now.types) (func_lines n f.now) }
{
    if let Some(kind) = limit_of_head(layout, n, f) {
        return Some((Site::Global(f.sym()), kind));
    }
    first_of_blocks(layout, n, f, f.blocks())
}

// The first limit that the functions break.
fn first_of_funcs(layout: &Layout, funcs: &[Func]) -> Option<(Site, LimitKind)>
    ensures { result ≡ first_told (limit_in layout.now.types) (funcs_lines 0 funcs.now) }
{
    for (n, f) in funcs.iter().enumerate() {
        if let Some(first) = first_of_func(layout, n, f) {
            return Some(first);
        }
    }
    None
}

// The first limit that the declares break.
fn first_of_declares(layout: &Layout, declares: &[Declare]) -> Option<(Site, LimitKind)>
    ensures { result ≡ first_told (limit_in layout.now.types) (map DeclareLine declares.now) }
{
    for declare in declares {
        if let Some(kind) = limit_of_declare(layout, declare) {
            return Some((Site::Global(declare.sym), kind));
        }
    }
    None
}

/// The first limit that declares and functions break.
#[tactic(auto, using(crate::proofs::Told::first_told_append))]
pub(crate) fn first_of_code(m: &Module, layout: &Layout) -> Option<(Site, LimitKind)>
    ensures { result ≡ first_told (limit_in layout.now.types) (code_lines m.now) }
{
    if let Some(first) = first_of_declares(layout, m.declares()) {
        return Some(first);
    }
    first_of_funcs(layout, m.funcs())
}
