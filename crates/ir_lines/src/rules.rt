//! Rules on the lines of a module, and the first line that breaks one.
ghost use Rattle.std.specs.Prelude.{◌≡◌, ◌++◌, Some, map, slice_get};
ghost use Rattle.ir_lines.specs.Lines.{inst_lines, block_lines, blocks_lines, func_lines, funcs_lines, code_lines, GlobalLine, DeclareLine};
ghost use Rattle.ir_lines.specs.Lines as lines;

use crate::Site;
use ir_core::{Block, Declare, Func, GlobalVar, Inst, Module};

/// A row of the checker's table: what it asks of each line of a module.
pub trait Rule {
    ghost use Rattle.std.specs.Prelude.{Bool};
    ghost use Rattle.ir_core.specs.Module.{ModuleParts};
    ghost use Rattle.ir_lines.specs.Lines.{Line, TypeLine, GlobalLine, DeclareLine, HeadLine, BlockLine, InstLine};

    /// The module.
    ghost module_of: { Self → ModuleParts };

    /// Whether a line keeps the rule. It asks nothing of named types.
    ghost keeps: { Self → Line → Bool };

    /// Whether a global keeps it.
    fn global(&self, global: &GlobalVar) -> bool
        ensures { result ≡ keeps self.now (GlobalLine global.now) };

    /// Whether a declare keeps it.
    fn declare(&self, declare: &Declare) -> bool
        ensures { result ≡ keeps self.now (DeclareLine declare.now) };

    /// Whether the head of the function with this number keeps it.
    fn head(&self, n: usize, f: &Func) -> bool
        requires { slice_get (module_of self.now).funcs n ≡ Some f.now }
        ensures { result ≡ keeps self.now (HeadLine n f.now) };

    /// Whether a block keeps it, without its instructions.
    fn block(&self, n: usize, f: &Func, b: usize, block: &Block) -> bool
        requires { slice_get (module_of self.now).funcs n ≡ Some f.now }
        ensures { result ≡ keeps self.now (BlockLine n f.now b block.now) };

    /// Whether an instruction keeps it.
    fn inst(&self, n: usize, f: &Func, b: usize, i: usize, inst: &Inst) -> bool
        requires { slice_get (module_of self.now).funcs n ≡ Some f.now }
        ensures { result ≡ keeps self.now (InstLine n f.now b i inst.now) };
}

// The first of a block's instructions that breaks the rule.
fn first_inst<R: Rule>(rule: &R, n: usize, f: &Func, b: usize, insts: &[Inst]) -> Option<Site>
    requires { slice_get (R.module_of rule.now).funcs n ≡ Some f.now }
    ensures { result ≡ lines.first_break (R.keeps rule.now) (inst_lines n f.now b 0 insts.now) }
{
    for (i, inst) in insts.iter().enumerate() {
        if !rule.inst(n, f, b, i, inst) {
            return Some(Site::Inst {
                func: n,
                block: b,
                inst: i,
            });
        }
    }
    None
}

// The first line of a block that breaks the rule.
fn first_in_block<R: Rule>(rule: &R, n: usize, f: &Func, b: usize, block: &Block) -> Option<Site>
    requires { slice_get (R.module_of rule.now).funcs n ≡ Some f.now }
    ensures { result ≡ lines.first_break (R.keeps rule.now) (block_lines n f.now b block.now) }
{
    if !rule.block(n, f, b, block) {
        return Some(Site::Block { func: n, block: b });
    }
    first_inst(rule, n, f, b, block.insts.items())
}

// The first line of a function's blocks that breaks the rule.
fn first_in_blocks<R: Rule>(rule: &R, n: usize, f: &Func, blocks: &[Block]) -> Option<Site>
    requires { slice_get (R.module_of rule.now).funcs n ≡ Some f.now }
    ensures { result ≡ lines.first_break (R.keeps rule.now) (blocks_lines n f.now 0 blocks.now) }
{
    for (b, block) in blocks.iter().enumerate() {
        if let Some(site) = first_in_block(rule, n, f, b, block) {
            return Some(site);
        }
    }
    None
}

// The first line of a function that breaks the rule.
fn first_in_func<R: Rule>(rule: &R, n: usize, f: &Func) -> Option<Site>
    requires { slice_get (R.module_of rule.now).funcs n ≡ Some f.now }
    ensures { result ≡ lines.first_break (R.keeps rule.now) (func_lines n f.now) }
{
    if !rule.head(n, f) {
        return Some(Site::Global(f.sym()));
    }
    first_in_blocks(rule, n, f, f.blocks())
}

// The first line of the functions that breaks the rule.
fn first_in_funcs<R: Rule>(rule: &R, funcs: &[Func]) -> Option<Site>
    requires { (R.module_of rule.now).funcs ≡ funcs.now }
    ensures { result ≡ lines.first_break (R.keeps rule.now) (funcs_lines 0 funcs.now) }
{
    for (n, f) in funcs.iter().enumerate() {
        if let Some(site) = first_in_func(rule, n, f) {
            return Some(site);
        }
    }
    None
}

// The first of the globals that breaks the rule.
fn first_global<R: Rule>(rule: &R, globals: &[GlobalVar]) -> Option<Site>
    ensures { result ≡ lines.first_break (R.keeps rule.now) (map GlobalLine globals.now) }
{
    for global in globals {
        if !rule.global(global) {
            return Some(Site::Global(global.sym));
        }
    }
    None
}

// The first of the declares that breaks the rule.
fn first_declare<R: Rule>(rule: &R, declares: &[Declare]) -> Option<Site>
    ensures { result ≡ lines.first_break (R.keeps rule.now) (map DeclareLine declares.now) }
{
    for declare in declares {
        if !rule.declare(declare) {
            return Some(Site::Global(declare.sym));
        }
    }
    None
}

#[tactic(auto, using(crate::proofs::Breaks::first_break_append))]
/// The first line of a module that breaks a rule. The lines of named types aren't looked at.
pub fn first_break<R: Rule>(m: &Module, rule: &R) -> Option<Site>
    requires { R.module_of rule.now ≡ m.now }
    ensures { result ≡ lines.first_break (R.keeps rule.now) (map GlobalLine m.now.globals ++ code_lines m.now) }
{
    if let Some(site) = first_global(rule, m.globals()) {
        return Some(site);
    }
    if let Some(site) = first_declare(rule, m.declares()) {
        return Some(site);
    }
    first_in_funcs(rule, m.funcs())
}
