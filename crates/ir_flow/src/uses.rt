//! The registers that a function reads.
ghost use Rattle.std.specs.Prelude.{◌≡◌, ◌++◌, ◌∷◌, [], length, OnOk, IfOk};
ghost use Rattle.std.specs.List.{flat_map};
ghost use Rattle.ir_flow.specs.Labels.{AreNumbers};
ghost use Rattle.ir_flow.specs.Paths.{body_of};
ghost use Rattle.ir_flow.specs.Uses.{reg_in, reg_in_arg, reg_in_index, reg_in_option, regs_in, arms_in, uses_here, uses_at_end, uses_of_arm, uses_of_inst, uses_of_body, uses_of};

use crate::control::numbers_of;
use ir_core::{Block, Func, Inst, Loc, Ty, Val, Width};
use std::alloc::{AllocError, Global};
use std::collections::HashMap;

/// A register that an instruction reads, and the place at which it must be assigned.
#[derive(Clone, Copy)]
pub(crate) struct Use {
    pub block: u32,
    pub inst: u32,
    pub reg: Loc,
    pub at_block: u32,
    pub at_inst: u32,
}

// Adds the register of a value.
fn add_reg(val: &Val, regs: &mut Vec<Loc>) -> Result<(), AllocError>
    ensures { OnOk result (regs.new.items ≡ regs.old.items ++ reg_in val.now) }
{
    if let Val::Reg(at) = val {
        regs.push(*at)?;
    }
    Ok(())
}

// Adds the registers of two values.
fn add_both(a: &Val, b: &Val, regs: &mut Vec<Loc>) -> Result<(), AllocError>
    ensures { OnOk result (regs.new.items ≡ regs.old.items ++ (reg_in a.now ++ reg_in b.now)) }
{
    add_reg(a, regs)?;
    add_reg(b, regs)
}

// Adds the registers of three values.
fn add_three(a: &Val, b: &Val, c: &Val, regs: &mut Vec<Loc>) -> Result<(), AllocError>
    ensures { OnOk result
        (regs.new.items ≡ regs.old.items ++ (reg_in a.now ++ reg_in b.now ++ reg_in c.now)) }
{
    add_both(a, b, regs)?;
    add_reg(c, regs)
}

// Adds the registers of a pointer and of its indices.
fn add_indices(ptr: &Val, index: &[(Width, Val)], regs: &mut Vec<Loc>) -> Result<(), AllocError>
    ensures { OnOk result
        (regs.new.items ≡ regs.old.items ++ (reg_in ptr.now ++ flat_map reg_in_index index.now)) }
{
    add_reg(ptr, regs)?;
    for (_, val) in index {
        add_reg(val, regs)?;
    }
    Ok(())
}

// Adds the registers of arguments.
fn add_args(args: &[(Ty, Val)], regs: &mut Vec<Loc>) -> Result<(), AllocError>
    ensures { OnOk result (regs.new.items ≡ regs.old.items ++ flat_map reg_in_arg args.now) }
{
    for (_, val) in args {
        add_reg(val, regs)?;
    }
    Ok(())
}

// Adds the register of a value that may lack.
fn add_option(val: &Option<Val>, regs: &mut Vec<Loc>) -> Result<(), AllocError>
    ensures { OnOk result (regs.new.items ≡ regs.old.items ++ reg_in_option val.now) }
{
    match val {
        None => Ok(()),
        Some(val) => add_reg(val, regs),
    }
}

// Adds a register.
fn add_loc(reg: Loc, regs: &mut Vec<Loc>) -> Result<(), AllocError>
    ensures { OnOk result (regs.new.items ≡ regs.old.items ++ reg ∷ []) }
{
    regs.push(reg)?;
    Ok(())
}

// Adds the registers that an instruction reads where it stands, as its line writes them.
fn add_regs(inst: &Inst, regs: &mut Vec<Loc>) -> Result<(), AllocError>
    ensures { OnOk result (regs.new.items ≡ regs.old.items ++ regs_in inst.now) }
{
    match inst {
        Inst::Bin { a, b, .. } | Inst::Cmp { a, b, .. } => add_both(a, b, regs),
        Inst::Select { cond, a, b, .. } => add_three(cond, a, b, regs),
        Inst::Cast { a, .. } => add_reg(a, regs),
        Inst::Gep { ptr, index, .. } => add_indices(ptr, index.items(), regs),
        Inst::Load { ptr, .. } => add_reg(ptr, regs),
        Inst::Store { val, ptr, .. } => add_both(val, ptr, regs),
        Inst::Rmw { ptr, val, .. } => add_both(ptr, val, regs),
        Inst::CmpXchg { ptr, old, new, .. } => add_three(ptr, old, new, regs),
        Inst::Extract { pair, .. } => add_loc(*pair, regs),
        Inst::Call { args, .. } => add_args(args.items(), regs),
        Inst::CondBr { cond, .. } => add_reg(cond, regs),
        Inst::Switch { on, .. } => add_reg(on, regs),
        Inst::Ret { val, .. } => add_option(val, regs),
        Inst::Alloca { .. }
        | Inst::Fence
        | Inst::Phi { .. }
        | Inst::Br { .. }
        | Inst::Unreachable => Ok(()),
    }
}

// The arms of a phi.
pub(crate) fn arms_in(inst: &Inst) -> &[(Val, Loc)]
    ensures { result.now ≡ arms_in inst.now }
{
    match inst {
        Inst::Phi { arms, .. } => arms.items(),
        _ => &[],
    }
}

// Adds registers that are read where the instruction stands.
fn add_here(block: u32, inst: u32, regs: &[Loc], uses: &mut Vec<Use>) -> Result<(), AllocError>
    ensures { OnOk result (uses.new.items ≡ uses.old.items ++ uses_here block inst regs.now) }
{
    for reg in regs {
        uses.push(Use {
            block,
            inst,
            reg: *reg,
            at_block: block,
            at_inst: inst,
        })?;
    }
    Ok(())
}

// How many instructions the block with a number has.
fn end_of(blocks: &[Block], n: u32) -> Result<u32, AllocError>
    ensures { IfOk result (λ end. end ≡ length (body_of blocks.now n)) }
{
    let end = match blocks.get(n as usize) {
        Some(block) => block.insts.items().len(),
        None => 0,
    };
    u32::try_from(end).map_err(|_error| AllocError)
}

// Adds what an arm of a phi reads at the end of its label's block.
fn add_arm(
    blocks: &[Block],
    numbers: &HashMap<u32, u32>,
    block: u32,
    inst: u32,
    arm: &(Val, Loc),
    uses: &mut Vec<Use>,
) -> Result<(), AllocError>
    requires { AreNumbers blocks.now numbers.now }
    ensures { OnOk result
        (uses.new.items ≡ uses.old.items ++ uses_of_arm blocks.now block inst arm.now) }
{
    let (val, label) = arm;
    if let (Val::Reg(reg), Some(from)) = (val, numbers.get(&label.0)) {
        let at_inst = end_of(blocks, *from)?;
        uses.push(Use {
            block,
            inst,
            reg: *reg,
            at_block: *from,
            at_inst,
        })?;
    }
    Ok(())
}

// Adds the uses of an instruction.
fn add_inst(
    alloc: Global,
    blocks: &[Block],
    numbers: &HashMap<u32, u32>,
    block: u32,
    number: u32,
    inst: &Inst,
    uses: &mut Vec<Use>,
) -> Result<(), AllocError>
    requires { AreNumbers blocks.now numbers.now }
    ensures { OnOk result
        (uses.new.items ≡ uses.old.items ++ uses_of_inst blocks.now block number inst.now) }
{
    let mut regs = Vec::new(alloc);
    add_regs(inst, &mut regs)?;
    add_here(block, number, regs.as_slice(), uses)?;
    for arm in arms_in(inst) {
        add_arm(blocks, numbers, block, number, arm, uses)?;
    }
    Ok(())
}

// Adds the uses of a block.
fn add_body(
    alloc: Global,
    blocks: &[Block],
    numbers: &HashMap<u32, u32>,
    block: u32,
    body: &[Inst],
    uses: &mut Vec<Use>,
) -> Result<(), AllocError>
    requires { AreNumbers blocks.now numbers.now }
    ensures { OnOk result
        (uses.new.items ≡ uses.old.items ++ uses_of_body blocks.now block 0 body.now) }
{
    let mut number: u32 = 0;
    for inst in body {
        add_inst(alloc, blocks, numbers, block, number, inst, uses)?;
        number = number.checked_add(1).ok_or(AllocError)?;
    }
    Ok(())
}

/// The uses of a function in order.
pub(crate) fn uses_of(alloc: Global, f: &Func) -> Result<Vec<Use>, AllocError>
    ensures { IfOk result (λ uses. uses.items ≡ uses_of f.now) }
{
    let numbers = numbers_of(alloc, f.blocks())?;
    let mut uses = Vec::new(alloc);
    let mut block: u32 = 0;
    for each in f.blocks() {
        add_body(
            alloc,
            f.blocks(),
            &numbers,
            block,
            each.insts.items(),
            &mut uses,
        )?;
        block = block.checked_add(1).ok_or(AllocError)?;
    }
    Ok(uses)
}
