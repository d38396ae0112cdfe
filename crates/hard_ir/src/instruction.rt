//! Hardened instructions and the blocks that they stand in.
use ir_core::{Inst, Loc, Seq, Side, Ty, Val};

/// A list of hardened instructions is shorter than this: one that would reach it finds no memory.
pub const LIST_LIMIT: usize = 4_294_967_295;

/// A register of one side.
#[derive(Clone, Copy, PartialEq, Eq)]
pub struct HReg {
    pub side: Side,
    pub loc: Loc,
}

/// An operand of a check of memory.
#[derive(Drop)]
pub enum HVal {
    /// A register of one side.
    Reg(HReg),
    /// A constant, the same on both sides.
    Const(Val),
}

/// When a check compares. Where it doesn't, it takes its turn and does nothing.
#[derive(Clone, Copy, PartialEq, Eq)]
pub enum When {
    /// Always.
    Always,
    /// Only outside a transaction.
    Plain,
    /// Only inside a transaction.
    Tx,
}

/// A hardened instruction.
#[derive(Drop)]
pub enum HInst {
    /// Ends the transaction where enough work was done since it began.
    Cut,
    /// Begins a transaction.
    Begin,
    /// Ends the transaction.
    End,
    /// Adds to the count of the work done.
    Tick(u32),
    /// Compares the master of a register with its shadow.
    Chk {
        when: When,
        ty: Ty,
        reg: Loc,
    },
    /// Compares the memory at an address with a value, inside a transaction.
    ChkMem {
        ty: Ty,
        ptr: HVal,
        val: HVal,
    },
    /// Copies the master of a register to its shadow.
    Mov {
        ty: Ty,
        reg: Loc,
    },
    /// Does an instruction of the source on the registers of one side. It retires the instruction where
    /// it is the one that stands for its turn in the source run.
    Do {
        side: Side,
        inst: Inst,
        retires: bool,
    },
}

/// Phis in order, each of one side.
pub type HPhis = Seq<(Side, Inst)>;

/// Hardened instructions in order.
pub type HInsts = Seq<HInst>;

/// A hardened block: the phis of both sides, then the instructions.
#[derive(Drop)]
pub struct HBlock {
    pub label: Loc,
    pub phis: HPhis,
    pub list: HInsts,
}

/// The blocks of a function in order.
pub type HBlocks = Seq<HBlock>;

/// The functions of a module in order, each as its blocks.
pub type HFuncs = Seq<HBlocks>;
