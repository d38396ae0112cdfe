//! What an instruction asks for (LLVM Language Reference, 'Instruction Reference').
ghost use Rattle.std.specs.Prelude.{◌≡◌, IfOk, slice_index_or};
ghost use Rattle.inst_meaning.specs.declared.actions.Callee.TheVariants.{Unknown};
ghost use Rattle.inst_meaning.specs.Accesses.{IsFitting};
ghost use Rattle.inst_meaning.specs.Action.{operation, comparison, selection, is_cast, conversion, element, place_at, loading, storing, combining, exchanging, extraction, branching, case_of, switching, returning, asked, named_function, creating, asking, outside, calling, action_of, destination};

use crate::operands::{low, memory_width, size_of_width, width_of};
use crate::{Action, Callee, Cause, Operands, Place, Request, Update};
use ir_calls::External;
use ir_core::{BinOp, CastOp, Flags, Inst, Loc, Pred, RmwOp, Sym, Ty, Val, Width};
use mem_image::size_in;
use op_table::{OpCause, bin, bit_count, cast, cmp};
use std::alloc::{AllocError, Global};

// The bytes of a word of this width.
fn place_at(address: u64, w: Width) -> Place
    ensures { result ≡ place_at address w }
{
    Place {
        address,
        size: size_of_width(w),
    }
}

// Whether a cast goes between words of these widths.
fn is_cast(op: CastOp, from: Width, to: Width) -> bool
    ensures { result ≡ is_cast op from to }
{
    match op {
        CastOp::Zext | CastOp::Sext => bit_count(from) < bit_count(to),
        CastOp::Trunc => bit_count(to) < bit_count(from),
        CastOp::Ptrtoint => bit_count(from) == 64,
        CastOp::Inttoptr => bit_count(to) == 64,
    }
}

// The label of the first case that is equal, or the default.
fn case_of(n: u64, cases: &[(u64, Loc)], default: Loc) -> Loc
    ensures { result ≡ case_of n cases.now default }
{
    for (case, label) in cases {
        if *case == n {
            return *label;
        }
    }
    default
}

// What an external that takes one word asks for.
fn asked(external: External, n: u64) -> Action
    ensures { result ≡ asked external n }
{
    match external {
        External::PthreadCreate => Action::Fault(Cause::Unreachable),
        External::PthreadJoin => Action::Join(n),
        External::MutexLock => Action::Ask(Request::Lock(n)),
        External::MutexUnlock => Action::Ask(Request::Unlock(n)),
        External::Putchar => Action::Ask(Request::Put(n)),
        External::Exit => Action::Exit(n),
        External::Malloc => Action::Ask(Request::Allocate(n)),
        External::Free => Action::Ask(Request::Free),
        External::HaftOut => Action::Ask(Request::Output(n)),
        External::HaftArg => Action::Ask(Request::Argument(n)),
    }
}

/// The register that takes an instruction's result.
pub fn destination(inst: &Inst) -> Option<Loc>
    ensures { result ≡ destination inst.now }
{
    match inst {
        Inst::Bin { dst, .. }
        | Inst::Cmp { dst, .. }
        | Inst::Select { dst, .. }
        | Inst::Cast { dst, .. }
        | Inst::Gep { dst, .. }
        | Inst::Alloca { dst, .. }
        | Inst::Load { dst, .. }
        | Inst::Rmw { dst, .. }
        | Inst::CmpXchg { dst, .. }
        | Inst::Extract { dst, .. } => Some(*dst),
        Inst::Call { dst, .. } => *dst,
        _ => None,
    }
}

impl Operands<'_> {
    // An operator.
    fn operate(&self, op: BinOp, flags: Flags, w: Width, a: &Val, b: &Val) -> Action
        ensures { result ≡ operation self.now.layout.now self.now.registers.now op flags w a.now b.now }
    {
        let (Some(a), Some(b)) = (self.word_at(w, a), self.word_at(w, b)) else {
            return Action::Fault(Cause::Unreachable);
        };
        match bin(op, flags, w, a, b) {
            Ok(word) => Action::Assign(u128::from(word)),
            Err(OpCause::Divide) => Action::Fault(Cause::Divide),
            Err(OpCause::Poison) => Action::Fault(Cause::Poison),
        }
    }

    // An `icmp`.
    fn compare(&self, pred: Pred, ty: &Ty, a: &Val, b: &Val) -> Action
        ensures { result ≡ comparison self.now.layout.now self.now.registers.now pred ty.now a.now b.now }
    {
        let Some(w) = width_of(ty) else {
            return Action::Fault(Cause::Unreachable);
        };
        match (self.word_at(w, a), self.word_at(w, b)) {
            (Some(a), Some(b)) => Action::Assign(u128::from(cmp(pred, w, a, b))),
            _ => Action::Fault(Cause::Unreachable),
        }
    }

    // A `select`.
    fn select(&self, condition: &Val, ty: &Ty, a: &Val, b: &Val) -> Action
        ensures { result ≡ selection self.now.layout.now self.now.registers.now condition.now ty.now a.now b.now }
    {
        let condition = self.word_at(Width::W1, condition);
        match (condition, self.typed_word(ty, a), self.typed_word(ty, b)) {
            (Some(condition), Some(a), Some(b)) => {
                Action::Assign(u128::from(if condition == 1 { a } else { b }))
            }
            _ => Action::Fault(Cause::Unreachable),
        }
    }

    // A cast.
    fn convert(&self, op: CastOp, from: &Ty, a: &Val, to: &Ty) -> Action
        ensures { result ≡ conversion self.now.layout.now self.now.registers.now op from.now a.now to.now }
    {
        let (Some(from), Some(to)) = (width_of(from), width_of(to)) else {
            return Action::Fault(Cause::Unreachable);
        };
        if !is_cast(op, from, to) {
            return Action::Fault(Cause::Unreachable);
        }
        match self.word_at(from, a) {
            Some(word) => Action::Assign(u128::from(cast(op, from, to, word))),
            None => Action::Fault(Cause::Unreachable),
        }
    }

    // A `getelementptr`.
    fn element(
        &self,
        alloc: Global,
        base: &Ty,
        ptr: &Val,
        index: &[(Width, Val)],
    ) -> Result<Action, AllocError>
        ensures { IfOk result (λ action. action ≡ element self.now.layout.now self.now.registers.now base.now ptr.now index.now) }
    {
        let Some(address) = self.pointer(ptr) else {
            return Ok(Action::Fault(Cause::Unreachable));
        };
        let Some(words) = self.index_words(alloc, index)? else {
            return Ok(Action::Fault(Cause::Unreachable));
        };
        match self.layout.offset(base, words.as_slice()) {
            Some(offset) => Ok(Action::Assign(u128::from(address.wrapping_add(offset)))),
            None => Ok(Action::Fault(Cause::Unreachable)),
        }
    }

    // A `load`.
    pub(crate) fn load(&self, ty: &Ty, ptr: &Val, atomic: bool) -> Action
        ensures { result ≡ loading self.now.layout.now self.now.registers.now ty.now ptr.now atomic }
    {
        match (memory_width(ty), self.pointer(ptr)) {
            (Some(w), Some(address)) => Action::Read {
                place: place_at(address, w),
                atomic,
            },
            _ => Action::Fault(Cause::Unreachable),
        }
    }

    // A `store`.
    pub(crate) fn store(&self, ty: &Ty, val: &Val, ptr: &Val, atomic: bool) -> Action
        ensures action { result ≡ storing self.now.layout.now self.now.registers.now ty.now val.now ptr.now atomic }
        ensures fits { IsFitting result }
    {
        let Some(w) = memory_width(ty) else {
            return Action::Fault(Cause::Unreachable);
        };
        match (self.pointer(ptr), self.word_at(w, val)) {
            (Some(address), Some(word)) => Action::Write {
                place: place_at(address, w),
                word,
                atomic,
            },
            _ => Action::Fault(Cause::Unreachable),
        }
    }

    // An `atomicrmw`.
    pub(crate) fn combine(&self, op: RmwOp, ptr: &Val, ty: &Ty, val: &Val) -> Action
        ensures action { result ≡ combining self.now.layout.now self.now.registers.now op ptr.now ty.now val.now }
        ensures fits { IsFitting result }
    {
        let Some(width) = memory_width(ty) else {
            return Action::Fault(Cause::Unreachable);
        };
        match (self.pointer(ptr), self.word_at(width, val)) {
            (Some(address), Some(argument)) => Action::Update {
                place: place_at(address, width),
                update: Update::Combine {
                    op,
                    width,
                    argument,
                },
            },
            _ => Action::Fault(Cause::Unreachable),
        }
    }

    // A `cmpxchg`.
    pub(crate) fn exchange(&self, ptr: &Val, ty: &Ty, old: &Val, new: &Val) -> Action
        ensures action { result ≡ exchanging self.now.layout.now self.now.registers.now ptr.now ty.now old.now new.now }
        ensures fits { IsFitting result }
    {
        let Some(width) = memory_width(ty) else {
            return Action::Fault(Cause::Unreachable);
        };
        let words = (self.word_at(width, old), self.word_at(width, new));
        match (self.pointer(ptr), words) {
            (Some(address), (Some(expected), Some(desired))) => Action::Update {
                place: place_at(address, width),
                update: Update::Exchange {
                    width,
                    expected,
                    desired,
                },
            },
            _ => Action::Fault(Cause::Unreachable),
        }
    }

    // An `extractvalue`.
    fn extract(&self, elem: &Ty, pair: Loc, index: u8) -> Action
        ensures { result ≡ extraction self.now.registers.now elem.now pair index }
    {
        let (Some(w), Some(word)) = (width_of(elem), self.registers.get(pair)) else {
            return Action::Fault(Cause::Unreachable);
        };
        if index == 0 {
            Action::Assign(u128::from(low(w, word)))
        } else {
            Action::Assign(word >> bit_count(w))
        }
    }

    // A `br` with a condition.
    fn branch(&self, condition: &Val, on_true: Loc, on_false: Loc) -> Action
        ensures { result ≡ branching self.now.layout.now self.now.registers.now condition.now on_true on_false }
    {
        match self.word_at(Width::W1, condition) {
            Some(condition) => Action::Jump(if condition == 1 { on_true } else { on_false }),
            None => Action::Fault(Cause::Unreachable),
        }
    }

    // A `switch`.
    fn switch(&self, ty: &Ty, on: &Val, default: Loc, cases: &[(u64, Loc)]) -> Action
        ensures { result ≡ switching self.now.layout.now self.now.registers.now ty.now on.now default cases.now }
    {
        match self.typed_word(ty, on) {
            Some(n) => Action::Jump(case_of(n, cases, default)),
            None => Action::Fault(Cause::Unreachable),
        }
    }

    // A `ret`.
    fn give_back(&self, ty: &Ty, value: &Option<Val>) -> Action
        ensures { result ≡ returning self.now.layout.now self.now.registers.now ty.now value.now }
    {
        let Some(value) = value else {
            return Action::Return(0);
        };
        match self.typed_word(ty, value) {
            Some(word) => Action::Return(word),
            None => Action::Fault(Cause::Unreachable),
        }
    }

    // The function that a value names.
    fn named_function(&self, value: &Val) -> Option<usize>
        ensures { result ≡ named_function self.now.callees.now value.now }
    {
        let Val::Global(sym) = value else {
            return None;
        };
        match self.callees.get(sym.0 as usize) {
            Some(Callee::Defined(number)) => Some(*number),
            _ => None,
        }
    }

    // A call of `pthread_create`.
    fn create(&self, arguments: &[(Ty, Val)]) -> Action
        ensures { result ≡ creating self.now.layout.now self.now.callees.now self.now.registers.now arguments.now }
    {
        let [(to_ty, to), _, (_, start), (ty, argument)] = arguments else {
            return Action::Fault(Cause::Unreachable);
        };
        let words = (self.typed_word(to_ty, to), self.typed_word(ty, argument));
        match (words, self.named_function(start)) {
            ((Some(address), Some(argument)), Some(function)) => Action::Create {
                address,
                function,
                argument,
            },
            _ => Action::Fault(Cause::Unreachable),
        }
    }

    // A call of an external.
    pub(crate) fn ask(&self, external: External, arguments: &[(Ty, Val)]) -> Action
        ensures { result ≡ outside self.now.layout.now self.now.callees.now self.now.registers.now external arguments.now }
    {
        if let External::PthreadCreate = external {
            return self.create(arguments);
        }
        let [(ty, argument), ..] = arguments else {
            return Action::Fault(Cause::Unreachable);
        };
        match self.typed_word(ty, argument) {
            Some(word) => asked(external, word),
            None => Action::Fault(Cause::Unreachable),
        }
    }

    /// What a name stands for where it is called.
    pub(crate) fn callee(&self, sym: Sym) -> Callee
        ensures { result ≡ slice_index_or self.now.callees.now sym.0 Unknown }
    {
        match self.callees.get(sym.0 as usize) {
            Some(callee) => *callee,
            None => Callee::Unknown,
        }
    }

    // A call.
    fn call(
        &self,
        alloc: Global,
        callee: Callee,
        arguments: &[(Ty, Val)],
    ) -> Result<Action, AllocError>
        ensures { IfOk result (λ action. action ≡ calling self.now.layout.now self.now.callees.now self.now.registers.now callee arguments.now) }
    {
        match callee {
            Callee::Defined(function) => match self.argument_words(alloc, arguments)? {
                Some(words) => Ok(Action::Call { function, words }),
                None => Ok(Action::Fault(Cause::Unreachable)),
            },
            Callee::Outside(external) => Ok(self.ask(external, arguments)),
            Callee::Unknown => Ok(Action::Fault(Cause::Unreachable)),
        }
    }

    /// What an instruction asks for.
    pub fn action(&self, alloc: Global, inst: &Inst) -> Result<Action, AllocError>
        ensures action { IfOk result (λ action. action ≡ action_of self.now.layout.now self.now.callees.now self.now.registers.now inst.now) }
        ensures fits { IfOk result IsFitting }
    {
        match inst {
            Inst::Bin {
                op,
                flags,
                w,
                a,
                b,
                ..
            } => Ok(self.operate(*op, *flags, *w, a, b)),
            Inst::Cmp { pred, ty, a, b, .. } => Ok(self.compare(*pred, ty, a, b)),
            Inst::Select { cond, ty, a, b, .. } => Ok(self.select(cond, ty, a, b)),
            Inst::Cast {
                op,
                from,
                a,
                to,
                ..
            } => Ok(self.convert(*op, from, a, to)),
            Inst::Gep {
                base,
                ptr,
                index,
                ..
            } => self.element(alloc, base, ptr, index.items()),
            Inst::Extract {
                elem,
                pair,
                index,
                ..
            } => Ok(self.extract(elem, *pair, *index)),
            Inst::Alloca { ty, .. } => Ok(Action::Reserve(size_in(self.layout, ty))),
            Inst::Load {
                ty,
                ptr,
                atomic,
                ..
            } => Ok(self.load(ty, ptr, *atomic)),
            Inst::Store {
                ty,
                val,
                ptr,
                atomic,
            } => Ok(self.store(ty, val, ptr, *atomic)),
            Inst::Rmw {
                op,
                ptr,
                ty,
                val,
                ..
            } => Ok(self.combine(*op, ptr, ty, val)),
            Inst::CmpXchg {
                ptr,
                ty,
                old,
                new,
                ..
            } => Ok(self.exchange(ptr, ty, old, new)),
            Inst::Fence => Ok(Action::Pass),
            Inst::Call { callee, args, .. } => self.call(alloc, self.callee(*callee), args.items()),
            Inst::Br { to } => Ok(Action::Jump(*to)),
            Inst::CondBr { cond, yes, no } => Ok(self.branch(cond, *yes, *no)),
            Inst::Switch {
                ty,
                on,
                default,
                cases,
            } => Ok(self.switch(ty, on, *default, cases.items())),
            Inst::Ret { ty, val } => Ok(self.give_back(ty, val)),
            Inst::Phi { .. } | Inst::Unreachable => Ok(Action::Fault(Cause::Unreachable)),
        }
    }
}
