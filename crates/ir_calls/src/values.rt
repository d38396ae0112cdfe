//! Whether functions' names stand as values (`specs/Calls.antt`).
ghost use Rattle.std.specs.Prelude.{◌≡◌, ◌∷◌, []};
ghost use Rattle.std.specs.List.{list_all};
ghost use Rattle.ir_calls.specs.Calls.{is_plain, are_plain, args_plain, values_of, is_plain_init};

use crate::Calls;
use ir_core::{Init, Inst, Loc, Ty, Val, Width};

impl Calls<'_> {
    /// Whether a value isn't a function's name, nor an address computed from one.
    pub(crate) fn is_plain(&self, val: &Val) -> bool
        ensures { result ≡ is_plain self.now val.now }
    {
        match val {
            Val::Reg(_) | Val::Int(_) | Val::Null => true,
            Val::Global(sym) => !self.is_function(*sym),
            Val::Gep(gep) => !self.is_function(gep.sym),
        }
    }

    /// Whether the values of arguments are so.
    pub(crate) fn args_plain(&self, args: &[(Ty, Val)]) -> bool
        ensures { result ≡ args_plain self.now args.now }
    {
        args.iter().all(|(_, val)| self.is_plain(val))
    }

    // Whether the values of the arms of a phi are so, and those of indices.
    fn arms_plain(&self, arms: &[(Val, Loc)]) -> bool
        ensures { result ≡ list_all (λ arm. is_plain self.now arm.0) arms.now }
    {
        arms.iter().all(|(val, _)| self.is_plain(val))
    }

    fn indices_plain(&self, indices: &[(Width, Val)]) -> bool
        ensures { result ≡ list_all (λ each. is_plain self.now each.1) indices.now }
    {
        indices.iter().all(|(_, val)| self.is_plain(val))
    }

    // Whether two values are so, and three.
    fn both_plain(&self, a: &Val, b: &Val) -> bool
        ensures { result ≡ are_plain self.now (a.now ∷ b.now ∷ []) }
    {
        self.is_plain(a) && self.is_plain(b)
    }

    fn three_plain(&self, a: &Val, b: &Val, c: &Val) -> bool
        ensures { result ≡ are_plain self.now (a.now ∷ b.now ∷ c.now ∷ []) }
    {
        self.is_plain(a) && self.both_plain(b, c)
    }

    #[tactic(auto, using(crate::proofs::Plain::plain_lists))]
    /// Whether all values that an instruction writes are so.
    pub(crate) fn values_plain(&self, inst: &Inst) -> bool
        ensures { result ≡ are_plain self.now (values_of inst.now) }
    {
        match inst {
            Inst::Bin { a, b, .. } | Inst::Cmp { a, b, .. } => self.both_plain(a, b),
            Inst::Select { cond, a, b, .. } => self.three_plain(cond, a, b),
            Inst::Cast { a, .. } => self.is_plain(a),
            Inst::Gep { ptr, index, .. } => {
                self.is_plain(ptr) && self.indices_plain(index.items())
            }
            Inst::Load { ptr, .. } => self.is_plain(ptr),
            Inst::Store { val, ptr, .. } => self.both_plain(val, ptr),
            Inst::Rmw { ptr, val, .. } => self.both_plain(ptr, val),
            Inst::CmpXchg { ptr, old, new, .. } => self.three_plain(ptr, old, new),
            Inst::Call { args, .. } => self.args_plain(args.items()),
            Inst::Phi { arms, .. } => self.arms_plain(arms.items()),
            Inst::CondBr { cond, .. } => self.is_plain(cond),
            Inst::Switch { on, .. } => self.is_plain(on),
            Inst::Ret { val: Some(val), .. } => self.is_plain(val),
            Inst::Ret { val: None, .. }
            | Inst::Alloca { .. }
            | Inst::Extract { .. }
            | Inst::Fence
            | Inst::Br { .. }
            | Inst::Unreachable => true,
        }
    }

    /// Whether no function's name stands in an initialiser.
    pub(crate) fn init_plain(&self, init: &Init) -> bool
        ensures { result ≡ is_plain_init self.now init.now }
    {
        match init {
            Init::Zero | Init::Int(_) | Init::Null | Init::Bytes(_) => true,
            Init::Addr(sym) => !self.is_function(*sym),
            Init::Gep(gep) => !self.is_function(gep.sym),
            Init::Parts(parts) => {
                for (_, part) in parts.items() {
                    if !self.init_plain(part) {
                        return false;
                    }
                }
                true
            }
        }
    }
}
