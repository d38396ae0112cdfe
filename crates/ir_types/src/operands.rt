//! Whether operands have the types that are written of them (`specs/Types.antt`).
ghost use Rattle.std.specs.Prelude.{◌≡◌, ◌∷◌, [], map};
ghost use Rattle.std.specs.List.{list_all};
ghost use Rattle.ir_core.specs.declared.types.Ty.TheVariants as types;
ghost use Rattle.ir_types.specs.Firsts.{first_of};
ghost use Rattle.ir_types.specs.Scopes.{fits_in};
ghost use Rattle.ir_types.specs.Types.{gep_fits, is_register_of, typed_arm, typed_index, typed_operands, typed_result};

use crate::meaning::Names;
use crate::type_kinds::{is_int, is_ptr};
use ir_core::{ConstGep, Inst, Loc, Ty, Val, Width};
use ir_layout::Layout;

/// What the types of instructions are held against: a layout, and what the names of their function stand for.
#[derive(Clone, Copy)]
pub(crate) struct Scope<'a, 'm> {
    pub layout: &'a Layout,
    pub names: &'a Names<'m>,
}

/// Whether the indices of a constant `getelementptr` fit.
pub(crate) fn gep_fits(layout: &Layout, gep: &ConstGep) -> bool
    ensures { result ≡ gep_fits layout.now.types gep.now }
{
    layout.offset(&gep.base, gep.index.items()).is_some()
}

impl Scope<'_, '_> {
    // Whether a name stands for a register of this type.
    fn is_register_of(&self, ty: &Ty, at: Loc) -> bool
        ensures { result ≡ is_register_of ty.now (first_of self.now.names.now at) }
    {
        match self.names.get(at) {
            Some(meaning) => meaning.is_register_of(ty),
            None => false,
        }
    }

    // Whether an operand has this type.
    fn fits(&self, ty: &Ty, val: &Val) -> bool
        ensures { result ≡ fits_in self.now (ty.now, val.now) }
    {
        match val {
            Val::Reg(at) => self.is_register_of(ty, *at),
            Val::Int(_) => is_int(ty),
            Val::Null | Val::Global(_) => is_ptr(ty),
            Val::Gep(gep) => is_ptr(ty) && gep_fits(self.layout, gep),
        }
    }

    // Whether two operands have this type.
    fn both_fit(&self, ty: &Ty, a: &Val, b: &Val) -> bool
        ensures { result ≡ list_all (fits_in self.now) ((ty.now, a.now) ∷ (ty.now, b.now) ∷ []) }
    {
        self.fits(ty, a) && self.fits(ty, b)
    }

    // Whether an operand has the integer type of this width.
    fn fits_int(&self, width: Width, val: &Val) -> bool
        ensures { result ≡ fits_in self.now (types.Int width, val.now) }
    {
        let int = Ty::Int(width);
        let fits = self.fits(&int, val);
        drop(int);
        fits
    }

    // Whether an operand is a pointer.
    fn fits_ptr(&self, val: &Val) -> bool
        ensures { result ≡ fits_in self.now (types.Ptr, val.now) }
    {
        let ptr = Ty::Ptr;
        let fits = self.fits(&ptr, val);
        drop(ptr);
        fits
    }

    // Whether indices have the types that are written of them.
    fn indices_fit(&self, indices: &[(Width, Val)]) -> bool
        ensures { result ≡ list_all (fits_in self.now) (map typed_index indices.now) }
    {
        for (width, val) in indices {
            if !self.fits_int(*width, val) {
                return false;
            }
        }
        true
    }

    // Whether arguments have the types that are written of them.
    fn args_fit(&self, args: &[(Ty, Val)]) -> bool
        ensures { result ≡ list_all (fits_in self.now) args.now }
    {
        for (ty, val) in args {
            if !self.fits(ty, val) {
                return false;
            }
        }
        true
    }

    // Whether the values of a phi have this type.
    fn arms_fit(&self, ty: &Ty, arms: &[(Val, Loc)]) -> bool
        ensures { result ≡ list_all (fits_in self.now) (map (typed_arm ty.now) arms.now) }
    {
        for (val, _) in arms {
            if !self.fits(ty, val) {
                return false;
            }
        }
        true
    }

    // Whether a result has this type, where there is one.
    fn result_fits(&self, ty: &Ty, val: &Option<Val>) -> bool
        ensures { result ≡ list_all (fits_in self.now) (typed_result ty.now val.now) }
    {
        match val {
            Some(val) => self.fits(ty, val),
            None => true,
        }
    }

    /// Whether the operands of an instruction have the types that are written of them.
    pub(crate) fn operands_fit(&self, inst: &Inst) -> bool
        ensures { result ≡ list_all (fits_in self.now) (typed_operands inst.now) }
    {
        match inst {
            Inst::Bin { w, a, b, .. } => self.fits_int(*w, a) && self.fits_int(*w, b),
            Inst::Cmp { ty, a, b, .. } => self.both_fit(ty, a, b),
            Inst::Select { cond, ty, a, b, .. } => {
                self.fits_int(Width::W1, cond) && self.both_fit(ty, a, b)
            }
            Inst::Cast { from, a, .. } => self.fits(from, a),
            Inst::Gep { ptr, index, .. } => self.fits_ptr(ptr) && self.indices_fit(index.items()),
            Inst::Load { ptr, .. } => self.fits_ptr(ptr),
            Inst::Store { ty, val, ptr, .. } => self.fits(ty, val) && self.fits_ptr(ptr),
            Inst::Rmw { ptr, ty, val, .. } => self.fits_ptr(ptr) && self.fits(ty, val),
            Inst::CmpXchg {
                ptr,
                ty,
                old,
                new,
                ..
            } => { self.fits_ptr(ptr) && self.both_fit(ty, old, new) }
            Inst::Call { args, .. } => self.args_fit(args.items()),
            Inst::Phi { ty, arms, .. } => self.arms_fit(ty, arms.items()),
            Inst::CondBr { cond, .. } => self.fits_int(Width::W1, cond),
            Inst::Switch { ty, on, .. } => self.fits(ty, on),
            Inst::Ret { ty, val } => self.result_fits(ty, val),
            Inst::Alloca { .. }
            | Inst::Fence
            | Inst::Extract { .. }
            | Inst::Br { .. }
            | Inst::Unreachable => true,
        }
    }
}
