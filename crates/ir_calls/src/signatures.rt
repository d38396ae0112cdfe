//! Whether the types that a call writes are its callee's, and what a thread may run (`specs/Calls.antt`).
ghost use Rattle.std.specs.Prelude.{◌≡◌, Some, map};
ghost use Rattle.ir_lines.specs.SameTypes.{same_types};
ghost use Rattle.ir_calls.specs.Calls.{standing_of, takes, names_start};
ghost use Rattle.ir_calls.specs.Calls as calls;

use crate::Calls;
use crate::scalars::Scalar;
use crate::table::Item;
use ir_core::{Func, Loc, Sym, Ty, Val};
use ir_lines::same_ty;

// Whether the types of arguments are these, one beside the other.
fn args_are(args: &[(Ty, Val)], types: &[Ty]) -> bool
    ensures { result ≡ same_types (map (λ arg. arg.0) args.now) types.now }
{
    let mut left = types;
    for (arg, _) in args {
        let [ty, rest @ ..] = left else {
            return false;
        };
        if !same_ty(arg, ty) {
            return false;
        }
        left = rest;
    }
    left.is_empty()
}

// Whether the types of arguments are those of parameters, one beside the other.
fn args_fit(args: &[(Ty, Val)], params: &[(Ty, Loc)]) -> bool
    ensures { result ≡ same_types (map (λ arg. arg.0) args.now) (map (λ param. param.0) params.now) }
{
    let mut left = params;
    for (arg, _) in args {
        let [(param, _), rest @ ..] = left else {
            return false;
        };
        if !same_ty(arg, param) {
            return false;
        }
        left = rest;
    }
    left.is_empty()
}

// Whether a thread may run a function.
#[tactic(auto, using(crate::proofs::Starts::more_params))]
fn is_start(f: &Func) -> bool
    ensures { result ≡ calls.is_start (Some (calls.of_func f.now).1) }
{
    match f.params() {
        [(param, _)] => Scalar::Ptr.is(f.ret()) && Scalar::Ptr.is(param),
        _ => false,
    }
}

impl Calls<'_> {
    /// Whether a name is a function of the types that a call writes.
    pub(crate) fn takes(&self, callee: Sym, ret: &Ty, args: &[(Ty, Val)]) -> bool
        ensures { result ≡ takes (standing_of self.now callee) ret.now (map (λ arg. arg.0) args.now) }
    {
        match self.item(callee) {
            None | Some(Item::Variable) => false,
            Some(Item::Declared(declare)) => {
                same_ty(ret, &declare.ret) && args_are(args, declare.params.items())
            }
            Some(Item::Defined(f)) => same_ty(ret, f.ret()) && args_fit(args, f.params()),
        }
    }

    /// Whether a value names a function that a thread may run.
    pub(crate) fn names_start(&self, val: &Val) -> bool
        ensures { result ≡ names_start self.now val.now }
    {
        match val {
            Val::Global(sym) => match self.item(*sym) {
                Some(Item::Defined(f)) => is_start(f),
                None | Some(Item::Variable) | Some(Item::Declared(_)) => false,
            },
            Val::Reg(_) | Val::Int(_) | Val::Null | Val::Gep(_) => false,
        }
    }
}
