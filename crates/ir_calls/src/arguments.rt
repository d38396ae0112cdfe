//! Whether a call is good (`specs/Calls.antt`).
ghost use Rattle.std.specs.Prelude.{◌≡◌, Some};
ghost use Rattle.ir_calls.specs.Calls.{external_named, result_keeps, is_null, second_is_null, args_keep, call_keeps};
ghost use Rattle.ir_calls.specs.declared.externals.External.TheVariants.{PthreadCreate};

use crate::scalars::Scalar;
use crate::{Calls, External};
use ir_core::{Loc, Sym, Ty, Val};

// Whether a value is `null`.
fn is_null(val: &Val) -> bool
    ensures { result ≡ is_null val.now }
{
    matches!(val, Val::Null)
}

// Whether the second argument is `null`.
fn second_is_null(args: &[(Ty, Val)]) -> bool
    ensures { result ≡ second_is_null args.now }
{
    match args {
        [_, (_, val), ..] => is_null(val),
        _ => false,
    }
}

// Whether a call whose result has this type may name it so.
fn result_keeps(dst: Option<Loc>, ret: &Ty) -> bool
    ensures { result ≡ result_keeps dst ret.now }
{
    dst.is_none() || !Scalar::Void.is(ret)
}

impl Calls<'_> {
    // Whether the arguments of a `pthread_create` are good.
    fn create_keeps(&self, args: &[(Ty, Val)]) -> bool
        ensures { result ≡ args_keep self.now (Some PthreadCreate) args.now }
    {
        match args {
            [(_, first), (_, second), (_, third), rest @ ..] => {
                is_null(second)
                    && self.names_start(third)
                    && self.is_plain(first)
                    && self.args_plain(rest)
            }
            _ => false,
        }
    }

    // Whether arguments are as the callee's name asks.
    fn args_keep(&self, callee: Sym, args: &[(Ty, Val)]) -> bool
        ensures { result ≡ args_keep self.now (external_named self.now callee) args.now }
    {
        match self.external(callee) {
            Some(External::PthreadCreate) => self.create_keeps(args),
            Some(External::PthreadJoin) => second_is_null(args) && self.args_plain(args),
            _ => self.args_plain(args),
        }
    }

    /// Whether a call is good.
    pub(crate) fn call_keeps(
        &self,
        dst: Option<Loc>,
        ret: &Ty,
        callee: Sym,
        args: &[(Ty, Val)],
    ) -> bool
        ensures { result ≡ call_keeps self.now dst ret.now callee args.now }
    {
        self.takes(callee, ret, args) && result_keeps(dst, ret) && self.args_keep(callee, args)
    }
}
