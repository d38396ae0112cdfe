//! Whether a module has a `main` (`specs/Functions.antt`).
ghost use Rattle.std.specs.Prelude.{◌≡◌};
ghost use Rattle.ir_layout.specs.Limits.{name_at};
ghost use Rattle.ir_check.specs.Functions.{is_main, has_main};

use crate::places::sym_name;
use ir_core::{Func, Module, Ty, Width};

// Whether a function is `i32 @main()`.
fn is_main(m: &Module, f: &Func) -> bool
    ensures { result ≡ is_main m.now f.now }
{
    sym_name(m, f.sym()) == b"main".as_slice()
        && matches!(f.ret(), Ty::Int(Width::W32))
        && f.params().is_empty()
}

/// Whether a module has a function `i32 @main()`.
pub(crate) fn has_main(m: &Module) -> bool
    ensures { result ≡ has_main m.now }
{
    for f in m.funcs() {
        if is_main(m, f) {
            return true;
        }
    }
    false
}
