//! The rule that the types of each line fit, over a whole module.
ghost use Rattle.std.specs.Prelude.{◌≡◌, IfOk, map};
ghost use Rattle.std.specs.List.{list_all};
ghost use Rattle.ir_layout.specs.Memory.{layout_of};
ghost use Rattle.ir_types.specs.Meanings.{meanings};
ghost use Rattle.ir_types.specs.Types.{has_no_parts};

use crate::forms::inst_fits;
use crate::initialisers::init_fits;
use crate::meaning::{Names, names_of};
use crate::operands::Scope;
use crate::type_kinds::is_aggregate;
use ir_core::{Block, Declare, Func, GlobalVar, Inst, Loc, Module, Ty};
use ir_layout::Layout;
use ir_lines::Rule;
use std::alloc::{AllocError, Global};
use std::marker::Model;

/// The rule that the types of each line of a module fit. Contracts see the module.
#[derive(Drop)]
pub struct Types<'m> {
    module: &'m Module,
    layout: &'m Layout,
    names: Vec<Names<'m>>,
}

impl<'m> Model for Types<'m> {
    ghost use Rattle.std.specs.Prelude.{◌≡◌, map};
    ghost use Rattle.std.specs.Coded.{codes};
    ghost use Rattle.ir_core.specs.contracts.types.Ty as ty;
    ghost use Rattle.ir_core.specs.contracts.values.Init as init;
    ghost use Rattle.ir_core.specs.Module.{ModuleParts};
    ghost use Rattle.ir_layout.specs.Memory.{layout_of};
    ghost use Rattle.ir_types.specs.Meanings.{meanings};

    ghost Value = { ModuleParts };

    ghost coded = { Prim.hlevel (codes, ty.the_row.coded, init.the_row.coded) };

    ghost view = { λ t. t.module.now };

    ghost invariant = { λ t. (t.layout.now ≡ layout_of t.module.now) × (t.names.items ≡ map meanings t.module.now.funcs) };
}

// What the names of each function stand for.
fn names_of_all<'m>(alloc: Global, funcs: &'m [Func]) -> Result<Vec<Names<'m>>, AllocError>
    ensures { IfOk result (λ names. names.items ≡ map meanings funcs.now) }
{
    let mut names = Vec::with_capacity(alloc, funcs.len())?;
    for f in funcs {
        names.push(names_of(alloc, f)?)?;
    }
    Ok(names)
}

// Whether no type has parts; the same of parameters.
fn have_no_parts(types: &[Ty]) -> bool
    ensures { result ≡ list_all has_no_parts types.now }
{
    for ty in types {
        if is_aggregate(ty) {
            return false;
        }
    }
    true
}

fn params_have_no_parts(params: &[(Ty, Loc)]) -> bool
    ensures { result ≡ list_all has_no_parts (map (λ param. param.0) params.now) }
{
    for (ty, _) in params {
        if is_aggregate(ty) {
            return false;
        }
    }
    true
}

impl<'m> Types<'m> {
    /// The rule over a module, whose layout this is. It takes memory in proportion to the module, and fails for want of it alone.
    pub fn new(alloc: Global, m: &'m Module, layout: &'m Layout) -> Result<Types<'m>, AllocError>
        requires { layout.now ≡ layout_of m.now }
        ensures { IfOk result (λ types. types ≡ m.now) }
    {
        let names = names_of_all(alloc, m.funcs())?;
        Ok(Types {
            module: m,
            layout,
            names,
        })
    }
}

impl Rule for Types<'_> {
    ghost use Rattle.ir_types.specs.Types.{types_keep};

    ghost module_of = { λ types. types };

    ghost keeps = { types_keep };

    fn global(&self, global: &GlobalVar) -> bool {
        init_fits(self.layout, &global.init, &global.ty)
    }

    fn declare(&self, declare: &Declare) -> bool {
        !is_aggregate(&declare.ret) && have_no_parts(declare.params.items())
    }

    fn head(&self, _n: usize, f: &Func) -> bool {
        !is_aggregate(f.ret()) && params_have_no_parts(f.params())
    }

    fn block(&self, _n: usize, _f: &Func, _b: usize, _block: &Block) -> bool {
        true
    }

    fn inst(&self, n: usize, f: &Func, _b: usize, _i: usize, inst: &Inst) -> bool {
        let scope = Scope {
            layout: self.layout,
            names: &self.names[n],
        };
        inst_fits(&scope, f.ret(), inst)
    }
}
