//! The types that the lines of a module write, tested one by one (`specs/WrittenTypes.antt`).
ghost use Rattle.std.specs.Prelude.{◌≡◌, ◌∷◌, ◌++◌, map};
ghost use Rattle.std.specs.List.{flat_map, list_all};
ghost use Rattle.ir_layout.specs.WrittenTypes.{types_in_val, types_in_init, types_in_global, types_in_declare, types_in_arg, types_in_arm, types_in_index, types_in_option, types_in_inst, types_in_block, types_in_head, types_in_func, types_in_module, is_defined, are_defined, are_distinct, types_known};

use ir_core::{Block, Declare, Func, GlobalVar, Init, Inst, Loc, Module, Ty, TypeId, Val, Width};

/// A test of types.
pub(crate) trait TypeTest {
    ghost use Rattle.std.specs.Prelude.{Bool};
    ghost use Rattle.ir_core.specs.declared.types.Ty.{Ty};

    ghost passes: { Self → Ty → Bool };

    /// Whether the type passes.
    fn passes(&self, ty: &Ty) -> bool
        ensures { result ≡ passes self.now ty.now };
}

// Whether a value's types pass.
fn val_passes<T: TypeTest>(val: &Val, test: &T) -> bool
    ensures { result ≡ list_all (T.passes test.now) (types_in_val val.now) }
{
    match val {
        Val::Gep(gep) => test.passes(&gep.base),
        Val::Reg(_) | Val::Int(_) | Val::Null | Val::Global(_) => true,
    }
}

// Whether an initialiser's types pass.
#[tactic(auto, using(crate::proofs::AllPass::all_pass))]
fn init_passes<T: TypeTest>(init: &Init, test: &T) -> bool
    ensures { result ≡ list_all (T.passes test.now) (types_in_init init.now) }
{
    match init {
        Init::Zero | Init::Int(_) | Init::Null | Init::Addr(_) | Init::Bytes(_) => true,
        Init::Gep(gep) => test.passes(&gep.base),
        Init::Parts(parts) => {
            for (ty, init) in parts.items() {
                if !test.passes(ty) || !init_passes(init, test) {
                    return false;
                }
            }
            true
        }
    }
}

/// Whether the types of a global's line pass.
#[tactic(auto, using(crate::proofs::AllPass::all_pass))]
pub(crate) fn global_passes<T: TypeTest>(global: &GlobalVar, test: &T) -> bool
    ensures { result ≡ list_all (T.passes test.now) (types_in_global global.now) }
{
    test.passes(&global.ty) && init_passes(&global.init, test)
}

// Whether the types pass.
fn types_pass<T: TypeTest>(types: &[Ty], test: &T) -> bool
    ensures { result ≡ list_all (T.passes test.now) types.now }
{
    for ty in types {
        if !test.passes(ty) {
            return false;
        }
    }
    true
}

/// Whether a declare's types pass.
#[tactic(auto, using(crate::proofs::AllPass::all_pass))]
pub(crate) fn declare_passes<T: TypeTest>(declare: &Declare, test: &T) -> bool
    ensures { result ≡ list_all (T.passes test.now) (types_in_declare declare.now) }
{
    test.passes(&declare.ret) && types_pass(declare.params.items(), test)
}

// Whether the types of arguments, of the arms of a phi, of indices pass.
#[tactic(auto, using(crate::proofs::AllPass::all_pass))]
fn args_pass<T: TypeTest>(args: &[(Ty, Val)], test: &T) -> bool
    ensures { result ≡ list_all (T.passes test.now) (flat_map types_in_arg args.now) }
{
    for (ty, val) in args {
        if !test.passes(ty) || !val_passes(val, test) {
            return false;
        }
    }
    true
}

#[tactic(auto, using(crate::proofs::AllPass::all_pass))]
fn arms_pass<T: TypeTest>(arms: &[(Val, Loc)], test: &T) -> bool
    ensures { result ≡ list_all (T.passes test.now) (flat_map types_in_arm arms.now) }
{
    for (val, _) in arms {
        if !val_passes(val, test) {
            return false;
        }
    }
    true
}

#[tactic(auto, using(crate::proofs::AllPass::all_pass))]
fn indices_pass<T: TypeTest>(indices: &[(Width, Val)], test: &T) -> bool
    ensures { result ≡ list_all (T.passes test.now) (flat_map types_in_index indices.now) }
{
    for (_, val) in indices {
        if !val_passes(val, test) {
            return false;
        }
    }
    true
}

// Whether the types of two values pass.
#[tactic(auto, using(crate::proofs::AllPass::all_pass))]
fn both_pass<T: TypeTest>(a: &Val, b: &Val, test: &T) -> bool
    ensures { result ≡ list_all (T.passes test.now) (types_in_val a.now ++ types_in_val b.now) }
{
    val_passes(a, test) && val_passes(b, test)
}

// Whether a type and the types of two values pass.
#[tactic(auto, using(crate::proofs::AllPass::all_pass))]
fn three_pass<T: TypeTest>(ty: &Ty, a: &Val, b: &Val, test: &T) -> bool
    ensures { result ≡ list_all (T.passes test.now) (ty.now ∷ types_in_val a.now ++ types_in_val b.now) }
{
    test.passes(ty) && both_pass(a, b, test)
}

// Whether a type and the types of three values pass.
#[tactic(auto, using(crate::proofs::AllPass::all_pass))]
fn four_pass<T: TypeTest>(ty: &Ty, a: &Val, b: &Val, c: &Val, test: &T) -> bool
    ensures { result ≡ list_all (T.passes test.now)
        (ty.now ∷ types_in_val a.now ++ types_in_val b.now ++ types_in_val c.now) }
{
    three_pass(ty, a, b, test) && val_passes(c, test)
}

// Whether a value that may lack passes.
fn option_passes<T: TypeTest>(val: &Option<Val>, test: &T) -> bool
    ensures { result ≡ list_all (T.passes test.now) (types_in_option val.now) }
{
    match val {
        None => true,
        Some(val) => val_passes(val, test),
    }
}

/// Whether an instruction's types pass.
#[tactic(auto, using(crate::proofs::AllPass::all_pass))]
pub(crate) fn inst_passes<T: TypeTest>(inst: &Inst, test: &T) -> bool
    ensures { result ≡ list_all (T.passes test.now) (types_in_inst inst.now) }
{
    match inst {
        Inst::Bin { a, b, .. } => both_pass(a, b, test),
        Inst::Cmp { ty, a, b, .. } => three_pass(ty, a, b, test),
        Inst::Select { cond, ty, a, b, .. } => four_pass(ty, cond, a, b, test),
        Inst::Cast { from, a, to, .. } => {
            test.passes(from) && test.passes(to) && val_passes(a, test)
        }
        Inst::Gep {
            base,
            ptr,
            index,
            ..
        } => { test.passes(base) && val_passes(ptr, test) && indices_pass(index.items(), test) }
        Inst::Alloca { ty, .. } | Inst::Extract { elem: ty, .. } => test.passes(ty),
        Inst::Load { ty, ptr, .. } => test.passes(ty) && val_passes(ptr, test),
        Inst::Store { ty, val, ptr, .. } => three_pass(ty, val, ptr, test),
        Inst::Rmw { ptr, ty, val, .. } => three_pass(ty, ptr, val, test),
        Inst::CmpXchg {
            ptr,
            ty,
            old,
            new,
            ..
        } => four_pass(ty, ptr, old, new, test),
        Inst::Call { ret, args, .. } => test.passes(ret) && args_pass(args.items(), test),
        Inst::Phi { ty, arms, .. } => test.passes(ty) && arms_pass(arms.items(), test),
        Inst::CondBr { cond, .. } => val_passes(cond, test),
        Inst::Switch { ty, on, .. } => test.passes(ty) && val_passes(on, test),
        Inst::Ret { ty, val } => test.passes(ty) && option_passes(val, test),
        Inst::Fence | Inst::Br { .. } | Inst::Unreachable => true,
    }
}

// Whether the types of blocks pass.
#[tactic(auto, using(crate::proofs::AllPass::all_pass))]
fn block_passes<T: TypeTest>(block: &Block, test: &T) -> bool
    ensures { result ≡ list_all (T.passes test.now) (types_in_block block.now) }
{
    for inst in block.insts.items() {
        if !inst_passes(inst, test) {
            return false;
        }
    }
    true
}

#[tactic(auto, using(crate::proofs::AllPass::all_pass))]
fn blocks_pass<T: TypeTest>(blocks: &[Block], test: &T) -> bool
    ensures { result ≡ list_all (T.passes test.now) (flat_map types_in_block blocks.now) }
{
    for block in blocks {
        if !block_passes(block, test) {
            return false;
        }
    }
    true
}

// Whether the types of parameters pass.
fn params_pass<T: TypeTest>(params: &[(Ty, Loc)], test: &T) -> bool
    ensures { result ≡ list_all (T.passes test.now) (map (λ param. param.0) params.now) }
{
    for (ty, _) in params {
        if !test.passes(ty) {
            return false;
        }
    }
    true
}

/// Whether the types of a function's head pass.
#[tactic(auto, using(crate::proofs::AllPass::all_pass))]
pub(crate) fn head_passes<T: TypeTest>(f: &Func, test: &T) -> bool
    ensures { result ≡ list_all (T.passes test.now) (types_in_head f.now) }
{
    test.passes(f.ret()) && params_pass(f.params(), test)
}

// Whether a function's types pass.
#[tactic(auto, using(crate::proofs::AllPass::all_pass))]
fn func_passes<T: TypeTest>(f: &Func, test: &T) -> bool
    ensures { result ≡ list_all (T.passes test.now) (types_in_func f.now) }
{
    head_passes(f, test) && blocks_pass(f.blocks(), test)
}

// Whether the types of globals, of declares, of functions, of named types pass.
#[tactic(auto, using(crate::proofs::AllPass::all_pass))]
fn globals_pass<T: TypeTest>(globals: &[GlobalVar], test: &T) -> bool
    ensures { result ≡ list_all (T.passes test.now) (flat_map types_in_global globals.now) }
{
    for global in globals {
        if !global_passes(global, test) {
            return false;
        }
    }
    true
}

#[tactic(auto, using(crate::proofs::AllPass::all_pass))]
fn declares_pass<T: TypeTest>(declares: &[Declare], test: &T) -> bool
    ensures { result ≡ list_all (T.passes test.now) (flat_map types_in_declare declares.now) }
{
    for declare in declares {
        if !declare_passes(declare, test) {
            return false;
        }
    }
    true
}

#[tactic(auto, using(crate::proofs::AllPass::all_pass))]
fn funcs_pass<T: TypeTest>(funcs: &[Func], test: &T) -> bool
    ensures { result ≡ list_all (T.passes test.now) (flat_map types_in_func funcs.now) }
{
    for f in funcs {
        if !func_passes(f, test) {
            return false;
        }
    }
    true
}

fn bodies_pass<T: TypeTest>(types: &[(TypeId, Ty)], test: &T) -> bool
    ensures { result ≡ list_all (T.passes test.now) (map (λ named. named.1) types.now) }
{
    for (_, body) in types {
        if !test.passes(body) {
            return false;
        }
    }
    true
}

// Whether all types that the module writes pass.
#[tactic(auto, using(crate::proofs::AllPass::all_pass))]
fn module_passes<T: TypeTest>(m: &Module, test: &T) -> bool
    ensures { result ≡ list_all (T.passes test.now) (types_in_module m.now) }
{
    bodies_pass(m.types(), test)
        && globals_pass(m.globals(), test)
        && declares_pass(m.declares(), test)
        && funcs_pass(m.funcs(), test)
}

// Whether a name of a type is defined.
fn is_defined(types: &[(TypeId, Ty)], id: TypeId) -> bool
    ensures { result ≡ is_defined types.now id.0 }
{
    for (other, _) in types {
        if other.0 == id.0 {
            return true;
        }
    }
    false
}

// Whether each name in a type is defined.
#[tactic(auto, using(crate::proofs::AllPass::all_pass))]
fn are_defined(types: &[(TypeId, Ty)], ty: &Ty) -> bool
    ensures { result ≡ are_defined types.now ty.now }
{
    match ty {
        Ty::Void | Ty::Int(_) | Ty::Ptr => true,
        Ty::Array(_, element) => are_defined(types, element.get()),
        Ty::Struct(parts) => {
            for part in parts.items() {
                if !are_defined(types, part) {
                    return false;
                }
            }
            true
        }
        Ty::Named(id) => is_defined(types, *id),
    }
}

// The test whether each name in a type is defined.
#[derive(Drop)]
struct Defined<'a> {
    types: &'a [(TypeId, Ty)],
}

impl TypeTest for Defined<'_> {
    ghost passes = { λ defined ty. are_defined defined.types.now ty };

    fn passes(&self, ty: &Ty) -> bool {
        are_defined(self.types, ty)
    }
}

// Whether no name is defined twice.
fn is_distinct(types: &[(TypeId, Ty)]) -> bool
    ensures { result ≡ are_distinct types.now }
{
    for (place, (id, _)) in types.iter().enumerate() {
        if is_defined(&types[place + 1..], *id) {
            return false;
        }
    }
    true
}

/// Whether each name of a type that the module writes is defined, and none is defined twice. It takes no memory.
pub fn types_known(m: &Module) -> bool
    ensures { result ≡ types_known m.now }
{
    let test = Defined { types: m.types() };
    is_distinct(m.types()) && module_passes(m, &test)
}
