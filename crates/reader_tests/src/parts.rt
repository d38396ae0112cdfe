//! A module built part by part, read back and copied.
use ir_core::{
    Boxed, Copied, Declare, Func, GlobalVar, Init, Inst, Loc, Module, Seq, Sym, Ty, TypeId, Val,
    Width,
};
use std::alloc::{AllocError, Global};
use std::process::Abort;

/// Three pointers.
fn pointers(alloc: Global) -> Result<Ty, AllocError> {
    Ok(Ty::Array(3, Boxed::new(alloc, Ty::Ptr)?))
}

/// A type and a global.
fn add_data(alloc: Global, m: &mut Module) -> Result<(), AllocError> {
    let ty = pointers(alloc)?;
    m.add_type(TypeId(0), ty)?;
    m.add_global(GlobalVar {
        sym: Sym(0),
        ty: Ty::Named(TypeId(0)),
        init: Init::Zero,
    })?;
    Ok(())
}

/// A function that returns its one parameter.
fn add_identity(func: &mut Func) -> Result<(), AllocError> {
    func.add_param(Ty::Ptr, Loc(0))?;
    func.add_block(Loc(1))?;
    Ok(())
}

fn return_parameter() -> Inst {
    Inst::Ret {
        ty: Ty::Ptr,
        val: Some(Val::Reg(Loc(0))),
    }
}

/// A function with one block, which has one instruction.
fn identity(rt: &impl Abort, alloc: Global) -> Func {
    let mut func = Func::new(alloc, Sym(1), Ty::Ptr);
    add_identity(&mut func).expect(rt, "no memory for a block");
    assert!(rt; func.blocks().len() == 1);
    func.add_inst(return_parameter())
        .expect(rt, "no memory for an instruction");
    func
}

/// The function is as it was built.
fn check_identity(rt: &impl Abort, func: &Func) {
    assert!(rt; func.sym() == Sym(1) && matches!(func.ret(), Ty::Ptr));
    let [(Ty::Ptr, param)] = func.params() else {
        panic!(rt; "a parameter was lost");
    };
    let [block] = func.blocks() else {
        panic!(rt; "a block was lost");
    };
    let [
        Inst::Ret {
            ty: Ty::Ptr,
            val: Some(Val::Reg(value)),
        },
    ] = block.insts.items()
    else {
        panic!(rt; "an instruction was lost");
    };
    assert!(rt; *param == Loc(0) && block.label == Loc(1) && *value == Loc(0));
}

/// The module has its parts.
fn check_module(rt: &impl Abort, m: &Module) {
    let ([(id, ty)], [global]) = (m.types(), m.globals()) else {
        panic!(rt; "a type or a global was lost");
    };
    let Ty::Array(count, _) = ty else {
        panic!(rt; "a type was lost");
    };
    assert!(rt; *id == TypeId(0) && *count == 3);
    assert!(rt; global.sym == Sym(0) && matches!(global.init, Init::Zero));
    let ([declare], [func]) = (m.declares(), m.funcs()) else {
        panic!(rt; "a function was lost");
    };
    assert!(rt; declare.sym == Sym(2) && matches!(declare.params.items(), [Ty::Int(Width::W64)]));
    check_identity(rt, func);
}

#[test]
fn a_module_and_its_copy_have_the_parts_that_were_added(rt: HostRuntime) {
    let alloc = rt.alloc();
    let mut m = Module::new(alloc);
    add_data(alloc, &mut m).expect(&rt, "no memory for a global");
    let mut params = Seq::new(alloc);
    params
        .push(Ty::Int(Width::W64))
        .expect(&rt, "no memory for a type");
    m.add_declare(Declare {
        sym: Sym(2),
        ret: Ty::Void,
        params,
    })
    .expect(&rt, "no memory for a declare");
    m.add_func(identity(&rt, alloc))
        .expect(&rt, "no memory for a function");
    let copy = m.copy(alloc).expect(&rt, "no memory for a copy");
    check_module(&rt, &m);
    check_module(&rt, &copy);
}
