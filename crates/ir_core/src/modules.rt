//! A module and its functions, built part by part.
//!
//! Contracts see them as `ModuleParts` and `FuncParts` of `specs/Module.antt`. A name has the number of its place in its table,
//! from the first call that gives it; registers and labels of a function share one table.
ghost use Rattle.std.specs.Prelude.{◌≡◌, ◌^◌, ◌<◌, [], ◌∷◌, ◌++◌, Some, length, slice_get, IfSome, IfOk, OnOk, OnErr};
ghost use Rattle.std.specs.List.{IsDistinct};
ghost use Rattle.std.specs.Option.{option_map};
ghost use Rattle.std.specs.Str.{bytes_eq};
ghost use Rattle.ir_core.specs.Module.{empty_module, empty_func, with_inst};
ghost use Rattle.ir_core.specs.Names.{number_of, number_given, numbered};

use crate::copying::{copy_both, copy_four, copy_items, copy_three};
use crate::tables::Names;
use crate::{Block, Copied, Declare, GlobalVar, Inst, Loc, Seq, Sym, Ty, TypeId};
use std::alloc::{AllocError, Global};
use std::marker::Model;

/// A module (LLVM Language Reference, 'Module Structure').
#[derive(Drop)]
pub struct Module {
    types: Seq<(TypeId, Ty)>,
    globals: Seq<GlobalVar>,
    declares: Seq<Declare>,
    funcs: Seq<Func>,
    syms: Names,
    type_names: Names,
}

/// A function with its blocks (LLVM Language Reference, 'Functions').
#[derive(Drop)]
pub struct Func {
    sym: Sym,
    ret: Ty,
    params: Seq<(Ty, Loc)>,
    blocks: Vec<Block>,
    names: Names,
}

impl Model for Module {
    ghost use Rattle.std.specs.Coded.{codes};
    ghost use Rattle.ir_core.specs.contracts.types.Ty as ty;
    ghost use Rattle.ir_core.specs.contracts.values.Init as init;
    ghost use Rattle.ir_core.specs.Module.{ModuleParts};

    ghost Value = { ModuleParts };

    ghost coded = { Prim.hlevel (codes, ty.the_row.coded, init.the_row.coded) };

    ghost view = { λ m. record {
      types = m.types;
      globals = m.globals;
      declares = m.declares;
      funcs = m.funcs;
      syms = m.syms;
      type_names = m.type_names;
    } };
}

impl Model for Func {
    ghost use Rattle.std.specs.Coded.{codes};
    ghost use Rattle.ir_core.specs.contracts.types.Ty as ty;
    ghost use Rattle.ir_core.specs.Module.{FuncParts};

    ghost Value = { FuncParts };

    ghost coded = { Prim.hlevel (codes, ty.the_row.coded) };

    ghost view = { λ f. record {
      sym = f.sym;
      ret = f.ret;
      params = f.params;
      blocks = f.blocks.items;
      names = f.names;
    } };
}

impl Module {
    /// The module without parts. It takes no memory.
    pub fn new(alloc: Global) -> Module
        ensures { result ≡ empty_module }
    {
        Module {
            types: Seq::new(alloc),
            globals: Seq::new(alloc),
            declares: Seq::new(alloc),
            funcs: Seq::new(alloc),
            syms: Names::new(alloc),
            type_names: Names::new(alloc),
        }
    }

    /// The number of the `@` name, which joins the table where it lacked it.
    /// For want of memory the module stays as it was.
    pub fn sym(&mut self, name: &[u8]) -> Result<Sym, AllocError>
        requires { length self.old.syms < 4294967295 }
        ensures number { IfOk result (λ s. s.0 ≡ number_given self.old.syms name.now) }
        ensures within { IfOk result (λ s. s.0 < length self.new.syms) }
        ensures ok { OnOk result
            (self.new ≡ record self.old { syms = numbered self.old.syms name.now }) }
        ensures err { OnErr result (self.new ≡ self.old) }
    {
        let number = self.syms.number(name)?;
        Ok(Sym(number))
    }

    /// The number of the named type, which joins the table where it lacked it.
    /// For want of memory the module stays as it was.
    pub fn type_id(&mut self, name: &[u8]) -> Result<TypeId, AllocError>
        requires { length self.old.type_names < 4294967295 }
        ensures number { IfOk result (λ t. t.0 ≡ number_given self.old.type_names name.now) }
        ensures within { IfOk result (λ t. t.0 < length self.new.type_names) }
        ensures ok { OnOk result
            (self.new ≡ record self.old { type_names = numbered self.old.type_names name.now }) }
        ensures err { OnErr result (self.new ≡ self.old) }
    {
        let number = self.type_names.number(name)?;
        Ok(TypeId(number))
    }

    /// Adds a named type (LLVM Language Reference, 'Structure Types').
    /// For want of memory the module stays as it was, and the type is dropped.
    pub fn add_type(&mut self, id: TypeId, ty: Ty) -> Result<(), AllocError>
        ensures ok { OnOk result
            (self.new ≡ record self.old { types = self.old.types ++ (id, ty) ∷ [] }) }
        ensures err { OnErr result (self.new ≡ self.old) }
    {
        self.types.push((id, ty))?;
        Ok(())
    }

    /// Adds a global (LLVM Language Reference, 'Global Variables').
    /// For want of memory the module stays as it was, and the global is dropped.
    pub fn add_global(&mut self, g: GlobalVar) -> Result<(), AllocError>
        ensures ok { OnOk result
            (self.new ≡ record self.old { globals = self.old.globals ++ g ∷ [] }) }
        ensures err { OnErr result (self.new ≡ self.old) }
    {
        self.globals.push(g)?;
        Ok(())
    }

    /// Adds an external function (LLVM Language Reference, 'Functions').
    /// For want of memory the module stays as it was, and the declare is dropped.
    pub fn add_declare(&mut self, d: Declare) -> Result<(), AllocError>
        ensures ok { OnOk result
            (self.new ≡ record self.old { declares = self.old.declares ++ d ∷ [] }) }
        ensures err { OnErr result (self.new ≡ self.old) }
    {
        self.declares.push(d)?;
        Ok(())
    }

    /// Adds a function. For want of memory the module stays as it was, and the function is dropped.
    pub fn add_func(&mut self, f: Func) -> Result<(), AllocError>
        ensures ok { OnOk result
            (self.new ≡ record self.old { funcs = self.old.funcs ++ f ∷ [] }) }
        ensures err { OnErr result (self.new ≡ self.old) }
    {
        self.funcs.push(f)?;
        Ok(())
    }

    /// The named types in order.
    pub fn types(&self) -> &[(TypeId, Ty)]
        ensures { result.now ≡ self.now.types }
    {
        self.types.items()
    }

    /// The globals in order.
    pub fn globals(&self) -> &[GlobalVar]
        ensures { result.now ≡ self.now.globals }
    {
        self.globals.items()
    }

    /// The external functions in order.
    pub fn declares(&self) -> &[Declare]
        ensures { result.now ≡ self.now.declares }
    {
        self.declares.items()
    }

    /// The functions with blocks in order.
    pub fn funcs(&self) -> &[Func]
        ensures { result.now ≡ self.now.funcs }
    {
        self.funcs.items()
    }

    /// How many `@` names the module has.
    pub fn sym_count(&self) -> u32
        ensures count { result ≡ length self.now.syms }
        ensures small { length self.now.syms < 2 ^ 32 }
        ensures distinct { IsDistinct bytes_eq self.now.syms }
    {
        self.syms.count()
    }

    /// How many names of types the module has.
    pub fn type_count(&self) -> u32
        ensures count { result ≡ length self.now.type_names }
        ensures small { length self.now.type_names < 2 ^ 32 }
        ensures distinct { IsDistinct bytes_eq self.now.type_names }
    {
        self.type_names.count()
    }

    /// The bytes of the `@` name with this number.
    pub fn sym_name(&self, sym: Sym) -> &[u8]
        requires { sym.0 < length self.now.syms }
        ensures { slice_get self.now.syms sym.0 ≡ Some result.now }
    {
        self.syms.name(sym.0)
    }

    /// The bytes of the type name with this number.
    pub fn type_name(&self, id: TypeId) -> &[u8]
        requires { id.0 < length self.now.type_names }
        ensures { slice_get self.now.type_names id.0 ≡ Some result.now }
    {
        self.type_names.name(id.0)
    }

    /// The number of the `@` name, or `None` exactly where the module has no such name.
    pub fn find_sym(&self, name: &[u8]) -> Option<Sym>
        ensures number { option_map (λ s. s.0) result ≡ number_of self.now.syms name.now }
        ensures within { IfSome result (λ s. s.0 < length self.now.syms) }
    {
        let number = self.syms.find(name)?;
        Some(Sym(number))
    }

    /// The number of the named type, or `None` exactly where the module has no such name of a type.
    pub fn find_type(&self, name: &[u8]) -> Option<TypeId>
        ensures number { option_map (λ t. t.0) result ≡ number_of self.now.type_names name.now }
        ensures within { IfSome result (λ t. t.0 < length self.now.type_names) }
    {
        let number = self.type_names.find(name)?;
        Some(TypeId(number))
    }
}

impl Func {
    /// The function with this name and result, without parameters and blocks. It takes no memory.
    pub fn new(alloc: Global, sym: Sym, ret: Ty) -> Func
        ensures { result ≡ empty_func sym ret }
    {
        Func {
            sym,
            ret,
            params: Seq::new(alloc),
            blocks: Vec::new(alloc),
            names: Names::new(alloc),
        }
    }

    /// The number of the `%` name, which joins the table where it lacked it.
    /// For want of memory the function stays as it was.
    pub fn loc(&mut self, name: &[u8]) -> Result<Loc, AllocError>
        requires { length self.old.names < 4294967295 }
        ensures number { IfOk result (λ at. at.0 ≡ number_given self.old.names name.now) }
        ensures within { IfOk result (λ at. at.0 < length self.new.names) }
        ensures ok { OnOk result
            (self.new ≡ record self.old { names = numbered self.old.names name.now }) }
        ensures err { OnErr result (self.new ≡ self.old) }
    {
        let number = self.names.number(name)?;
        Ok(Loc(number))
    }

    /// Adds a parameter. For want of memory the function stays as it was, and the type is dropped.
    pub fn add_param(&mut self, ty: Ty, at: Loc) -> Result<(), AllocError>
        ensures ok { OnOk result
            (self.new ≡ record self.old { params = self.old.params ++ (ty, at) ∷ [] }) }
        ensures err { OnErr result (self.new ≡ self.old) }
    {
        self.params.push((ty, at))?;
        Ok(())
    }

    /// Adds a block without instructions. For want of memory the function stays as it was.
    pub fn add_block(&mut self, label: Loc) -> Result<(), AllocError>
        ensures ok { OnOk result
            (self.new ≡ record self.old {
              blocks = self.old.blocks ++ record { label = label; insts = [] } ∷ [];
            }) }
        ensures err { OnErr result (self.new ≡ self.old) }
    {
        let insts = Seq::new(*self.blocks.allocator());
        self.blocks.push(Block { label, insts })?;
        Ok(())
    }

    /// Adds an instruction to the last block.
    /// For want of memory the function stays as it was, and the instruction is dropped.
    pub fn add_inst(&mut self, i: Inst) -> Result<(), AllocError>
        requires { 0 < length self.old.blocks }
        ensures ok { OnOk result
            (self.new ≡ record self.old { blocks = with_inst self.old.blocks i }) }
        ensures err { OnErr result (self.new ≡ self.old) }
    {
        let last = self.blocks.len() - 1;
        let block = &mut self.blocks[last];
        block.insts.push(i)?;
        Ok(())
    }

    /// The function's name.
    pub fn sym(&self) -> Sym
        ensures { result ≡ self.now.sym }
    {
        self.sym
    }

    /// The type of the function's result.
    pub fn ret(&self) -> &Ty
        ensures { result.now ≡ self.now.ret }
    {
        &self.ret
    }

    /// The parameters in order, each with its register.
    pub fn params(&self) -> &[(Ty, Loc)]
        ensures { result.now ≡ self.now.params }
    {
        self.params.items()
    }

    /// The blocks in order.
    pub fn blocks(&self) -> &[Block]
        ensures { result.now ≡ self.now.blocks }
    {
        self.blocks.as_slice()
    }

    /// How many `%` names the function has.
    pub fn loc_count(&self) -> u32
        ensures count { result ≡ length self.now.names }
        ensures small { length self.now.names < 2 ^ 32 }
        ensures distinct { IsDistinct bytes_eq self.now.names }
    {
        self.names.count()
    }

    /// The bytes of the `%` name with this number.
    pub fn loc_name(&self, at: Loc) -> &[u8]
        requires { at.0 < length self.now.names }
        ensures { slice_get self.now.names at.0 ≡ Some result.now }
    {
        self.names.name(at.0)
    }

    /// The number of the `%` name, or `None` exactly where the function has no such name.
    pub fn find_loc(&self, name: &[u8]) -> Option<Loc>
        ensures number { option_map (λ at. at.0) result ≡ number_of self.now.names name.now }
        ensures within { IfSome result (λ at. at.0 < length self.now.names) }
    {
        let number = self.names.find(name)?;
        Some(Loc(number))
    }
}

impl Copied for Module {
    fn copy(&self, alloc: Global) -> Result<Module, AllocError> {
        let (types, globals, declares, funcs) = copy_four(
            &self.types,
            &self.globals,
            &self.declares,
            &self.funcs,
            alloc,
        )?;
        let (syms, type_names) = copy_both(&self.syms, &self.type_names, alloc)?;
        Ok(Module {
            types,
            globals,
            declares,
            funcs,
            syms,
            type_names,
        })
    }
}

impl Copied for Func {
    fn copy(&self, alloc: Global) -> Result<Func, AllocError> {
        let blocks = copy_items(self.blocks.as_slice(), alloc)?;
        let (ret, params, names) = copy_three(&self.ret, &self.params, &self.names, alloc)?;
        Ok(Func {
            sym: self.sym,
            ret,
            params,
            blocks,
            names,
        })
    }
}
