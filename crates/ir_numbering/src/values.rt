//! Types, operands, initialisers, and the globals and declares that have them.
ghost use Rattle.ir_numbering.specs.Places.{places_of_ty, places_of_gep, places_of_val, places_of_init, places_of_global, places_of_declare};
ghost use Rattle.ir_numbering.specs.Renaming.{renamed_ty, renamed_gep, renamed_val, renamed_init, renamed_global, renamed_declare};

use crate::trees::{add_three, add_two, paired, renamed_both};
use crate::{Numbered, Numbers, Places};
use ir_core::{Boxed, ConstGep, Copied, Declare, GlobalVar, Init, Seq, Ty, Val};
use std::alloc::{AllocError, Global};

impl Numbered for Ty {
    ghost places = { places_of_ty };

    ghost renamed_by = { renamed_ty };

    fn add_places(&self, list: &mut Places) -> Result<(), AllocError> {
        match self {
            Ty::Void | Ty::Int(_) | Ty::Ptr => Ok(()),
            Ty::Array(_, element) => element.get().add_places(list),
            Ty::Struct(parts) => {
                for part in parts.items() {
                    part.add_places(list)?;
                }
                Ok(())
            }
            Ty::Named(id) => id.add_places(list),
        }
    }

    fn renamed(&self, numbers: &Numbers<'_>, alloc: Global) -> Result<Ty, AllocError> {
        match self {
            Ty::Void => Ok(Ty::Void),
            Ty::Int(width) => Ok(Ty::Int(*width)),
            Ty::Ptr => Ok(Ty::Ptr),
            Ty::Array(count, element) => {
                let copy = element.get().renamed(numbers, alloc)?;
                Ok(Ty::Array(*count, Boxed::new(alloc, copy)?))
            }
            Ty::Struct(parts) => {
                let mut copies = Seq::new(alloc);
                for part in parts.items() {
                    copies.push(part.renamed(numbers, alloc)?)?;
                }
                Ok(Ty::Struct(copies))
            }
            Ty::Named(id) => Ok(Ty::Named(numbers.type_id(*id))),
        }
    }
}

impl Numbered for ConstGep {
    ghost places = { places_of_gep };

    ghost renamed_by = { renamed_gep };

    fn add_places(&self, list: &mut Places) -> Result<(), AllocError> {
        add_two(&self.base, &self.sym, list)
    }

    fn renamed(&self, numbers: &Numbers<'_>, alloc: Global) -> Result<ConstGep, AllocError> {
        let base = self.base.renamed(numbers, alloc)?;
        let (base, index) = paired(base, self.index.copy(alloc))?;
        Ok(ConstGep {
            base,
            sym: numbers.sym(self.sym),
            index,
        })
    }
}

impl Numbered for Val {
    ghost places = { places_of_val };

    ghost renamed_by = { renamed_val };

    fn add_places(&self, list: &mut Places) -> Result<(), AllocError> {
        match self {
            Val::Reg(at) => at.add_places(list),
            Val::Int(_) | Val::Null => Ok(()),
            Val::Global(sym) => sym.add_places(list),
            Val::Gep(gep) => gep.add_places(list),
        }
    }

    fn renamed(&self, numbers: &Numbers<'_>, alloc: Global) -> Result<Val, AllocError> {
        match self {
            Val::Reg(at) => Ok(Val::Reg(numbers.loc(*at))),
            Val::Int(word) => Ok(Val::Int(*word)),
            Val::Null => Ok(Val::Null),
            Val::Global(sym) => Ok(Val::Global(numbers.sym(*sym))),
            Val::Gep(gep) => Ok(Val::Gep(gep.renamed(numbers, alloc)?)),
        }
    }
}

impl Numbered for Init {
    ghost places = { places_of_init };

    ghost renamed_by = { renamed_init };

    fn add_places(&self, list: &mut Places) -> Result<(), AllocError> {
        match self {
            Init::Zero | Init::Int(_) | Init::Null | Init::Bytes(_) => Ok(()),
            Init::Addr(sym) => sym.add_places(list),
            Init::Gep(gep) => gep.add_places(list),
            Init::Parts(parts) => {
                for (ty, init) in parts.items() {
                    ty.add_places(list)?;
                    init.add_places(list)?;
                }
                Ok(())
            }
        }
    }

    fn renamed(&self, numbers: &Numbers<'_>, alloc: Global) -> Result<Init, AllocError> {
        match self {
            Init::Zero => Ok(Init::Zero),
            Init::Int(word) => Ok(Init::Int(*word)),
            Init::Null => Ok(Init::Null),
            Init::Addr(sym) => Ok(Init::Addr(numbers.sym(*sym))),
            Init::Gep(gep) => Ok(Init::Gep(gep.renamed(numbers, alloc)?)),
            Init::Bytes(bytes) => Ok(Init::Bytes(bytes.copy(alloc)?)),
            Init::Parts(parts) => {
                let mut copies = Seq::new(alloc);
                for (ty, init) in parts.items() {
                    let ty = ty.renamed(numbers, alloc)?;
                    let part = paired(ty, init.renamed(numbers, alloc))?;
                    copies.push(part)?;
                }
                Ok(Init::Parts(copies))
            }
        }
    }
}

impl Numbered for GlobalVar {
    ghost places = { places_of_global };

    ghost renamed_by = { renamed_global };

    fn add_places(&self, list: &mut Places) -> Result<(), AllocError> {
        add_three(&self.sym, &self.ty, &self.init, list)
    }

    fn renamed(&self, numbers: &Numbers<'_>, alloc: Global) -> Result<GlobalVar, AllocError> {
        let (ty, init) = renamed_both(&self.ty, &self.init, numbers, alloc)?;
        Ok(GlobalVar {
            sym: numbers.sym(self.sym),
            ty,
            init,
        })
    }
}

impl Numbered for Declare {
    ghost places = { places_of_declare };

    ghost renamed_by = { renamed_declare };

    fn add_places(&self, list: &mut Places) -> Result<(), AllocError> {
        add_three(&self.ret, &self.sym, &self.params, list)
    }

    fn renamed(&self, numbers: &Numbers<'_>, alloc: Global) -> Result<Declare, AllocError> {
        let (ret, params) = renamed_both(&self.ret, &self.params, numbers, alloc)?;
        Ok(Declare {
            sym: numbers.sym(self.sym),
            ret,
            params,
        })
    }
}
