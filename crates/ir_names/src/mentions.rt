//! The first name that is mentioned and nowhere defined.
ghost use Rattle.std.specs.Prelude.{◌≡◌, map, IfOk};
ghost use Rattle.ir_numbering.specs.Places.{places_of_head};
ghost use Rattle.ir_lines.specs.Lines.{TypeLine, GlobalLine, DeclareLine, HeadLine, inst_lines, blocks_lines, func_lines, funcs_lines, lines_of};
ghost use Rattle.ir_lines.specs.declared.site.Named as named;
ghost use Rattle.ir_names.specs.Names as names;
ghost use Rattle.ir_names.specs.Names.{name_at, first_strange, first_unknown};
ghost use Rattle.ir_names.specs.Sets.{has_name, HasNamesOf};

use crate::collected::definitions;
use crate::name_set::NameSet;
use ir_core::{Block, Declare, Func, GlobalVar, Inst, Module, Ty, TypeId};
use ir_lines::{Named, Site};
use ir_numbering::{Numbered, Place, Places, places_of};
use std::alloc::{AllocError, Global};

/// What one line tells, or the lines of a part of a module.
type Told = Result<Option<(Site, Named)>, AllocError>;

// The name at a place.
fn name_at(n: usize, place: Place) -> Named
    ensures { result ≡ names.name_at n place }
{
    match place {
        Place::Local(at) => Named::Loc { func: n, at },
        Place::Struct(id) => Named::Type(id),
        Place::Global(sym) => Named::Sym(sym),
    }
}

// The first name at the places that isn't known.
fn first_strange(n: usize, places: &[Place], known: &NameSet) -> Option<Named>
    ensures { result ≡ names.first_strange (has_name known.now) (map (name_at n) places.now) }
{
    for place in places {
        let name = name_at(n, *place);
        if !known.contains(name) {
            return Some(name);
        }
    }
    None
}

// The first name of a tree that isn't known. Where the tree has `%` names, n is the number of its function.
fn strange_in<T: Numbered>(
    alloc: Global,
    n: usize,
    tree: &T,
    known: &NameSet,
) -> Result<Option<Named>, AllocError>
    ensures { IfOk result (λ found. found ≡ names.first_strange (has_name known.now) (map (name_at n) (T.places tree.now))) }
{
    let places = places_of(tree, alloc)?;
    Ok(first_strange(n, places.items(), known))
}

// The places of the line that begins a function.
fn places_of_head(alloc: Global, f: &Func) -> Result<Places, AllocError>
    ensures { IfOk result (λ places. places ≡ places_of_head f.now) }
{
    let mut places = places_of(f.ret(), alloc)?;
    f.sym().add_places(&mut places)?;
    for param in f.params() {
        param.add_places(&mut places)?;
    }
    Ok(places)
}

// What the named types tell.
fn in_types(alloc: Global, types: &[(TypeId, Ty)], known: &NameSet) -> Told
    ensures { IfOk result (λ found. found ≡ first_unknown (has_name known.now) (map TypeLine types.now)) }
{
    for (id, ty) in types {
        if let Some(name) = strange_in(alloc, 0, ty, known)? {
            return Ok(Some((Site::Type(*id), name)));
        }
    }
    Ok(None)
}

// What the globals tell.
fn in_globals(alloc: Global, globals: &[GlobalVar], known: &NameSet) -> Told
    ensures { IfOk result (λ found. found ≡ first_unknown (has_name known.now) (map GlobalLine globals.now)) }
{
    for global in globals {
        if let Some(name) = strange_in(alloc, 0, global, known)? {
            return Ok(Some((Site::Global(global.sym), name)));
        }
    }
    Ok(None)
}

// What the declares tell.
fn in_declares(alloc: Global, declares: &[Declare], known: &NameSet) -> Told
    ensures { IfOk result (λ found. found ≡ first_unknown (has_name known.now) (map DeclareLine declares.now)) }
{
    for declare in declares {
        if let Some(name) = strange_in(alloc, 0, declare, known)? {
            return Ok(Some((Site::Global(declare.sym), name)));
        }
    }
    Ok(None)
}

// What a block's instructions tell.
fn in_insts(alloc: Global, n: usize, f: &Func, b: usize, insts: &[Inst], known: &NameSet) -> Told
    ensures { IfOk result (λ found. found ≡ first_unknown (has_name known.now) (inst_lines n f.now b 0 insts.now)) }
{
    for (i, inst) in insts.iter().enumerate() {
        if let Some(name) = strange_in(alloc, n, inst, known)? {
            let site = Site::Inst {
                func: n,
                block: b,
                inst: i,
            };
            return Ok(Some((site, name)));
        }
    }
    Ok(None)
}

#[tactic(auto, using(crate::proofs::Telling::first_unknown_append))]
// What a function's blocks tell.
fn in_blocks(alloc: Global, n: usize, f: &Func, blocks: &[Block], known: &NameSet) -> Told
    ensures { IfOk result (λ found. found ≡ first_unknown (has_name known.now) (blocks_lines n f.now 0 blocks.now)) }
{
    for (b, block) in blocks.iter().enumerate() {
        if let Some(told) = in_insts(alloc, n, f, b, block.insts.items(), known)? {
            return Ok(Some(told));
        }
    }
    Ok(None)
}

// What a function tells.
fn in_func(alloc: Global, n: usize, f: &Func, known: &NameSet) -> Told
    ensures { IfOk result (λ found. found ≡ first_unknown (has_name known.now) (func_lines n f.now)) }
{
    let places = places_of_head(alloc, f)?;
    if let Some(name) = first_strange(n, places.items(), known) {
        return Ok(Some((Site::Global(f.sym()), name)));
    }
    in_blocks(alloc, n, f, f.blocks(), known)
}

#[tactic(auto, using(crate::proofs::Telling::first_unknown_append))]
// What the functions tell.
fn in_funcs(alloc: Global, funcs: &[Func], known: &NameSet) -> Told
    ensures { IfOk result (λ found. found ≡ first_unknown (has_name known.now) (funcs_lines 0 funcs.now)) }
{
    for (n, f) in funcs.iter().enumerate() {
        if let Some(told) = in_func(alloc, n, f, known)? {
            return Ok(Some(told));
        }
    }
    Ok(None)
}

#[tactic(auto, using(crate::proofs::Telling::first_unknown_append))]
// What a module tells.
fn in_module(alloc: Global, m: &Module, known: &NameSet) -> Told
    ensures { IfOk result (λ found. found ≡ first_unknown (has_name known.now) (lines_of m.now)) }
{
    if let Some(told) = in_types(alloc, m.types(), known)? {
        return Ok(Some(told));
    }
    if let Some(told) = in_globals(alloc, m.globals(), known)? {
        return Ok(Some(told));
    }
    if let Some(told) = in_declares(alloc, m.declares(), known)? {
        return Ok(Some(told));
    }
    in_funcs(alloc, m.funcs(), known)
}

// The set of the names that are defined.
fn names_of(alloc: Global, definitions: &[(Site, Named)]) -> Result<NameSet, AllocError>
    ensures { IfOk result (λ set. HasNamesOf definitions.now set) }
{
    let mut set = NameSet::new(alloc);
    for (_, name) in definitions {
        set.insert(*name)?;
    }
    Ok(set)
}

/// The first name that a module mentions and nowhere defines: a type, an `@` name, or a register or label of the function
/// that mentions it. It is told where it is mentioned. For want of memory nothing is told.
pub fn unknown(alloc: Global, m: &Module) -> Result<Option<(Site, Named)>, AllocError>
    ensures { IfOk result (λ found. found ≡ names.unknown m.now) }
{
    let definitions = definitions(alloc, m)?;
    let known = names_of(alloc, definitions.items())?;
    in_module(alloc, m, &known)
}
