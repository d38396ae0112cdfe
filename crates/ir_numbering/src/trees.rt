//! Trees that mention names.
ghost use Rattle.std.specs.Prelude.{◌≡◌, ◌++◌, [], ◌∷◌, List, map, IfOk, OnOk};
ghost use Rattle.std.specs.List.{flat_map};
ghost use Rattle.ir_numbering.specs.declared.places.Place as place;
ghost use Rattle.ir_numbering.specs.declared.places.Place.TheVariants as kinds;
ghost use Rattle.ir_numbering.specs.Places.{places_of_option};
ghost use Rattle.ir_numbering.specs.Renaming as renaming;
ghost use Rattle.ir_numbering.specs.Renaming.{renamed_loc, renamed_type_id, renamed_sym, renamed_option};
ghost use Rattle.ir_numbering.specs.Numbers.{renaming_of};

use crate::{Numbers, Place, Places};
use ir_core::{Loc, Seq, Sym, TypeId, Width};
use std::alloc::{AllocError, Global};

/// A tree in which names stand, each told by the place where it begins.
pub trait Numbered: Sized {
    /// The places of its names, in the order in which its line writes them.
    ghost places: { Self → List place.Place };

    /// The tree with other numbers in place of its own.
    ghost renamed_by: { renaming.Renaming → Self → Self };

    /// Adds the places of the tree's names. For want of memory the list is of no more use.
    fn add_places(&self, list: &mut Places) -> Result<(), AllocError>
        ensures { OnOk result (list.new ≡ list.old ++ places self.now) };

    /// The tree with the numbers of its names in place of their places. For want of memory there is none.
    fn renamed(&self, numbers: &Numbers<'_>, alloc: Global) -> Result<Self, AllocError>
        ensures { IfOk result (λ tree.
            tree
            ≡ renamed_by (renaming_of numbers.now.text.now numbers.now.in_module.now numbers.now.in_func.now) self.now) };
}

// Two trees with the numbers of their names.
pub(crate) fn renamed_both<A: Numbered + Drop, B: Numbered>(
    a: &A,
    b: &B,
    numbers: &Numbers<'_>,
    alloc: Global,
) -> Result<(A, B), AllocError>
    ensures { IfOk result (λ trees.
        let r = renaming_of numbers.now.text.now numbers.now.in_module.now numbers.now.in_func.now in
        (trees.0 ≡ A.renamed_by r a.now) × (trees.1 ≡ B.renamed_by r b.now)) }
{
    let first = a.renamed(numbers, alloc)?;
    paired(first, b.renamed(numbers, alloc))
}

// The pair of a value and of one that may have found no memory. The first is then dropped.
pub(crate) fn paired<A: Drop, B>(
    first: A,
    second: Result<B, AllocError>,
) -> Result<(A, B), AllocError>
    ensures { IfOk result (λ pair. (pair.0 ≡ first) × (second ≡ Ok pair.1)) }
{
    let second = second?;
    Ok((first, second))
}

// Three trees with the numbers of their names.
pub(crate) fn renamed_three<A: Numbered + Drop, B: Numbered + Drop, C: Numbered>(
    a: &A,
    b: &B,
    c: &C,
    numbers: &Numbers<'_>,
    alloc: Global,
) -> Result<(A, B, C), AllocError>
    ensures { IfOk result (λ trees.
        let r = renaming_of numbers.now.text.now numbers.now.in_module.now numbers.now.in_func.now in
        (trees.0 ≡ A.renamed_by r a.now) × (trees.1 ≡ B.renamed_by r b.now) × (trees.2 ≡ C.renamed_by r c.now)) }
{
    let both = renamed_both(a, b, numbers, alloc)?;
    with_third(both, c.renamed(numbers, alloc))
}

// Two values and one that may have found no memory. The two are then dropped.
fn with_third<A: Drop, B: Drop, C>(
    both: (A, B),
    third: Result<C, AllocError>,
) -> Result<(A, B, C), AllocError>
    ensures { IfOk result (λ all. (all.0 ≡ both.0) × (all.1 ≡ both.1) × (third ≡ Ok all.2)) }
{
    let ((first, second), third) = paired(both, third)?;
    Ok((first, second, third))
}

// Four trees with the numbers of their names.
pub(crate) fn renamed_four<A: Numbered + Drop, B: Numbered + Drop, C: Numbered + Drop, D: Numbered>(
    a: &A,
    b: &B,
    c: &C,
    d: &D,
    numbers: &Numbers<'_>,
    alloc: Global,
) -> Result<(A, B, C, D), AllocError>
    ensures { IfOk result (λ trees.
        let r = renaming_of numbers.now.text.now numbers.now.in_module.now numbers.now.in_func.now in
        (trees.0 ≡ A.renamed_by r a.now)
        × (trees.1 ≡ B.renamed_by r b.now)
        × (trees.2 ≡ C.renamed_by r c.now)
        × (trees.3 ≡ D.renamed_by r d.now)) }
{
    let three = renamed_three(a, b, c, numbers, alloc)?;
    let ((first, second, third), fourth) = paired(three, d.renamed(numbers, alloc))?;
    Ok((first, second, third, fourth))
}

// Adds the places of two trees.
pub(crate) fn add_two<A: Numbered, B: Numbered>(
    a: &A,
    b: &B,
    list: &mut Places,
) -> Result<(), AllocError>
    ensures { OnOk result (list.new ≡ list.old ++ (A.places a.now ++ B.places b.now)) }
{
    a.add_places(list)?;
    b.add_places(list)
}

// Adds the places of three trees.
pub(crate) fn add_three<A: Numbered, B: Numbered, C: Numbered>(
    a: &A,
    b: &B,
    c: &C,
    list: &mut Places,
) -> Result<(), AllocError>
    ensures { OnOk result (list.new ≡ list.old ++ (A.places a.now ++ B.places b.now ++ C.places c.now)) }
{
    add_two(a, b, list)?;
    c.add_places(list)
}

// Adds the places of four trees.
pub(crate) fn add_four<A: Numbered, B: Numbered, C: Numbered, D: Numbered>(
    a: &A,
    b: &B,
    c: &C,
    d: &D,
    list: &mut Places,
) -> Result<(), AllocError>
    ensures { OnOk result
        (list.new ≡ list.old ++ (A.places a.now ++ B.places b.now ++ C.places c.now ++ D.places d.now)) }
{
    add_three(a, b, c, list)?;
    d.add_places(list)
}

// Adds the places of five trees.
pub(crate) fn add_five<A: Numbered, B: Numbered, C: Numbered, D: Numbered, E: Numbered>(
    a: &A,
    b: &B,
    c: &C,
    d: &D,
    e: &E,
    list: &mut Places,
) -> Result<(), AllocError>
    ensures { OnOk result
        (list.new
        ≡ list.old
        ++ (A.places a.now ++ B.places b.now ++ C.places c.now ++ D.places d.now ++ E.places e.now)) }
{
    add_four(a, b, c, d, list)?;
    e.add_places(list)
}

// Adds the places of trees in order.
pub(crate) fn add_all<T: Numbered>(trees: &[T], list: &mut Places) -> Result<(), AllocError>
    ensures { OnOk result (list.new ≡ list.old ++ flat_map T.places trees.now) }
{
    for tree in trees {
        tree.add_places(list)?;
    }
    Ok(())
}

impl Numbered for u64 {
    ghost places = { λ n. [] };

    ghost renamed_by = { λ r n. n };

    fn add_places(&self, _list: &mut Places) -> Result<(), AllocError> {
        Ok(())
    }

    fn renamed(&self, _numbers: &Numbers<'_>, _alloc: Global) -> Result<u64, AllocError> {
        Ok(*self)
    }
}

impl Numbered for Width {
    ghost places = { λ w. [] };

    ghost renamed_by = { λ r w. w };

    fn add_places(&self, _list: &mut Places) -> Result<(), AllocError> {
        Ok(())
    }

    fn renamed(&self, _numbers: &Numbers<'_>, _alloc: Global) -> Result<Width, AllocError> {
        Ok(*self)
    }
}

impl Numbered for Loc {
    ghost places = { λ at. kinds.Local at ∷ [] };

    ghost renamed_by = { renamed_loc };

    fn add_places(&self, list: &mut Places) -> Result<(), AllocError> {
        list.push(Place::Local(*self))
    }

    fn renamed(&self, numbers: &Numbers<'_>, _alloc: Global) -> Result<Loc, AllocError> {
        Ok(numbers.loc(*self))
    }
}

impl Numbered for TypeId {
    ghost places = { λ id. kinds.Struct id ∷ [] };

    ghost renamed_by = { renamed_type_id };

    fn add_places(&self, list: &mut Places) -> Result<(), AllocError> {
        list.push(Place::Struct(*self))
    }

    fn renamed(&self, numbers: &Numbers<'_>, _alloc: Global) -> Result<TypeId, AllocError> {
        Ok(numbers.type_id(*self))
    }
}

impl Numbered for Sym {
    ghost places = { λ sym. kinds.Global sym ∷ [] };

    ghost renamed_by = { renamed_sym };

    fn add_places(&self, list: &mut Places) -> Result<(), AllocError> {
        list.push(Place::Global(*self))
    }

    fn renamed(&self, numbers: &Numbers<'_>, _alloc: Global) -> Result<Sym, AllocError> {
        Ok(numbers.sym(*self))
    }
}

impl<A: Numbered + Drop, B: Numbered> Numbered for (A, B) {
    ghost places = { λ p. A.places p.0 ++ B.places p.1 };

    ghost renamed_by = { λ r p. (A.renamed_by r p.0, B.renamed_by r p.1) };

    fn add_places(&self, list: &mut Places) -> Result<(), AllocError> {
        add_two(&self.0, &self.1, list)
    }

    fn renamed(&self, numbers: &Numbers<'_>, alloc: Global) -> Result<(A, B), AllocError> {
        renamed_both(&self.0, &self.1, numbers, alloc)
    }
}

impl<T: Numbered + Drop> Numbered for Seq<T> {
    ghost places = { flat_map T.places };

    ghost renamed_by = { λ r. map (T.renamed_by r) };

    fn add_places(&self, list: &mut Places) -> Result<(), AllocError> {
        add_all(self.items(), list)
    }

    fn renamed(&self, numbers: &Numbers<'_>, alloc: Global) -> Result<Seq<T>, AllocError> {
        let mut copies = Vec::with_capacity(alloc, self.items().len())?;
        for item in self.items() {
            copies.push(item.renamed(numbers, alloc)?)?;
        }
        Ok(Seq::from_vec(copies))
    }
}

impl<T: Numbered> Numbered for Option<T> {
    ghost places = { places_of_option T.places };

    ghost renamed_by = { λ r. renamed_option (T.renamed_by r) };

    fn add_places(&self, list: &mut Places) -> Result<(), AllocError> {
        match self {
            None => Ok(()),
            Some(tree) => tree.add_places(list),
        }
    }

    fn renamed(&self, numbers: &Numbers<'_>, alloc: Global) -> Result<Option<T>, AllocError> {
        match self {
            None => Ok(None),
            Some(tree) => Ok(Some(tree.renamed(numbers, alloc)?)),
        }
    }
}
