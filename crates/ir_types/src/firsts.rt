//! A table of entries under `%` names, of which the first of a name counts (`specs/Firsts.antt`).
ghost use Rattle.std.specs.Prelude.{◌≡◌, ◌<◌, ℕ, Some, None, false, length, nat_eq, slice_index_or, IfOk, OnOk};
ghost use Rattle.std.specs.Option.{option_copied};
ghost use Rattle.ir_types.specs.Firsts.{first_of, AreListed};

use ir_core::Loc;
use std::alloc::{AllocError, Global};
use std::marker::Model;

/// Entries under `%` names. Contracts see them as a list.
#[derive(Drop)]
pub(crate) struct Firsts<T> {
    entries: Vec<(Loc, T)>,
    places: Vec<Option<usize>>,
}

impl<T> Model for Firsts<T> {
    ghost use Rattle.std.specs.Prelude.{List};
    ghost use Rattle.ir_core.specs.declared.types.Loc.{Loc};

    ghost Value = { List (Loc × T) };

    ghost use Rattle.ir_types.specs.Firsts.{AreListed};

    ghost view = { λ f. f.entries.items };

    ghost invariant = { λ f. AreListed f.entries.items f.places.items };
}

// The place under a number.
fn place_at(places: &[Option<usize>], number: u32) -> Option<usize>
    ensures { result ≡ slice_index_or places.now number None }
{
    match places.get(number as usize) {
        Some(place) => *place,
        None => None,
    }
}

// Grows a table that is too short for a number, by numbers without places.
fn make_room(places: &mut Vec<Option<usize>>, number: u32) -> Result<(), AllocError>
    ensures room { OnOk result (number < length places.new.items) }
    ensures same { (other : ℕ) →
        OnOk result (slice_index_or places.new.items other None ≡ slice_index_or places.old.items other None) }
{
    let at = number as usize;
    if at >= places.len() {
        places.resize(at + 1, None)?;
    }
    Ok(())
}

// Writes a place under a number.
fn put_place(places: &mut Vec<Option<usize>>, number: u32, place: usize) -> Result<(), AllocError>
    ensures own { OnOk result (slice_index_or places.new.items number None ≡ Some place) }
    ensures others { (other : ℕ) → nat_eq number other ≡ false →
        OnOk result (slice_index_or places.new.items other None ≡ slice_index_or places.old.items other None) }
{
    make_room(places, number)?;
    places[number as usize] = Some(place);
    Ok(())
}

// The place of the first entry of each name. From the last entry on, so that an earlier one takes the place of a later one.
fn places_of<T>(alloc: Global, entries: &[(Loc, T)]) -> Result<Vec<Option<usize>>, AllocError>
    ensures { IfOk result (λ places. AreListed entries.now places.items) }
{
    let mut places = Vec::new(alloc);
    let mut left = entries.len();
    'entries: while left > 0 {
        left -= 1;
        let (at, _) = &entries[left];
        put_place(&mut places, at.0, left)?;
    }
    Ok(places)
}

impl<T> Firsts<T> {
    /// What stands first under a name.
    pub(crate) fn get(&self, at: Loc) -> Option<&T>
        ensures { option_copied result ≡ first_of self.now at }
    {
        let place = place_at(self.places.as_slice(), at.0)?;
        let (_, entry) = self.entries.get(place)?;
        Some(entry)
    }
}

impl<T: Drop> Firsts<T> {
    /// The table of these entries.
    pub(crate) fn new(alloc: Global, entries: Vec<(Loc, T)>) -> Result<Firsts<T>, AllocError>
        ensures { IfOk result (λ firsts. firsts ≡ entries.items) }
    {
        let places = places_of(alloc, entries.as_slice())?;
        Ok(Firsts { entries, places })
    }
}
