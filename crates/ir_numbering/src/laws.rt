//! What name tables keep, for the crates above: functions that do nothing, and whose contract is a law.
ghost use Rattle.ir_numbering.specs.Laws.{NumbersStay, PlacesAreNumbered, OnlyTablesChange};

/// A name that has a number keeps it, whatever names its table takes.
pub fn numbers_stay()
    ensures { NumbersStay }
{}

/// The names at places have numbers once the tables have taken them.
pub fn places_are_numbered()
    ensures { PlacesAreNumbered }
{}

/// Want of memory changes no more of a module and a function than their name tables.
pub fn only_tables_change()
    ensures { OnlyTablesChange }
{}
