//! Laws of whole texts alone, as contracts of functions that do nothing.
ghost use Rattle.ir_parse_top.specs.Laws.{TextsAreDecided, ModulesAreWithin, ModulesAreSmall, FunctionsHaveBlocks, NumeralsAreRead, NamesStay};

/// Every text stands for one module or has one first line that fits no form, and never both.
pub fn text_or_unfit()
    ensures { TextsAreDecided }
{}

/// A text stands for a module of no more instructions than the text has bytes, since no line says more than one: of at
/// most 4,194,304 where it has at most 4 MiB.
pub fn module_is_small()
    ensures bytes { ModulesAreWithin }
    ensures limit { ModulesAreSmall }
{}

/// Each function of a module that a text stands for has a block.
pub fn functions_have_blocks()
    ensures { FunctionsHaveBlocks }
{}

/// The numerals behind a text are names there, and change no name in the text.
pub fn numerals_are_names()
    ensures numerals { NumeralsAreRead }
    ensures names { NamesStay }
{}
