//! Laws of the grammar alone, as contracts of functions that do nothing.
ghost use Rattle.ir_grammar.specs.Fitting.{IsDecided};
ghost use Rattle.ir_grammar.specs.Lines.{instruction};
ghost use Rattle.ir_grammar.specs.Top.{top_line, body_line};

/// The tokens of a line stand for one instruction, or one place of the line is unfit, and never both.
pub fn instruction_or_unfit()
    ensures { IsDecided instruction.means }
{}

/// The same of a line outside functions.
pub fn top_line_or_unfit()
    ensures { IsDecided top_line.means }
{}

/// The same of a line inside a function.
pub fn body_line_or_unfit()
    ensures { IsDecided body_line.means }
{}
