//! That hardened modules have lines (`hard_ir/specs/Standing.antt`).
ghost use Rattle.ir_core.specs.Module.{ModuleParts};
ghost use Rattle.ir_parse_top.specs.Text.{IsOfText};
ghost use Rattle.ir_check.specs.Faults.{IsAccepted};
ghost use Rattle.hard_ir.specs.Image.{flow_table, check_table, relax_table, place_table};
ghost use Rattle.hard_ir.specs.Hardened.{hardened_by, harden};
ghost use Rattle.hard_ir.specs.Facts.{AreShort};
ghost use Rattle.hard_ir.specs.Standing.{HasLines};

/// Each function of the hardened module of an accepted module of a text has a block, and a line of hardened text stands for each label,
/// each phi and each instruction, column by column. The numbers of ticks are below 2^32 where no list of instructions is too long.
pub fn hardened_modules_have_lines()
    ensures flow { (m : ModuleParts) → IsAccepted m → IsOfText m → HasLines (hardened_by flow_table m) }
    ensures checks { (m : ModuleParts) → IsAccepted m → IsOfText m → HasLines (hardened_by check_table m) }
    ensures relax { (m : ModuleParts) → IsAccepted m → IsOfText m → HasLines (hardened_by relax_table m) }
    ensures place { (m : ModuleParts) → IsAccepted m → IsOfText m → HasLines (hardened_by (place_table m) m) }
    ensures whole { (m : ModuleParts) → IsAccepted m → IsOfText m → AreShort (harden m).funcs → HasLines (harden m) }
{}
