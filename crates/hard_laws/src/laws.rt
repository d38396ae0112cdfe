//! That the hardened modules of accepted modules fit (`hard_ir/specs/Fit.antt`), and are images (`hard_ir/specs/Images.antt`).
ghost use Rattle.ir_core.specs.Module.{ModuleParts};
ghost use Rattle.ir_check.specs.Faults.{IsAccepted};
ghost use Rattle.hard_ir.specs.Image.{flow_table, check_table, relax_table, place_table};
ghost use Rattle.hard_ir.specs.Hardened.{HardParts, hardened_by, harden};
ghost use Rattle.hard_ir.specs.Facts.{AreShort};
ghost use Rattle.hard_ir.specs.Fit.{Fits};
ghost use Rattle.hard_ir.specs.Images.{IsImage, IsLooseImage};

/// The hardened module of an accepted module fits, column by column: with masters, shadows and copies; with checks; with double loads
/// and late checks; with transactions; and with ticks, which is the whole table.
pub fn accepted_modules_fit()
    ensures flow { (m : ModuleParts) → IsAccepted m → Fits (hardened_by flow_table m) }
    ensures checks { (m : ModuleParts) → IsAccepted m → Fits (hardened_by check_table m) }
    ensures relax { (m : ModuleParts) → IsAccepted m → Fits (hardened_by relax_table m) }
    ensures place { (m : ModuleParts) → IsAccepted m → Fits (hardened_by (place_table m) m) }
    ensures whole { (m : ModuleParts) → IsAccepted m → Fits (harden m) }
{}

/// The hardened module of the whole table is an image of its source, where no list of instructions is too long; and an exact image is a
/// loose one.
pub fn hardened_modules_are_images()
    ensures exact { (m : ModuleParts) → AreShort (harden m).funcs → IsImage m (harden m) }
    ensures loose { (m : ModuleParts) (h : HardParts) → IsImage m h → IsLooseImage m h }
{}
