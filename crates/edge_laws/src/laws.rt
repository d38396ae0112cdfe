//! That hardened modules whose blocks check their edges are images (`hard_ir/specs/Images.antt`) and fit (`hard_ir/specs/Fit.antt`).
ghost use Rattle.std.specs.Prelude.{ℕ, ◌≡◌, Bool, None};
ghost use Rattle.ir_core.specs.Module.{ModuleParts};
ghost use Rattle.ir_check.specs.Faults.{IsAccepted};
ghost use Rattle.ir_parse_top.specs.Text.{IsOfText};
ghost use Rattle.hard_ir.specs.EdgeChecks.{edged, edged_by, first_over};
ghost use Rattle.hard_ir.specs.Facts.{AreShort};
ghost use Rattle.hard_ir.specs.Fit.{Fits};
ghost use Rattle.hard_ir.specs.Hardened.{harden};
ghost use Rattle.hard_ir.specs.Images.{IsNamedImage};

/// The hardened module of an accepted module is an image of it by names, whichever of the blocks to which guarded branches lead check
/// their edges, where no list of instructions of the hardened module is too long.
pub fn edged_modules_are_images()
    ensures { (m : ModuleParts) (chosen : ℕ → ℕ → Bool) → IsAccepted m → AreShort (harden m).funcs → IsNamedImage m (edged_by chosen (harden m)) }
{}

/// The hardened module of an accepted module of a text fits where all blocks check their edges that can, if no function gets too many
/// names.
pub fn edged_modules_fit()
    ensures { (m : ModuleParts) → IsAccepted m → IsOfText m → first_over (harden m) ≡ None → Fits (edged (harden m)) }
{}
