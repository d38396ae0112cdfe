//! Numbers of names (`specs/Numbered.antt`).
ghost use Rattle.std.specs.Prelude.{ℕ, ◌≡◌, List};
ghost use Rattle.ir_core.specs.Module.{ModuleParts};
ghost use Rattle.ir_check.specs.Faults.{IsAccepted};
ghost use Rattle.ir_numbering.specs.Numbers.{numbered_module};
ghost use Rattle.src_meaning.specs.Races.{IsGood};
ghost use Rattle.src_meaning.specs.Runs.{source};
ghost use Rattle.hard_ir.specs.Images.{IsSameModule};
ghost use Rattle.renamed_modules.specs.Numbered.{AreNumbered, HasFewNames};

/// A module whose names are in tables is accepted under other numbers too, where no function has too many names; it has the same steps and
/// outputs there, and is good on the same arguments. The modules that are read are such.
pub fn names_alone_count()
    ensures numbered { (text : List ℕ) (tree : ModuleParts) → AreNumbered (numbered_module text tree) }
    ensures accepted { (m other : ModuleParts) → IsSameModule m other → AreNumbered m → HasFewNames other → IsAccepted m → IsAccepted other }
    ensures answers { (m other : ModuleParts) (arguments turns : List ℕ) → IsSameModule m other → AreNumbered m
        → (source other arguments turns).answers ≡ (source m arguments turns).answers }
    ensures outputs { (m other : ModuleParts) (arguments turns : List ℕ) → IsSameModule m other → AreNumbered m
        → (source other arguments turns).state.process.world.outputs ≡ (source m arguments turns).state.process.world.outputs }
    ensures good { (m other : ModuleParts) (arguments : List ℕ) → IsSameModule m other → AreNumbered m → IsGood m arguments → IsGood other arguments }
{}
