//! What holds of faults (`specs/Faults.antt`). The functions do nothing; their clauses are laws.
ghost use Rattle.std.specs.Prelude.{◌≡◌};
ghost use Rattle.ir_core.specs.Module.{ModuleParts};
ghost use Rattle.ir_check.specs.Faults.{Fault, IsFault, IsAccepted};

/// A module has one fault at most, and an accepted module has none.
pub fn one_fault_or_none()
    ensures one { (m : ModuleParts) (a b : Fault) → IsFault m a → IsFault m b → a ≡ b }
    ensures none { (m : ModuleParts) (fault : Fault) → IsFault m fault → IsAccepted m → ⊥ }
{}
