//! What actions depend on (`specs/Agreement.antt`).
ghost use Rattle.std.specs.Prelude.{ℕ, ◌≡◌, List, Option, false};
ghost use Rattle.ir_core.specs.declared.types.Loc.{Loc};
ghost use Rattle.ir_core.specs.declared.instruction.Inst.{Inst};
ghost use Rattle.ir_layout.specs.Memory.{LayoutParts};
ghost use Rattle.inst_meaning.specs.declared.actions.Callee.{Callee};
ghost use Rattle.inst_meaning.specs.Action.{action_of};
ghost use Rattle.inst_meaning.specs.Phis.{phi_words, assigned, all_assigned};
ghost use Rattle.inst_laws.specs.Agreement.{Agree, IsDefined, with_flags};

/// Register files that hold the same words give every instruction the same action and phis the same words, and they still do once both
/// have taken the same words.
pub fn actions_depend_on_words()
    ensures action { (l : LayoutParts) (callees : List Callee) (a b : List (Option ℕ)) (inst : Inst) → Agree a b → action_of l callees a inst ≡ action_of l callees b inst }
    ensures phis { (l : LayoutParts) (a b : List (Option ℕ)) (label : Loc) (phis : List Inst) → Agree a b → phi_words l a label phis ≡ phi_words l b label phis }
    ensures assigned { (a b : List (Option ℕ)) (dst : Option Loc) (word : ℕ) → Agree a b → Agree (assigned dst word a) (assigned dst word b) }
    ensures all_assigned { (words : List (Loc × ℕ)) (a b : List (Option ℕ)) → Agree a b → Agree (all_assigned words a) (all_assigned words b) }
{}

/// An operator without flags asks for what it asks for with them, unless that is undefined.
pub fn operators_without_flags()
    ensures { (l : LayoutParts) (callees : List Callee) (registers : List (Option ℕ)) (inst : Inst) → IsDefined (action_of l callees registers inst)
        → action_of l callees registers (with_flags (record { nuw = false; nsw = false; exact = false }) inst) ≡ action_of l callees registers inst }
{}
