//! What holds of steps and of what is read (`specs/Steps.antt`, `Assigned.antt`).
ghost use Rattle.std.specs.Prelude.{ℕ, ◌≡◌, true, List, Option, Some, None, slice_get, is_some};
ghost use Rattle.ir_core.specs.declared.types.Loc.{Loc};
ghost use Rattle.ir_core.specs.declared.instruction.Inst.{Inst};
ghost use Rattle.ir_core.specs.Module.{ModuleParts};
ghost use Rattle.ir_check.specs.Faults.{IsAccepted};
ghost use Rattle.process.specs.declared.state.CallStack.{CallStack};
ghost use Rattle.process.specs.declared.state.Step.TheVariants.{Idle};
ghost use Rattle.process.specs.declared.state.Thread.TheVariants.{Running};
ghost use Rattle.src_meaning.specs.declared.state.Frame.{Frame};
ghost use Rattle.src_meaning.specs.State.{State, inst_at};
ghost use Rattle.src_meaning.specs.Step.{step};
ghost use Rattle.src_meaning.specs.Runs.{source};
ghost use Rattle.src_laws.specs.Steps.{IsStep};
ghost use Rattle.src_laws.specs.Assigned.{HaveBlocks, ReadsWords};

/// A step that waits, is idle or is undefined gives the state back; one that ends the program says so in its state; and then every
/// thread is idle.
pub fn steps_that_do_nothing()
    ensures still { (m : ModuleParts) (s : State) (t : ℕ) → IsStep s (step m s t) }
    ensures over { (m : ModuleParts) (s : State) (t : ℕ) → s.ended ≡ true → step m s t ≡ (s, Idle) }
{}

/// In every state that a run of an accepted module reaches, each thread that runs stands at an instruction, as long as each function has
/// a block; and each register that this instruction reads has a word: its operands, and what the phis of every block to which it may
/// jump take from its own block.
pub fn what_is_read_is_assigned()
    ensures stands { (m : ModuleParts) (arguments turns : List ℕ) (t : ℕ) (stack : CallStack Frame) → IsAccepted m → HaveBlocks m.funcs → slice_get (source m arguments turns).state.process.threads t ≡ Some (Running stack)
        → is_some (inst_at m stack.frame) ≡ true }
    ensures words { (m : ModuleParts) (arguments turns : List ℕ) (t : ℕ) (stack : CallStack Frame) (inst : Inst) → IsAccepted m → slice_get (source m arguments turns).state.process.threads t ≡ Some (Running stack)
        → inst_at m stack.frame ≡ Some inst → ReadsWords m stack.frame inst }
{}
