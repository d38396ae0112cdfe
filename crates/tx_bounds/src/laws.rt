//! Where transactions commit (`specs/Commits.antt`), and what holds of the words that the runtime keeps of each thread (`specs/Steady.antt`).
ghost use Rattle.std.specs.Prelude.{ℕ, suc, ◌≡◌, ◌⊎◌, List, Some, drop, slice_get};
ghost use Rattle.ir_core.specs.Module.{ModuleParts};
ghost use Rattle.sched_file.specs.Events.{Happening, TurnOf};
ghost use Rattle.hard_ir.specs.Hardened.{HardParts, harden};
ghost use Rattle.hard_ir.specs.declared.instruction.HInst.TheVariants.{Cut, End};
ghost use Rattle.hard_frames.specs.declared.state.Frame.{Frame};
ghost use Rattle.hard_frames.specs.Code.{blocks_at, list_at, inst_at};
ghost use Rattle.hard_meaning.specs.State.{State, Worker, opening};
ghost use Rattle.hard_meaning.specs.Runs.{happened, run_from};
ghost use Rattle.tx_bounds.specs.Commits.{Commits, MayCommit};
ghost use Rattle.tx_bounds.specs.Outsides.{IsOutside};
ghost use Rattle.tx_bounds.specs.Steady.{AreSteady};

/// In any state of the hardened module of any module, whatever upsets and aborts came before: only a thread's own turn commits its
/// transaction, at the `end` before an external call other than lock and unlock, at a lock or unlock call that can't be done by watching, at
/// the thread's end, or at a `cut` that has counted enough work.
pub fn commits_come_where_they_may()
    ensures commits { (m : ModuleParts) (s : State) (event : Happening) (t : ℕ) (old new : Worker) → slice_get s.workers t ≡ Some old
        → slice_get (happened (harden m) s event).workers t ≡ Some new → Commits old new
        → (event ≡ TurnOf (record { 0 = t })) × MayCommit (harden m) s old }
{}

/// At any moment of any run of any hardened program: what an abort would give back stands at a `begin`, a transaction is tried at most three
/// times in a row, and a thread that was never aborted has lost no attempt and hasn't given transactions up.
pub fn attempts_stay_few()
    ensures steady { (h : HardParts) (arguments : List ℕ) (events : List Happening) → AreSteady h (run_from h (opening h arguments) events).workers }
{}

/// In the hardened module of any module, what stands after a `cut` and after an `end`, which may leave a thread outside transactions, is copies,
/// checks, cuts and calls of externals alone, up to the next `begin`.
pub fn little_is_done_outside()
    ensures outside { (m : ModuleParts) (frame : Frame) → (inst_at (harden m) frame ≡ Some Cut) ⊎ (inst_at (harden m) frame ≡ Some End)
        → IsOutside (harden m) (drop (suc frame.index) (list_at (blocks_at (harden m) frame.function) frame.block)) }
{}
