//! Locality.
ghost use Rattle.std.specs.Prelude.{ℕ, ◌≡◌, true, None};
ghost use Rattle.ir_layout.specs.Memory.{is_valid};
ghost use Rattle.mem_image.specs.Bytes.{Memory, IsWhole, peek};
ghost use Rattle.inst_meaning.specs.declared.actions.Action.{Action};
ghost use Rattle.inst_meaning.specs.Accesses.{access_of, place_of, word_read};
ghost use Rattle.process.specs.declared.state.CallStack.{CallStack};
ghost use Rattle.process.specs.Frames.{Frames};
ghost use Rattle.process.specs.State.{ProcessParts};
ghost use Rattle.process.specs.Outcome.{answer_of, failure, thread_after, store_of, alone};
ghost use Rattle.mem_image.specs.Touches.{memory_with};
ghost use Rattle.process_laws.specs.Locality.{AreAlike, IsApart, IsValidAt};

/// What a thread does alone depends on its thread and on the word that it finds, and changes its thread and the bytes of its access,
/// whatever its frames are.
pub fn actions_are_local<F, D>()
    ensures answer { (frames : Frames F D) (p q : ProcessParts F) (t : ℕ) (target : D) (stack : CallStack F) (action : Action)
        → AreAlike p.memory q.memory action → answer_of (alone frames p t target stack action) ≡ answer_of (alone frames q t target stack action) }
    ensures thread { (frames : Frames F D) (a b : Memory) (target : D) (stack : CallStack F) (action : Action) → AreAlike a b action
        → thread_after frames target stack action (word_read a action) ≡ thread_after frames target stack action (word_read b action) }
    ensures valid { (frames : Frames F D) (mem : Memory) (t : ℕ) (stack : CallStack F) (action : Action)
        → failure frames mem.places t stack action ≡ None → IsValidAt mem (place_of action) }
    ensures elsewhere { (mem : Memory) (action : Action) (made old address n : ℕ) → IsWhole mem → IsValidAt mem (place_of action)
        → is_valid mem.places address n ≡ true → IsApart (access_of made action) address n
        → peek (memory_with (store_of action old) mem) address n ≡ peek mem address n }
{}
