//! A run that ends in a failed check (`specs/Samples.antt`). No image of a module has one without an upset.
ghost use Rattle.std.specs.Prelude.{◌≡◌, ◌++◌, Some, None, codes, decimal};
ghost use Rattle.mem_image.specs.Bytes.{Memory};
ghost use Rattle.hard_frames.specs.declared.outcome.Stop.TheVariants.{Fail};
ghost use Rattle.hard_machine.specs.Step.{turn_of};
ghost use Rattle.hard_simulation.specs.Samples.{differing, entered};

/// Where the shadow holds another word than the master, the machine stops at the check, and tells its place; before that turn it goes on.
pub fn a_check_of_differing_sides_fails()
    ensures before { (memory : Memory) → (turn_of differing (turn_of differing (entered memory) 0) 0).stop ≡ None }
    ensures fails { (memory : Memory) → (turn_of differing (turn_of differing (turn_of differing (entered memory) 0) 0) 0).stop
        ≡ Some (Fail (record { 0 = 0 }) (codes "main/0/" ++ decimal 2)) }
{}
