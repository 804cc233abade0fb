//! The world of a program is that of the machine which runs its code.

ghost use Rattle.std.specs.Prelude.{◌≡◌};
ghost use Rattle.dy_term.specs.declared.rows.Program.{Program as Rows};
ghost use Rattle.dy_world.specs.BuiltIn.{machine_of};
ghost use Rattle.dy_lowering_law.specs.Machines as machines;
ghost use Rattle.dy_machine_integers.specs.Plain.{IsPlain};
ghost use Rattle.dy_program_world.specs.declared.built_in.ProgramWorld.{ProgramWorld as Held};
ghost use Rattle.dy_program_world.specs.ProgramWorlds.{built_in_of};

use crate::built_in::ProgramWorld;
use dy_world::World;

/// What is built in for a program.
pub fn world_laws()
    // A world has what is built in for its program.
    ensures world { (world : Held)
        → ⟦<ProgramWorld<'static> as World>⟧.built_in world ≡ built_in_of world }
    // With it the machine of a program's code is the one whose runs on lowered code do what the
    // program means.
    ensures machine { (program : Rows)
        → machine_of (machines.linked_program program) (built_in_of program)
        ≡ machines.machine_of program }
    // Operations of the table give what it says, and cost nothing.
    ensures plain { (program : Rows) → IsPlain (built_in_of program) }
{}
