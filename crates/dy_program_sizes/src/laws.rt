//! The law of the sizes of programs.

ghost use Rattle.dy_program_sizes.specs.Sizes.{AcceptedAreSmall, ProgramsAreSmall};

/// What holds of the sizes of libraries that files were judged to be, and of their programs. It
/// follows from the limits on tokens and on libraries.
pub fn program_size_laws()
    // The numbers of its unit have 32 bits.
    ensures accepted { AcceptedAreSmall }
    // So have the numbers of the bodies of a program.
    ensures programs { ProgramsAreSmall }
{}
