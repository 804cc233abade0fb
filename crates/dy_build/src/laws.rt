//! Laws of the outcomes of commands.

ghost use Rattle.std.specs.Prelude.{◌≡◌, ◌↔◌, ℕ, List, Some};
ghost use Rattle.dy_io.specs.Files.{FileMap};
ghost use Rattle.dy_build.specs.Words.{Command, IsCommand, command_of};
ghost use Rattle.dy_build.specs.Outcome.{Report, IsOutcome};

use dy_sources::library_laws;

/// What holds of the outcomes of every command over all files.
pub fn outcome_laws()
    // Words are of a command exactly where the synopsis says so.
    ensures synopsis { (words : List (List ℕ)) (command : Command)
        → command_of words ≡ Some command ↔ IsCommand words command }
    // No command has two outcomes: the status and the bytes that are sent are determined by the
    // words and the files.
    ensures one { (words : List (List ℕ)) (files : FileMap) (a b : Report) → IsOutcome words files a
        → IsOutcome words files b → a ≡ b }
{
    library_laws();
}
