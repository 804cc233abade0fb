//! Laws of the files that LID files name.

ghost use Rattle.std.specs.Prelude.{◌≡◌, ℕ, List, length};
ghost use Rattle.dy_lexer.specs.declared.source.Lid.{Lid};
ghost use Rattle.dy_lexer.specs.Sources.{IsLid};
ghost use Rattle.dy_lid_files.specs.Names.{NamesFiles};

/// What holds of the number of files that a LID file names.
pub fn name_laws()
    // No LID file names two numbers of files.
    ensures one { (text : List ℕ) (count other : ℕ) → NamesFiles text count
        → NamesFiles text other → count ≡ other }
    // One that is in form names as many as are read from it.
    ensures in_form { (text : List ℕ) (lid : Lid) (count : ℕ) → IsLid text lid
        → NamesFiles text count → count ≡ length lid.files }
{}
