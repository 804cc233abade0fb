//! The laws of rows that are read in a view.

ghost use Rattle.dy_viewed_rows.specs.Within.{MentionsAreInView, OwnIsLast, UsedAreWithin};
ghost use Rattle.dy_viewed_rows.specs.Within.{NextMentionsAreInView, BuiltInMentionNone};
ghost use Rattle.dy_viewed_rows.specs.Programs.{ProgramsAreApart, SeenProgramsAreJoined};
ghost use Rattle.dy_viewed_rows.specs.Programs.{LoadedAreSeen};

/// What holds of the libraries that the code of a library mentions.
pub fn viewed_rows_laws()
    // They are those in front of it and itself, where what it uses exports names of those in front.
    ensures mentions { MentionsAreInView }
    // The library that is compiled next is the last of its view.
    ensures last { OwnIsLast }
    // What it uses exports names of those in front.
    ensures used { UsedAreWithin }
    // So its code mentions libraries of its view alone.
    ensures next { NextMentionsAreInView }
    // The code of `dylan` and `io` mentions none.
    ensures built_in { BuiltInMentionNone }
{}

/// What holds of programs of libraries the code of each of which mentions those of its view alone.
pub fn seen_programs_laws()
    // No two that the code of one mentions come together.
    ensures apart { ProgramsAreApart }
    // So the code of the program is that of its units, joined.
    ensures joined { SeenProgramsAreJoined }
    // Such are those that a library loads, where each sees by name what its view has.
    ensures loaded { LoadedAreSeen }
{}
