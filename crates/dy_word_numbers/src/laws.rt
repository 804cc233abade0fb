//! The law that the integers of a library have 64 bits.

ghost use Rattle.dy_word_numbers.specs.Words.{TokensAreWords, GroupsAreWords, DraftsAreWords};
ghost use Rattle.dy_word_numbers.specs.Words.{WordsArePlain};

/// What holds of the integers of files, and of what the files become.
pub fn word_laws()
    // Those of a source file have 64 bits.
    ensures tokens { TokensAreWords }
    // Fragments have no others than their tokens.
    ensures groups { GroupsAreWords }
    // The draft of a form has no others than its fragments.
    ensures drafts { DraftsAreWords }
    // So a draft of kinds that are lowered is lowered.
    ensures plain { WordsArePlain }
{}
