//! The law that what files become is not much larger than the files.

ghost use Rattle.dy_file_sizes.specs.Sizes.{TokensAreFew, GroupsAreSmall, DraftsAreSmall};
ghost use Rattle.dy_file_sizes.specs.Sizes.{TermsAreSmall, RowsAreSmall, LibrariesAreSmall};
ghost use Rattle.dy_file_sizes.specs.Sizes.{PartsAreSmall, FilesAreSmall, LargestAreSmall};

/// What holds of the sizes of files, and of what they become.
pub fn file_size_laws()
    // A source file has no more tokens than bytes.
    ensures tokens { TokensAreFew }
    // Fragments have no more tokens than those that they were grouped from.
    ensures groups { GroupsAreSmall }
    // The draft of a form has fewer than so many nodes for each token.
    ensures drafts { DraftsAreSmall }
    // A term has no more nodes than its draft.
    ensures terms { TermsAreSmall }
    // The rows of a form have no more nodes than its draft.
    ensures rows { RowsAreSmall }
    // So a library has so many nodes for each byte of its files at most.
    ensures libraries { LibrariesAreSmall }
    // Each part of it has so many nodes for each byte of the largest file at most.
    ensures parts { PartsAreSmall }
    // So all numbers of its unit have 32 bits where its files are not too large.
    ensures files { FilesAreSmall }
    // They are not where there are at most 64, of at most 4,194,304 bytes each.
    ensures largest { LargestAreSmall }
{}
