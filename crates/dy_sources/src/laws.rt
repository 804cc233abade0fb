//! Laws of the libraries of commands.

ghost use Rattle.dy_sources.specs.Laws.{VerdictsAreOne, AnswersAreOne, ReadAreLibraries};
ghost use Rattle.dy_sources.specs.Laws.{ReadAreAccepted};

/// What holds of the libraries of LID files.
pub fn library_laws()
    // The library of a LID file has one verdict behind others.
    ensures verdict { VerdictsAreOne }
    // So LID files come to one thing: their libraries, or why the first is refused.
    ensures one { AnswersAreOne }
    // Their libraries are compiled one behind the other, behind those that are built in.
    ensures libraries { ReadAreLibraries }
    // Each is what some texts come to behind those in front of it.
    ensures accepted { ReadAreAccepted }
{}
