//! What a library is named is one thing.

ghost use Rattle.dy_library_names.specs.Laws.{ReadingsAreOne, AnswersAreOne};

/// What holds of the names of every library.
pub fn naming_laws()
    // Modules and forms say one thing.
    ensures readings { ReadingsAreOne }
    // Where memory suffices there is one answer.
    ensures answers { AnswersAreOne }
{}
