//! The law that code is not much longer than what it is of.

ghost use Rattle.dy_lowering_whole.specs.sizes.Sizes.{TermsAreShort, BodiesAreShort, BodiesAreFew};
ghost use Rattle.dy_lowering_whole.specs.sizes.Sizes.{ItemsAreFew, UnitsAreSmall};

/// What holds of the sizes of code.
pub fn size_laws()
    // The code of a term has so many instructions for each node at most.
    ensures terms { TermsAreShort }
    // So has each body of a library.
    ensures short { BodiesAreShort }
    // There are no more bodies for each node.
    ensures few { BodiesAreFew }
    // No list of a unit has more items for each node.
    ensures items { ItemsAreFew }
    // So all numbers of a unit have 32 bits where its library is not too large.
    ensures small { UnitsAreSmall }
{}
