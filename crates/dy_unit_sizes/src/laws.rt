//! The law that units of large libraries have small numbers, where no part is too large.

ghost use Rattle.dy_unit_sizes.specs.Sizes.{BodiesAreFew, BodiesAreShort, ItemsAreFew};
ghost use Rattle.dy_unit_sizes.specs.Sizes.{UnitsAreSmall};

/// What holds of the sizes of units.
pub fn unit_size_laws()
    // A library has no more bodies than nodes.
    ensures few { BodiesAreFew }
    // No body is longer than so many instructions for each node of the largest part.
    ensures short { BodiesAreShort }
    // No list of a unit has so many items for each node.
    ensures items { ItemsAreFew }
    // So all numbers of a unit have 32 bits where neither its library nor a part is too large.
    ensures small { UnitsAreSmall }
{}
