//! The law of generic functions that code calls.

ghost use Rattle.dy_called_generics.specs.Called.{OwnGenericsAreThere, OwnProgramsMayRun};
ghost use Rattle.dy_called_generics.specs.Called.{OwnProgramsEnd};

/// What holds of the program of every own library, behind `dylan` and `io`.
pub fn called_laws()
    // Each generic function that its code calls is a row of it.
    ensures generics { OwnGenericsAreThere }
    // So its code may run where its terms are in scope.
    ensures valid { OwnProgramsMayRun }
    // So each run of it ends, within as many steps as its forms and its units say.
    ensures ends { OwnProgramsEnd }
{}
