//! The laws of generic functions that code calls, where modules give the names.

ghost use Rattle.dy_module_generics.specs.Behind.{FaultlessAreReadBehind, CallsAreThereBehind};
ghost use Rattle.dy_module_generics.specs.Behind.{GenericsAreThereBehind, ExportsAreThereBehind};
ghost use Rattle.dy_module_generics.specs.Behind.{BuiltInAreThere, ExportsStay};
ghost use Rattle.dy_module_generics.specs.Behind.{ProgramsMayRunBehind, ProgramsEndBehind};
ghost use Rattle.dy_module_generics.specs.Carried.{ExportsAreCarried};
ghost use Rattle.dy_module_generics.specs.Called.{FaultlessAreRead, NamedGenericsAreThere};
ghost use Rattle.dy_module_generics.specs.Called.{NamedProgramsMayRun, NamedProgramsEnd};

/// What holds of every library whose names its modules give, behind others: no definition is one
/// too many, and the generic functions that used libraries export are rows of those in front.
pub fn behind_laws()
    // No definition is where no fault is told.
    ensures read { FaultlessAreReadBehind }
    // Each generic function that its code calls is a row of it or of one in front.
    ensures calls { CallsAreThereBehind }
    // So with it all that code calls is there, where it is in front.
    ensures generics { GenericsAreThereBehind }
    // So is each generic function that it exports itself.
    ensures exports { ExportsAreThereBehind }
    // So is each that a library exports which exports all rows, as `dylan` and `io`.
    ensures built_in { BuiltInAreThere }
    // What is there stays where more libraries stand behind.
    ensures stay { ExportsStay }
    // So it does in another view, where each library stands at its place.
    ensures carried { ExportsAreCarried }
    // So code of the program may run where its terms are in scope.
    ensures valid { ProgramsMayRunBehind }
    // So each run of it ends, within as many steps as its forms and its units say.
    ensures ends { ProgramsEndBehind }
{}

/// The same of the program of every library that uses `dylan` and `io` alone, behind these two,
/// where no definition is one too many.
pub fn named_laws()
    // None is where no fault is told.
    ensures read { FaultlessAreRead }
    // Each generic function that its code calls is a row of it.
    ensures generics { NamedGenericsAreThere }
    // So its code may run where its terms are in scope.
    ensures valid { NamedProgramsMayRun }
    // So each run of it ends, within as many steps as its forms and its units say.
    ensures ends { NamedProgramsEnd }
{}
