//! The central law for calls.

ghost use Rattle.dy_lowering_law.specs.calls.Belonging.{LambdasBelong};
ghost use Rattle.dy_lowering_law.specs.calls.Entering.{EntriesFollow};
ghost use Rattle.dy_lowering_law.specs.calls.Standing.{BodiesStand, CallsAlwaysStand};
ghost use Rattle.dy_lowering_law.specs.calls.Lambdas.{FunctionsHaveBodies, MethodsHaveBodies};
ghost use Rattle.dy_lowering_law.specs.calls.Calls.{KnownCallsTaken, ValueCallsTaken, SearchesTaken};
ghost use Rattle.dy_lowering_law.specs.calls.Calls.{KnownCallsFollow, ValueCallsFollow};
ghost use Rattle.dy_lowering_law.specs.calls.Calls.{SearchesFollow};

/// What holds of the code of calls.
pub fn calls_laws()
    // The entry of a body, and its return.
    ensures entries { EntriesFollow }
    // The body of a function that is named.
    ensures functions { FunctionsHaveBodies }
    // The bodies of methods.
    ensures methods { MethodsHaveBodies }
    // The body of each lambda, and of those inside of it.
    ensures lambdas { LambdasBelong }
    // A call of a function by its name.
    ensures known { KnownCallsTaken }
    // A call of a value.
    ensures values { ValueCallsTaken }
    // A call of a generic function.
    ensures searches { SearchesTaken }
    // The code of these calls.
    ensures known_code { KnownCallsFollow }
    ensures value_code { ValueCallsFollow }
    ensures search_code { SearchesFollow }
    // Bodies stand where they belong.
    ensures bodies { BodiesStand }
    // The induction on units.
    ensures units { CallsAlwaysStand }
{}
