//! The central law, for further kinds of terms.

ghost use Rattle.dy_lowering_law.specs.parts.Closures.{ClosuresFollow, LocalMethodsFollow};
ghost use Rattle.dy_lowering_law.specs.parts.Closures.{MethodItemsFollow};
ghost use Rattle.dy_lowering_law.specs.parts.Lets.{AllLetsFollow, LetItemsFollow};
ghost use Rattle.dy_lowering_law.specs.parts.Loops.{LoopsFollow};
ghost use Rattle.dy_lowering_law.specs.parts.Operating.{OperationsAreLow, AllOperationsTaken};
ghost use Rattle.dy_lowering_law.specs.parts.Selects.{SelectsFollow};

/// What holds of lowered code.
pub fn parts_laws()
    // `let` of any number of locals, and with `#rest`.
    ensures lets { AllLetsFollow }
    // The same, by the numbers of the locals.
    ensures let_items { LetItemsFollow }
    // No built-in operation adds to the units.
    ensures low { OperationsAreLow }
    // Each built-in operation, `format-out` too.
    ensures operations { AllOperationsTaken }
    // `select`.
    ensures selects { SelectsFollow }
    // `while` and `until`.
    ensures loops { LoopsFollow }
    // A closure.
    ensures closures { ClosuresFollow }
    // Local methods.
    ensures methods { LocalMethodsFollow }
    // Local methods, from the numbers of their lambdas.
    ensures method_items { MethodItemsFollow }
{}
