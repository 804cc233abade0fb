//! Laws of the table of operations.

ghost use Rattle.std.specs.Prelude.{◌≡◌, ℕ, map as list_map};
ghost use Rattle.std.specs.declared.option.Option.TheVariants.{Some};
ghost use Rattle.dy_prims.specs.declared.operation.Operation.{Operation};
ghost use Rattle.dy_prims.specs.Operations.{numbered, operation_at};

/// The table of the operations is a function of their numbers.
pub fn operation_laws()
    // Each row is found by its number, so no number is that of two operations.
    ensures rows { list_map (λ row. operation_at row.0) numbered
        ≡ list_map (λ row. Some row.1) numbered }
    // Each operation has a number.
    ensures all { (operation : Operation) → (number : ℕ) × (operation_at number ≡ Some operation) }
{}
