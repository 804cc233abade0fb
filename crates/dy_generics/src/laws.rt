//! Laws of generic functions.

ghost use Rattle.std.specs.Prelude.{◌≡◌, ℕ, List, All, Some, ◌++◌, ◌∷◌};
ghost use Rattle.dy_base.specs.declared.ids.MethodId.{MethodId};
ghost use Rattle.dy_term.specs.declared.rows.MethodRow.{MethodRow};
ghost use Rattle.dy_term.specs.declared.rows.Program.{Program};
ghost use Rattle.dy_term.specs.declared.types.DyType.{DyType};
ghost use Rattle.dy_types.specs.Types.{IsSubtype};
ghost use Rattle.dy_classes.specs.Lists.{In};
ghost use Rattle.dy_order.specs.Methods.{methods_of};
ghost use Rattle.dy_generics.specs.Congruence.{AllHold, method_tests};
ghost use Rattle.dy_generics.specs.Duplicates.{AreDuplicates, earlier};
ghost use Rattle.dy_generics.specs.Implicit.{implicit_row, object_type};

/// What holds of implicit generic functions and of duplicates.
pub fn generic_laws()
    // A method whose types are subtypes of `<object>` is congruent with the generic function that
    // it makes.
    ensures implicit { (program : Program) (method : MethodRow) (name : List ℕ)
        → All (λ type. IsSubtype program type object_type) method.params.required
        → All (λ type. IsSubtype program type object_type) method.results.required
        → ((type : DyType) → method.results.rest ≡ Some type
        → IsSubtype program type object_type)
        → AllHold program (method_tests method (implicit_row name method.params)) }
    // The methods before a method of the program are those before it in the list of all.
    ensures earlier { (program : Program) (method : MethodId) → In method (methods_of program)
        → (after : List MethodId)
        × (methods_of program ≡ earlier program method ++ method ∷ after) }
    // A duplicate of a method has it as a duplicate.
    ensures symmetric { (program : Program) (method other : MethodId)
        → AreDuplicates program method other → AreDuplicates program other method }
{}
