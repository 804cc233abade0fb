//! Laws of precedence and of sorted methods.

ghost use Rattle.std.specs.Prelude.{◌≡◌, ◌⊎◌, ◌↔◌, ◌++◌, List, ◌∷◌};
ghost use Rattle.dy_base.specs.declared.ids.GenericId.{GenericId};
ghost use Rattle.dy_base.specs.declared.ids.MethodId.{MethodId};
ghost use Rattle.dy_term.specs.declared.types.DyType.{DyType};
ghost use Rattle.dy_term.specs.declared.types.Shape1.{Shape1};
ghost use Rattle.dy_term.specs.declared.rows.Program.{Program};
ghost use Rattle.dy_classes.specs.Lists.{In, Once, Sub};
ghost use Rattle.dy_order.specs.Methods.{methods_of};
ghost use Rattle.dy_order.specs.Precedence.{IsApplicable, IsEarlier, IsMoreSpecific, Precedes};
ghost use Rattle.dy_order.specs.Sorting.{IsFirst, IsSorted, Dispatched, SortedInto};

/// What holds of precedence, and of every list of sorted methods.
pub fn order_laws()
    // No two methods precede each other.
    ensures asymmetric { (program : Program) (args : List Shape1) (a b : MethodId)
        → Precedes program args a b → Precedes program args b a → ⊥ }
    // Of two unrelated classes the one that stands earlier is the more specific one.
    ensures earlier { (program : Program) (shape : Shape1) (type other : DyType)
        → IsEarlier program shape type other → IsMoreSpecific program shape type other }
    // There is one answer.
    ensures one { (program : Program) (generic : GenericId) (args : List Shape1)
        (first rest others left : List MethodId)
        → IsSorted program generic args first rest → IsSorted program generic args others left
        → (first ≡ others) × (rest ≡ left) }
    // The methods that are sorted do not hang on the order in which the methods stand.
    ensures any_order { (program : Program) (args : List Shape1)
        (ms ns first rest others left : List MethodId)
        → ((m : MethodId) → In m ms ↔ In m ns)
        → SortedInto (Precedes program args) ms first rest
        → SortedInto (Precedes program args) ns others left → first ≡ others }
    // The applicable methods are those that are taken and those that remain, each once.
    ensures whole { (program : Program) (generic : GenericId) (args : List Shape1)
        (first rest : List MethodId)
        → IsSorted program generic args first rest → (m : MethodId)
        → (In m (methods_of program) × IsApplicable program generic args m) ↔ In m (first ++ rest) }
    ensures once { (program : Program) (generic : GenericId) (args : List Shape1)
        (first rest : List MethodId)
        → IsSorted program generic args first rest → Once (first ++ rest) }
    // What remains is in the order of the program, and none of it precedes all others of it.
    ensures in_order { (program : Program) (generic : GenericId) (args : List Shape1)
        (first rest : List MethodId)
        → IsSorted program generic args first rest → Sub rest (methods_of program) }
    ensures none { (program : Program) (generic : GenericId) (args : List Shape1)
        (first rest : List MethodId)
        → IsSorted program generic args first rest → (m : MethodId)
        → IsFirst (Precedes program args) rest m → ⊥ }
    // A method that is not applicable, as one of another generic function, changes nothing.
    ensures others { (program : Program) (generic : GenericId) (args : List Shape1)
        (before after first rest : List MethodId) (m : MethodId)
        → (IsApplicable program generic args m → ⊥)
        → Dispatched (IsApplicable program generic args) (Precedes program args)
        (before ++ m ∷ after) first rest
        ↔ Dispatched (IsApplicable program generic args) (Precedes program args)
        (before ++ after) first rest }
{}
