//! Laws of types.

ghost use Rattle.std.specs.Prelude.{◌↔◌, ℕ, ℤ, List, Any};
ghost use Rattle.dy_term.specs.declared.literal.Literal.TheVariants as literals;
ghost use Rattle.dy_term.specs.declared.types.DyType.{DyType};
ghost use Rattle.dy_term.specs.declared.types.Member.{Member};
ghost use Rattle.dy_term.specs.declared.types.Member.TheVariants as members;
ghost use Rattle.dy_term.specs.declared.types.Shape1.{Shape1};
ghost use Rattle.dy_term.specs.declared.rows.Program.{Program};
ghost use Rattle.dy_types.specs.Members.{IsBetween, IsBelow, IsInstanceOf, CanMeet};
ghost use Rattle.dy_types.specs.Types.{IsInstance, IsSubtype, Meet};
ghost use Rattle.dy_types.specs.Common.{HaveCommon};
ghost use Rattle.dy_types.specs.Laws.{AreOrdersClosed, IsFilled, AreFilled, IsArgument};
ghost use Rattle.dy_types.specs.Laws.{number_shape};

/// What holds of types in each program. Where a class counts as above another through a third, the
/// orders of the program's classes list what is listed in the orders of those that they list.
pub fn type_laws()
    // A type is a subtype of itself.
    ensures reflexive { (program : Program) (type : DyType) → IsSubtype program type type }
    // A subtype of a subtype is one, where the ranges hold numbers.
    ensures transitive { (program : Program) (lower type upper : DyType)
        → AreOrdersClosed program → AreFilled lower
        → IsSubtype program lower type → IsSubtype program type upper
        → IsSubtype program lower upper }
    // An instance of a type is one of each supertype.
    ensures instances { (program : Program) (shape : Shape1) (type upper : DyType)
        → AreOrdersClosed program → IsArgument shape
        → IsSubtype program type upper → IsInstance program shape type
        → IsInstance program shape upper }
    // Types with a common instance meet.
    ensures meeting { (program : Program) (shape : Shape1) (type other : DyType)
        → IsArgument shape → IsInstance program shape type → IsInstance program shape other
        → Meet program type other }
    ensures symmetric { (program : Program) (type other : DyType)
        → Meet program type other → Meet program other type }
    // Two members can meet exactly where a class of the program, a single value or one of the two
    // lies below both.
    ensures common { (program : Program) (member other : Member)
        → IsFilled member → IsFilled other
        → CanMeet program member other ↔ HaveCommon program member other }
    // No number lies in a range and outside of what is above the range.
    ensures numbers { (program : Program) (number least greatest : ℤ) (type : DyType)
        → IsBetween least greatest number
        → Any (IsBelow program (members.Range least greatest)) type.members
        → IsInstance program (number_shape number) type }
    // No argument is an instance of the type of one string.
    ensures strings { (program : Program) (shape : Shape1) (text : List ℕ)
        → IsArgument shape → IsInstanceOf program shape (members.Single (literals.Str text)) → ⊥ }
{}
