//! Laws of names.

ghost use Rattle.std.specs.Prelude.{◌≡◌, ◌↔◌, Some, None};
ghost use Rattle.dy_term.specs.declared.draft.Local.{Local};
ghost use Rattle.dy_names.specs.declared.denotation.Denotation.{Denotation};
ghost use Rattle.dy_names.specs.Naming.{Locals, Table, innermost};
ghost use Rattle.dy_names.specs.Places.{IsInnermost, AreOthers, StaysWhereOthersAreRenamed};
ghost use Rattle.dy_names.specs.Places.{KeepsOrigin};

/// What holds of names whatever is in force and whatever the table has.
pub fn naming_laws()
    // The local that is found has the name, and none further inside has it; and there is no other
    // such.
    ensures found { (locals : Locals) (name : Local) (denotation : Denotation)
        → (innermost locals name ≡ Some denotation) ↔ IsInnermost locals name denotation }
    // None is found exactly where none has the name.
    ensures none { (locals : Locals) (name : Local) → (innermost locals name ≡ None)
        ↔ AreOthers locals name }
    // A name means the same when a local that it is not, before and after, gets another name or
    // origin.
    ensures renamed { (table : Table) → StaysWhereOthersAreRenamed table }
    // A name never means a local of another origin or of another text.
    ensures origin { KeepsOrigin }
{}
