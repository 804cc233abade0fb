//! What the first construct that has not come says of all that a form holds.

ghost use Rattle.std.specs.Prelude.{◌≡◌, true, false, Some, None};
ghost use Rattle.dy_rules.specs.Forms.{FormTree};
ghost use Rattle.dy_construct_parts.specs.declared.construct.Construct.{Construct};
ghost use Rattle.dy_construct_parts.specs.Table.{first_absent, has_come};
ghost use Rattle.dy_constructs.specs.Forms.{Holds, in_form};

/// What holds of the first construct of a form that has not come.
pub fn construct_laws()
    // The form holds it, and it has not come.
    ensures holds { (construct : Construct) (form : FormTree) → first_absent (in_form form)
        ≡ Some construct → Holds construct form }
    ensures absent { (construct : Construct) (form : FormTree) → first_absent (in_form form)
        ≡ Some construct → has_come construct ≡ false }
    // Where there is none, all that the form holds has come.
    ensures none { (construct : Construct) (form : FormTree) → first_absent (in_form form) ≡ None
        → Holds construct form → has_come construct ≡ true }
{}
