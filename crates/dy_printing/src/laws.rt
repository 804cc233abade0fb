//! Laws of printing.

ghost use Rattle.std.specs.Prelude.{◌≡◌, ◌+◌, ◌≤◌, ℕ, List, Bool};
ghost use Rattle.std.specs.declared.option.Option.TheVariants.{None};
ghost use Rattle.dy_term.specs.declared.rows.Program.{Program};
ghost use Rattle.dy_values.specs.declared.value.Variant.{Variant};
ghost use Rattle.dy_values.specs.declared.store.Store.{Store};
ghost use Rattle.dy_printing.specs.declared.formatting.Part.{Part};
ghost use Rattle.dy_printing.specs.Printing.{Text, printed};
ghost use Rattle.dy_values.specs.Objects.{vector_at, pair_at};
ghost use Rattle.dy_printing.specs.Formatting.{first_error, filled, fields};

/// What printing costs.
pub fn printing_laws()
    // A value that is no vector and no pair costs one unit.
    ensures alone { (program : Program) (store : Store) (escaped : Bool) (value : Variant)
        (units : ℕ) (text : List ℕ) (left : ℕ)
        → vector_at store value ≡ None → pair_at store value ≡ None
        → printed program store escaped value units ≡ Text text left → units ≡ 1 + left }
    // Every value costs a unit at least.
    ensures values { (program : Program) (store : Store) (escaped : Bool) (value : Variant)
        (units : ℕ) (text : List ℕ) (left : ℕ)
        → printed program store escaped value units ≡ Text text left → 1 + left ≤ units }
    // A text without errors costs a unit for each of its directives at least.
    ensures texts { (program : Program) (store : Store) (parts : List Part)
        (arguments : List Variant) (units : ℕ) (text : List ℕ) (left : ℕ)
        → first_error parts arguments ≡ None
        → filled program store parts arguments units ≡ Text text left
        → fields parts + left ≤ units }
{}
