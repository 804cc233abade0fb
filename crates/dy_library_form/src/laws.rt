//! The fault that is told is told before all others, and it is the only one.

ghost use Rattle.std.specs.Prelude.{◌≡◌, List, Option};
ghost use Rattle.dy_library_form.specs.declared.found.Found.{Found};
ghost use Rattle.dy_library_form.specs.Told.{first, IsTold};

/// Of some faults the one that is told is one of them, and no other is told before it.
pub fn first_is_told()
    ensures { (list : List Found) → IsTold list (first list) }
{}

/// And this determines it.
pub fn one_is_told()
    ensures { (list : List Found) → (a b : Option Found) → IsTold list a → IsTold list b → a ≡ b }
{}
