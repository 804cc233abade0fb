//! Laws of flat code.

ghost use Rattle.std.specs.Prelude.{◌≡◌, ℕ, ◌+◌, ◌++◌, length};
ghost use Rattle.dy_term.specs.declared.rows.LibraryRow.{LibraryRow};
ghost use Rattle.dy_term.specs.declared.rows.Program.{Program};
ghost use Rattle.dy_code.specs.declared.unit.UnitCode.{UnitCode};
ghost use Rattle.dy_lowered.specs.Flat.{Code, placed_from};
ghost use Rattle.dy_lowered.specs.Linking.{linked_code};
ghost use Rattle.dy_lowered.specs.Once.{HoldsOnce};
ghost use Rattle.dy_lowered.specs.Units.{lowered};

/// What holds of code wherever it stands.
pub fn lowered_laws()
    // Code behind other code stands behind its place.
    ensures joined { (place : ℕ) (first others : Code)
        → placed_from place (first ++ others)
        ≡ placed_from place first ++ placed_from (place + length first) others }
    // No list of a unit holds an item twice.
    ensures once { (view : Program) (library : LibraryRow) → HoldsOnce (lowered view library) }
    // Linking leaves the instructions of all bodies as they are.
    ensures bodies { (places : ℕ → ℕ) (unit : UnitCode)
        → (linked_code places unit).bodies ≡ unit.bodies }
{}
