//! Laws of the tables.

ghost use Rattle.std.specs.Prelude.{◌≡◌, ℕ};
ghost use Rattle.std.specs.declared.option.Option.TheVariants.{Some};
ghost use Rattle.dy_code.specs.declared.opcode.Opcode.{Opcode as Code};
ghost use Rattle.dy_code.specs.Opcodes.{number_of, opcode_at};

/// What holds of the numbers of operations.
pub fn code_laws()
    // Each operation is the one of its number, so no two have the same.
    ensures numbered { (opcode : Code) → opcode_at (number_of opcode) ≡ Some opcode }
{}
