//! Names, which ignore the case of ASCII letters.

ghost use Rattle.std.specs.Prelude.{◌≡◌, ◌↔◌, ℕ, List, IfOk};
ghost use Rattle.dy_base.specs.Folding.{folded, SameButForCase};

use std::alloc::{AllocError, Global};
use std::marker::Model;

/// A name, folded: its ASCII letters are in lower case.
#[derive(Clone, Debug, Drop)]
pub struct Name {
    bytes: Vec<u8>,
}

impl Model for Name {
    ghost use Rattle.std.specs.Prelude.{List, ℕ, ◌≡◌};
    ghost use Rattle.dy_base.specs.Folding.{folded};

    ghost Value = { List ℕ };

    ghost view = { λ name. name.bytes.items };

    ghost invariant = { λ name. folded name.bytes.items ≡ name.bytes.items };
}

impl Name {
    /// The bytes of the name, in lower case.
    pub fn bytes(&self) -> &[u8]
        ensures bytes { result.now ≡ self.now }
        ensures folded { folded self.now ≡ self.now }
    {
        self.bytes.as_slice()
    }
}

fn lower_case(alloc: Global, bytes: &[u8]) -> Result<Vec<u8>, AllocError>
    ensures { IfOk result (λ lower. lower.items ≡ folded bytes.now) }
{
    bytes
        .iter()
        .map(|byte| byte.to_ascii_lowercase())
        .collect(alloc)
}

/// The name that these bytes spell. Two spellings give one name exactly where they differ in the
/// case of ASCII letters only (DRM 2, "Names").
pub fn fold(alloc: Global, bytes: &[u8]) -> Result<Name, AllocError>
    ensures folded { IfOk result (λ name. name ≡ folded bytes.now) }
    ensures same { (other : List ℕ) → (folded bytes.now ≡ folded other)
        ↔ SameButForCase bytes.now other }
{
    Ok(Name {
        bytes: lower_case(alloc, bytes)?,
    })
}
