//! The law of renaming.

ghost use Rattle.std.specs.Prelude.{ℕ};
ghost use Rattle.dy_names.specs.Outside.{Outside};
ghost use Rattle.dy_renaming.specs.Renaming.{TermsAlike, LambdasAlike};

/// Where the origins of all tokens are changed, those that differ to others that differ, a draft
/// has the same term, the same numbers and the same first fault, if the owners and types outside
/// are the same.
pub fn renaming_law()
    // A term that stands by itself.
    ensures terms { (out : Outside) (rename : ℕ → ℕ) → TermsAlike out rename }
    // The lambda of a row.
    ensures lambdas { (out : Outside) (rename : ℕ → ℕ) → LambdasAlike out rename }
{}
