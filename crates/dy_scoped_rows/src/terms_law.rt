//! The law of terms that are read.

ghost use Rattle.dy_names.specs.Outside.{Outside};
ghost use Rattle.dy_scoped_rows.specs.terms.Scoped.{TermsInScope, LambdasInScope};

/// What is read of a draft with which nothing is wrong is in scope, as far as it is lowered yet,
/// whatever is outside.
pub fn scoped_laws()
    // A term that runs by itself.
    ensures terms { (out : Outside) → TermsInScope out }
    // The lambda of a row.
    ensures lambdas { (out : Outside) → LambdasInScope out }
{}
