//! The choice between what is in force and what is outside.

ghost use Rattle.std.specs.Prelude.{◌≡◌, IfOk};
ghost use Rattle.dy_term.specs.declared.draft.Local.TheVariants.{Hidden};
ghost use Rattle.dy_names.specs.Naming.{innermost, means};

use crate::denotation::{Denotation, Meaning};
use crate::environment::Environment;
use crate::scope::Scope;
use dy_tree::Token;
use std::alloc::{AllocError, Global};

/// What a name means where these locals are in force: the innermost of them with its text and its
/// origin, else its owner (DRM 4, "Bindings"). The one error is want of memory.
#[tactic(auto, unfolding(crate::specs::Naming::means))]
pub fn meaning<E: Environment>(
    alloc: Global,
    environment: &E,
    scope: &Scope,
    name: &Token,
) -> Result<Meaning, AllocError>
    ensures { IfOk result (λ meaning. meaning
        ≡ means (E.outside environment.now).owner scope.now name.now) }
{
    match scope.find(alloc, name)? {
        Some(denotation) => Ok(Meaning::InForce(denotation)),
        None => match environment.owner(alloc, name)? {
            Some(owner) => Ok(Meaning::Owned(owner)),
            None => Ok(Meaning::Unbound),
        },
    }
}

/// What a hidden local of this number stands for: the innermost one.
pub fn hidden_meaning(scope: &Scope, number: usize) -> Option<Denotation>
    ensures { result ≡ innermost scope.now (Hidden number) }
{
    scope.find_hidden(number)
}
