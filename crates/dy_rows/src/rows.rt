//! What is answered of a form.

ghost use Rattle.std.specs.Prelude.{◌≡◌, [], IfOk, OnOk};
ghost use Rattle.dy_term.specs.Rows.{seen_draft};
ghost use Rattle.dy_binding.specs.Reads.{none};
ghost use Rattle.dy_rows.specs.Rows.{read_draft, IsAnswer};

use crate::classes::class_rows;
use crate::forms::{domain_rows, generic_rows, method_rows, top_rows, variable_rows};
use dy_base::{Items, Refusal};
use dy_binding::Progress;
use dy_names::{Environment, Scope};
use dy_term::{Draft, Row};
use std::alloc::{AllocError, Global};

fn draft_rows<E: Environment>(
    alloc: Global,
    environment: &E,
    draft: &Draft,
    scope: &mut Scope,
    progress: &mut Progress,
) -> Result<Items<Row>, AllocError>
    ensures rows { IfOk result
        (λ found. found ≡ (read_draft (E.outside environment.now)
        (seen_draft draft.now) scope.old progress.old).0) }
    ensures after { OnOk result
        (progress.new ≡ (read_draft (E.outside environment.now)
        (seen_draft draft.now) scope.old progress.old).1) }
{
    match draft {
        Draft::Class(class) => class_rows(alloc, environment, class, scope, progress),
        Draft::Generic(generic) => generic_rows(alloc, environment, generic, scope, progress),
        Draft::Method(method) => method_rows(alloc, environment, method, scope, progress),
        Draft::Domain(domain) => domain_rows(alloc, environment, domain, scope, progress),
        Draft::Variable(variable) => variable_rows(alloc, environment, variable, scope, progress),
        Draft::Top(top) => top_rows(alloc, environment, top, scope, progress),
    }
}

/// The rows of a form, with their names resolved and their locals numbered; or the first fault:
/// `Unbound` at a name without a binding and at that of a method or a domain that names no generic
/// function, `NotAssignable` at what is assigned and is no variable and no local, `NotAType` at a
/// superclass that is no class, and what is wrong with a type. The first is the one at the earliest
/// place, then of the smaller kind, then in front. Nothing is kept of a form that is refused.
pub fn resolve<E: Environment>(
    alloc: Global,
    environment: &E,
    draft: &Draft,
) -> Result<Items<Row>, Refusal>
    ensures { IsAnswer (read_draft (E.outside environment.now) (seen_draft draft.now) [] none)
        result }
{
    let mut scope = Scope::new(alloc);
    let mut progress = Progress {
        next: 0,
        first: None,
    };
    match draft_rows(alloc, environment, draft, &mut scope, &mut progress) {
        Err(_) => Err(Refusal::Memory),
        Ok(rows) => {
            let Progress { next: _, first } = progress;
            match first {
                None => Ok(rows),
                Some(fault) => Err(Refusal::Fault(fault)),
            }
        }
    }
}
