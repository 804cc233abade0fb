//! What is told of forms that were read.

ghost use Rattle.std.specs.Prelude.{◌≡◌, IfOk};
ghost use Rattle.dy_tree.specs.Fragments.{seen_fragments};
ghost use Rattle.dy_rules.specs.Parsing.{parsed};
ghost use Rattle.dy_reader.specs.Told.{seen_parsed, told_of};

use dy_read_forms::{FormRead, form};
use dy_tree::{Form, Fragment};
use std::alloc::{AllocError, Global};

/// What is told of the fragments of a form.
#[derive(Drop)]
pub(crate) enum Parsed {
    /// The form that they stand for.
    Accepted(Form),
    /// They stand for a form that is deeper than the limit.
    TooDeep,
    /// They stand for no form.
    NoForm,
}

/// The form that was read, where it is within the limit.
fn told_of(found: Option<FormRead>) -> Parsed
    ensures { seen_parsed result ≡ told_of found }
{
    match found {
        Some(found) => {
            if found.is_deep {
                Parsed::TooDeep
            } else {
                Parsed::Accepted(found.form)
            }
        }
        None => Parsed::NoForm,
    }
}

/// What is told of the fragments of a form.
#[tactic(auto, using(crate::proofs::Told::told_same))]
pub(crate) fn parse_form(alloc: Global, fragments: &[Fragment]) -> Result<Parsed, AllocError>
    ensures { IfOk result (λ told. seen_parsed told ≡ parsed (seen_fragments fragments.now)) }
{
    Ok(told_of(form(alloc, fragments)?))
}
