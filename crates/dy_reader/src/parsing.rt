//! Forms are parsed.

ghost use Rattle.std.specs.Prelude.{◌≡◌};
ghost use Rattle.dy_base.specs.declared.kind.Kind.TheVariants.{Syntax, TooDeep};
ghost use Rattle.dy_tree.specs.Fragments.{seen_fragments};
ghost use Rattle.dy_rules.specs.Parsing.{no_form, too_deep};
ghost use Rattle.dy_reader.specs.Answers as spec;
ghost use Rattle.dy_reader.specs.Answers.{fault_of, Accepts, RefusesFor};

use crate::parsed::{Parsed, parse_form};
use dy_base::{Fault, Items, Kind, Place, Refusal, Text};
use dy_tree::{Form, Fragment};
use std::alloc::Global;

/// Where the first token stands.
fn first_place(fragments: &[Fragment]) -> Option<Place>
    ensures { result ≡ spec.first_place (seen_fragments fragments.now) }
{
    match fragments.first() {
        Some(Fragment::One(token)) => Some(token.place),
        Some(Fragment::Group { opener, .. }) => Some(opener.place),
        None => None,
    }
}

/// A fault at the first token.
fn refusal(alloc: Global, kind: Kind, fragments: &[Fragment]) -> Refusal
    ensures { result ≡ Refusal.Fault (fault_of kind (seen_fragments fragments.now)) }
{
    Refusal::Fault(Fault {
        kind,
        library: Text::from_vec(Vec::new(alloc)),
        place: first_place(fragments),
        shown: Items::new(alloc),
        numbers: Items::new(alloc),
    })
}

/// The form that fragments stand for (DRM, appendix A). The fragments are those of one form of a
/// file, without the semicolon behind it.
///
/// A refusal has the place of the first token, or none where there is no token: `Syntax` where the
/// fragments stand for no form, and `TooDeep` where they stand for one that is more than 200 deep.
/// The limit counts the tree alone: brackets around an expression make it no deeper. Or the refusal
/// says that memory did not suffice.
#[tactic(auto, using(crate::proofs::Answers::memory_accepts, crate::proofs::Answers::memory_refuses, crate::proofs::Answers::form_accepts, crate::proofs::Answers::form_syntax, crate::proofs::Answers::form_deep, crate::proofs::Answers::deep_accepts, crate::proofs::Answers::deep_syntax, crate::proofs::Answers::deep_deep, crate::proofs::Answers::none_accepts, crate::proofs::Answers::none_syntax, crate::proofs::Answers::none_deep))]
pub fn parse(alloc: Global, form: &Vec<Fragment>) -> Result<Form, Refusal>
    // What is given is the form that the fragments stand for, within the limit.
    ensures accepts { Accepts (seen_fragments form.now.items) result }
    // Fragments that stand for no form.
    ensures syntax { RefusesFor no_form Syntax (seen_fragments form.now.items) result }
    // Fragments that stand for a form beyond the limit.
    ensures deep { RefusesFor too_deep TooDeep (seen_fragments form.now.items) result }
{
    match parse_form(alloc, form.as_slice())? {
        Parsed::Accepted(form) => Ok(form),
        Parsed::TooDeep => Err(refusal(alloc, Kind::TooDeep, form.as_slice())),
        Parsed::NoForm => Err(refusal(alloc, Kind::Syntax, form.as_slice())),
    }
}
