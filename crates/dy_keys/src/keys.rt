//! Items as keys, which are the same where the items are.

ghost use Rattle.std.specs.Prelude.{◌≡◌, ◌↔◌, IsTrue};
ghost use Rattle.dy_values.specs.Identity.{is_same_binding};
ghost use Rattle.dy_lowered.specs.Sameness.{is_same_literal, is_same_params, is_same_type};
ghost use Rattle.dy_lowered.specs.Sameness.{is_same_results};
ghost use Rattle.dy_keys.specs.Fed as fed;
ghost use Rattle.dy_keys.specs.Keys.{literal_of, name_of, params_of, type_of, results_of};
ghost use Rattle.dy_sameness.proofs.Equivalence.{partial_equivalence, equivalence, alike};
ghost use Rattle.dy_sameness.proofs.Sameness.{tells_literal, tells_binding, tells_params};
ghost use Rattle.dy_sameness.proofs.Sameness.{tells_type, tells_results};

use crate::fed::{feed, feed_name, feed_number, feed_params, feed_results, feed_truth, feed_type};
use crate::literals::{is_number, is_same, is_truth};
use crate::types::{are_same_params, are_same_results, type_same};
use dy_base::BindingId;
use dy_term::{DyType, Literal, Params, Results};
use std::hash::{Hash, Hasher};

/// A literal.
#[derive(Clone, Copy)]
pub enum LiteralKey<'a> {
    /// One that is written in a program.
    Written(&'a Literal),
    /// `#t` or `#f`.
    Truth(bool),
    /// A number.
    Number(i64),
}

/// A name.
#[derive(Clone, Copy)]
pub struct NameKey(pub BindingId);

/// A parameter list.
#[derive(Clone, Copy)]
pub struct ParamsKey<'a>(pub &'a Params);

/// A type.
#[derive(Clone, Copy)]
pub struct TypeKey<'a>(pub &'a DyType);

/// A list of results.
#[derive(Clone, Copy)]
pub struct ResultsKey<'a>(pub &'a Results);

/// Whether two keys are of the same literal.
fn are_same(key: &LiteralKey, other: &LiteralKey) -> bool
    ensures { IsTrue result ↔ (literal_of key.now ≡ literal_of other.now) }
{
    match key {
        LiteralKey::Written(literal) => match other {
            LiteralKey::Written(same) => is_same(*literal, *same),
            LiteralKey::Truth(value) => is_truth(*literal, *value),
            LiteralKey::Number(value) => is_number(*literal, *value),
        },
        LiteralKey::Truth(value) => match other {
            LiteralKey::Written(literal) => is_truth(*literal, *value),
            LiteralKey::Truth(same) => *same == *value,
            LiteralKey::Number(_) => false,
        },
        LiteralKey::Number(value) => match other {
            LiteralKey::Written(literal) => is_number(*literal, *value),
            LiteralKey::Truth(_) => false,
            LiteralKey::Number(same) => *same == *value,
        },
    }
}

impl<'a> PartialEq for LiteralKey<'a> {
    ghost eq = { λ key other. is_same_literal (literal_of key) (literal_of other) };

    ghost laws = { partial_equivalence is_same_literal tells_literal literal_of };

    fn eq(&self, other: &Self) -> bool {
        are_same(self, other)
    }
}

impl<'a> Eq for LiteralKey<'a> {
    ghost laws = { equivalence is_same_literal tells_literal literal_of };
}

impl<'a> Hash for LiteralKey<'a> {
    ghost hash_input = { λ key. fed.literal (literal_of key) };

    ghost respects_eq = { alike is_same_literal tells_literal literal_of fed.literal };

    fn hash<H: Hasher>(&self, state: &mut H) {
        match self {
            LiteralKey::Written(literal) => feed(*literal, state),
            LiteralKey::Truth(value) => feed_truth(*value, state),
            LiteralKey::Number(value) => feed_number(*value, state),
        }
    }
}

fn are_same_names(key: BindingId, other: BindingId) -> bool
    ensures { IsTrue result ↔ (key ≡ other) }
{
    key == other
}

impl PartialEq for NameKey {
    ghost eq = { λ key other. is_same_binding (name_of key) (name_of other) };

    ghost laws = { partial_equivalence is_same_binding tells_binding name_of };

    fn eq(&self, other: &Self) -> bool {
        are_same_names(self.0, other.0)
    }
}

impl Eq for NameKey {
    ghost laws = { equivalence is_same_binding tells_binding name_of };
}

impl Hash for NameKey {
    ghost hash_input = { λ key. fed.name (name_of key) };

    ghost respects_eq = { alike is_same_binding tells_binding name_of fed.name };

    fn hash<H: Hasher>(&self, state: &mut H) {
        feed_name(self.0, state);
    }
}

impl<'a> PartialEq for ParamsKey<'a> {
    ghost eq = { λ key other. is_same_params (params_of key) (params_of other) };

    ghost laws = { partial_equivalence is_same_params tells_params params_of };

    fn eq(&self, other: &Self) -> bool {
        are_same_params(self.0, other.0)
    }
}

impl<'a> Eq for ParamsKey<'a> {
    ghost laws = { equivalence is_same_params tells_params params_of };
}

impl<'a> Hash for ParamsKey<'a> {
    ghost hash_input = { λ key. fed.params (params_of key) };

    ghost respects_eq = { alike is_same_params tells_params params_of fed.params };

    fn hash<H: Hasher>(&self, state: &mut H) {
        feed_params(self.0, state);
    }
}

impl<'a> PartialEq for TypeKey<'a> {
    ghost eq = { λ key other. is_same_type (type_of key) (type_of other) };

    ghost laws = { partial_equivalence is_same_type tells_type type_of };

    fn eq(&self, other: &Self) -> bool {
        type_same(self.0, other.0)
    }
}

impl<'a> Eq for TypeKey<'a> {
    ghost laws = { equivalence is_same_type tells_type type_of };
}

impl<'a> Hash for TypeKey<'a> {
    ghost hash_input = { λ key. fed.declared_type (type_of key) };

    ghost respects_eq = { alike is_same_type tells_type type_of fed.declared_type };

    fn hash<H: Hasher>(&self, state: &mut H) {
        feed_type(self.0, state);
    }
}

impl<'a> PartialEq for ResultsKey<'a> {
    ghost eq = { λ key other. is_same_results (results_of key) (results_of other) };

    ghost laws = { partial_equivalence is_same_results tells_results results_of };

    fn eq(&self, other: &Self) -> bool {
        are_same_results(self.0, other.0)
    }
}

impl<'a> Eq for ResultsKey<'a> {
    ghost laws = { equivalence is_same_results tells_results results_of };
}

impl<'a> Hash for ResultsKey<'a> {
    ghost hash_input = { λ key. fed.results (results_of key) };

    ghost respects_eq = { alike is_same_results tells_results results_of fed.results };

    fn hash<H: Hasher>(&self, state: &mut H) {
        feed_results(self.0, state);
    }
}
