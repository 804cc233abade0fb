//! Drafts of what leads back to no expression, and drafts that are put together from the drafts of
//! their parts.
#![tactic(auto)]

mod constants;
mod literal;
mod names;
mod operators;
mod parameters;
mod places;
mod statements;
mod types;
mod variables;

pub use constants::{list_of, vector_of};
pub use literal::{integer_of, keyword_of, literal_of};
pub use names::{copy_all, copy_maybe, has, name_at, setter_at};
pub use operators::{call_named, element, logical, member, operation, unary};
pub use parameters::{key_of, required_of, results_of};
pub use places::{set_element, set_member, setting, with_rest};
pub use statements::{
    choose, false_draft, first_or_false, limit_of, true_draft, unless_draft, until_draft,
    while_draft,
};
pub use types::{declared_or, type_of};
pub use variables::{declared_of, locals_of, rest_of, typed_of};
