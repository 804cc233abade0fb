//! The steps of resolution that no draft of a term is needed for: names by their meanings, locals
//! that come into force, types and parameters, and the first fault.
#![tactic(auto)]

mod bound;
mod literals;
mod names;
mod progress;
mod types;

pub use bound::{
    bind_kept, bind_methods, bind_name, bind_params, bind_some, bind_standing, bind_typed,
    bind_variables, count, number_behind, number_catches, number_of,
};
pub use literals::copy_literal;
pub use names::{Head, assignment, check_place, head_of, hidden_term, is_next, name_term};
pub use progress::{Apart, Progress, take_numbers, tell_name, tell_place, tell_some};
pub use types::{
    KeyRead, key_types, read_list, read_numbered, read_required, read_results, read_type, shape_of,
    type_or,
};
