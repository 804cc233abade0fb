//! What the code of terms is made of, and how it is put together.
#![tactic(auto)]

mod buffer;
mod calls;
mod closures;
mod flat;
mod items;
mod jumps;
mod loops;
mod names;
mod places;
mod refusal;
mod selecting;

pub use buffer::{Buffer, count};
pub use calls::{put_known_call, put_operation, put_search, put_value_call};
pub use closures::{put_method, put_methods};
pub use flat::Flat;
pub use items::put_body_end;
pub use jumps::{put_first_alone, put_jump, put_test};
pub use loops::{put_loop_end, put_loop_test};
pub use names::{class_named, function_named, generic_named};
pub use places::{assigned, places_of, put_bound, put_cell, put_cells, put_local, read, rest_of};
pub use refusal::Refusal;
pub use selecting::{Comparing, put_again, put_away, put_comparison, put_restored};
