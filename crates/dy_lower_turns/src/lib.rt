//! What the code of a `for` is made of beside that of its terms, and how it is put together.
#![tactic(auto)]

mod bounds;
mod clauses;
mod counters;
mod counting;
mod ends;
mod leaving;
mod operands;
mod operations;
mod overflows;

pub use clauses::{all_operands, operands_of, put_bindings, put_tests};
pub use counters::{put_advancing, put_counted_turn, put_raised_for};
pub use counting::{Counting, counting_of, hidden, known_limit, known_step, number_of};
pub use ends::{Ends, put_counted_end, put_turns_end};
pub use leaving::put_leaving;
pub use operands::{minus, plus, put_renewed};
pub use operations::put_checked;
pub use overflows::put_counting_on;
