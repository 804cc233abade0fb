//! The definitions of a library: what its names are, and which definitions are one too many (DRM
//! 10).
#![tactic(auto)]

mod counting;
mod defined;
mod definitions;
mod meanings;
mod owned;
mod redefined;
mod tally;

pub use counting::{count, tally_at};
pub use defined::Defined;
pub use definitions::{Definition, Role};
pub use meanings::RowCounts;
pub use owned::{MeaningTable, TallyTable};
pub use tally::{Tally, is_generic, is_method};
