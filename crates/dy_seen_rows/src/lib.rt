//! What other libraries see of the class rows and of the type constants of a library (DRM 4,
//! "Types", and 5, "Classes").
#![tactic(auto)]

mod classes;
mod places;
mod program;
mod types;

pub use classes::{classes_of, link_class_rows};
pub use places::Places;
pub use program::view_program;
pub use types::{link_named_types, named_types_of};
