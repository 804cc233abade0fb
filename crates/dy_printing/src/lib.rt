//! How values are printed: alone, in texts with directives, and in the line of an error.
#![tactic(auto)]

mod escape;
mod formatting;
mod laws;
mod printing;
mod unhandled;

pub use formatting::format_text;
pub use laws::printing_laws;
pub use printing::print;
pub use unhandled::{error_class, unhandled_line};
