//! The grammar both ways: fragments are read as forms (`parse`), and forms are written as fragments
//! (`unparse`).
#![tactic(auto)]

mod laws;
mod unparsing;

pub use dy_reader::parse;
pub use laws::round_trip_laws;
pub use unparsing::unparse;
