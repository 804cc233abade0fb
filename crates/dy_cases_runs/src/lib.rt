//! What tests of runs share: how a run is shown.
#![tactic(auto)]

mod runs;

pub use runs::add_run;
