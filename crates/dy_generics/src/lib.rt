//! Generic functions: congruence of methods, implicit generic functions, duplicate methods (DRM 6).
#![tactic(auto)]

mod congruence;
mod duplicates;
mod implicits;
mod laws;
mod misfit;
mod rows;
mod tested;

pub use congruence::{congruent, congruent_domain};
pub use duplicates::duplicate;
pub use implicits::{implicit, plain_generic};
pub use laws::generic_laws;
pub use misfit::{Kinds, Misfit, Reason};
