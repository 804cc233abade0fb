//! The class precedence order, and which classes are legal (DRM 5, "Classes").
#![tactic(auto)]

mod counts;
mod cyclic;
mod faults;
mod legal;
mod merge;
mod order;
mod rows;

pub use legal::check_class;
pub use order::{class_order, order_laws};
