//! What every part of the compiler speaks of: texts, names and tables of them, places, refusals,
//! ids and fuel.
#![tactic(auto)]

mod boxed;
mod class_order;
mod exports;
mod fault;
mod fuel;
mod ids;
mod items;
mod kind;
mod list;
mod name;
mod table;
mod text;

pub use boxed::Boxed;
pub use class_order::ClassOrder;
pub use exports::Exports;
pub use fault::{Fault, Place, Refusal, Stop};
pub use fuel::Fuel;
pub use ids::{BindingId, ClassId, DomainId, GenericId, MethodId, Ref, What};
pub use items::Items;
pub use kind::Kind;
pub use list::NameList;
pub use name::{Name, fold};
pub use table::NameTable;
pub use text::Text;
