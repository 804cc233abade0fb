//! Types, parameters and results (DRM 4, "Types"; DRM 6, "Parameter lists").

use crate::literal::Literal;
use dy_base::{ClassId, Items, Name};

/// One of the parts that a type is the union of.
#[derive(Debug, Drop)]
pub enum Member {
    /// The instances of a class.
    Class(ClassId),
    /// What is `==` to a literal.
    Single(Literal),
    /// A class itself.
    SingleClass(ClassId),
    /// The integers from the first to the second.
    Range(i64, i64),
}

/// A type: the union of its members, of which there are 1 to 16.
#[derive(Debug, Drop)]
pub struct DyType {
    pub members: Items<Member>,
}

/// What dispatch sees of an argument (DRM 6, "Method Dispatch").
#[derive(Debug, Drop)]
pub struct Shape1 {
    /// Its direct class.
    pub class: ClassId,
    /// The argument itself, where it is a number, a character, a symbol, a boolean, `#()` or a
    /// class. Each is an instance of `class` then.
    pub single: Option<Member>,
}

/// The shape of a parameter list.
#[derive(Debug, Drop)]
pub struct Params {
    /// The types of the required parameters.
    pub required: Items<DyType>,
    /// Whether further arguments are taken.
    pub rest: bool,
    /// The keywords, where `#key` is written.
    pub keys: Option<Items<Name>>,
    /// Whether every keyword is taken.
    pub all_keys: bool,
}

/// The types of the values that are returned.
#[derive(Debug, Drop)]
pub struct Results {
    pub required: Items<DyType>,
    /// The type of further values, where there may be some.
    pub rest: Option<DyType>,
}
