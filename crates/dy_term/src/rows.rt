//! The rows of a library, and programs (DRM 5 and 6).

use crate::term::{Lambda, Term};
use crate::types::{DyType, Params, Results};
use dy_base::{BindingId, ClassId, ClassOrder, GenericId, Items, Name};

/// A class.
#[derive(Drop)]
pub struct ClassRow {
    pub name: Name,
    /// The direct superclasses.
    pub supers: Items<ClassId>,
    /// The class precedence order, which begins with the class.
    pub order: ClassOrder,
    pub is_open: bool,
    pub is_abstract: bool,
    pub is_primary: bool,
    pub slots: Items<SlotRow>,
}

/// A slot of a class.
#[derive(Drop)]
pub struct SlotRow {
    pub getter: GenericId,
    pub setter: Option<GenericId>,
    pub kind: SlotKind,
    pub slot_type: DyType,
    /// The init keyword, and whether it is required.
    pub keyword: Option<Name>,
    pub required: bool,
    pub init: Option<Init>,
}

/// Where a slot's value stands (DRM 5, "Slots").
#[derive(Clone, Copy, Debug, PartialEq, Eq)]
pub enum SlotKind {
    /// In each instance.
    Instance,
    /// In one cell.
    Shared,
    /// In one cell for each class at or below the slot's class.
    EachSubclass,
    /// Nowhere.
    Virtual,
}

/// What a slot is filled with.
#[derive(Drop)]
pub enum Init {
    /// What the term gives each time.
    Each(Term),
    /// What a call of what the term gives returns each time.
    Calling(Term),
}

/// A generic function.
#[derive(Debug, Drop)]
pub struct GenericRow {
    pub name: Name,
    pub is_open: bool,
    pub params: Params,
    pub results: Results,
}

/// A method of a generic function.
#[derive(Drop)]
pub struct MethodRow {
    pub generic: GenericId,
    pub params: Params,
    pub results: Results,
    pub code: MethodCode,
}

/// What a method does.
#[derive(Drop)]
pub enum MethodCode {
    Dylan(Lambda),
    /// It reads the slot of this place in a class.
    Getter(ClassId, u32),
    /// It writes the slot of this place in a class.
    Setter(ClassId, u32),
    /// A built-in operation, by its number.
    Builtin(u16),
}

/// A sealed domain of a generic function, and the result that is known of it.
#[derive(Debug, Drop)]
pub struct DomainRow {
    pub generic: GenericId,
    pub types: Items<DyType>,
    pub result: Option<DyType>,
}

/// A variable, a constant or a function.
#[derive(Drop)]
pub struct VariableRow {
    pub name: Name,
    pub declared: DyType,
    pub is_constant: bool,
    pub function: Option<Lambda>,
    /// The type that a type constant stands for.
    pub named: Option<DyType>,
    /// The number of the built-in operation that a built-in function is. It has no lambda then.
    pub builtin: Option<u16>,
}

/// A form that runs when its library is loaded.
#[derive(Drop)]
pub enum TopTerm {
    /// The bindings that take the values of the term.
    Init(Items<BindingId>, Term),
    Run(Term),
}

/// A row of a library, or a form that runs.
#[derive(Drop)]
pub enum Row {
    Class(ClassRow),
    Generic(GenericRow),
    Method(MethodRow),
    Domain(DomainRow),
    Variable(VariableRow),
    Top(TopTerm),
}

/// What a library holds.
#[derive(Drop)]
pub struct LibraryRow {
    pub name: Name,
    /// The libraries that it uses, by their places in the load order.
    pub uses: Items<u32>,
    pub classes: Items<ClassRow>,
    pub generics: Items<GenericRow>,
    pub methods: Items<MethodRow>,
    pub domains: Items<DomainRow>,
    pub variables: Items<VariableRow>,
    /// The forms that run, in the order of the text.
    pub tops: Items<TopTerm>,
}

/// A library with all that it uses, in load order.
#[derive(Drop)]
pub struct Program {
    pub libraries: Items<LibraryRow>,
}
