//! Definitions and whole forms (DRM, appendix A).

use crate::expression::{Expression, Item, Parameters};
use crate::token::Token;
use crate::types::TypeForm;
use crate::variables::Target;

/// A top-level form.
#[derive(Debug, Drop)]
pub enum Form {
    Expression(Expression),
    /// `define {adjective} class name (superclass, ..) {slot;} end`
    Class {
        define: Token,
        adjectives: Vec<Token>,
        name: Token,
        superclasses: Vec<Token>,
        slots: Vec<Slot>,
    },
    /// `define constant target = value`
    Constant {
        define: Token,
        target: Target,
        value: Expression,
    },
    /// `define variable target = value`
    Variable {
        define: Token,
        target: Target,
        value: Expression,
    },
    /// `define {adjective} generic name parameters`
    Generic {
        define: Token,
        adjectives: Vec<Token>,
        name: Token,
        parameters: Parameters,
    },
    /// `define {adjective} method name parameters body end`
    Method {
        define: Token,
        adjectives: Vec<Token>,
        word: Token,
        name: Token,
        parameters: Parameters,
        body: Vec<Item>,
    },
    /// `define {adjective} function name parameters body end`
    Function {
        define: Token,
        adjectives: Vec<Token>,
        name: Token,
        parameters: Parameters,
        body: Vec<Item>,
    },
    /// `define sealed domain name (type, ..)`
    Domain {
        define: Token,
        name: Token,
        types: Vec<TypeForm>,
    },
}

/// `{adjective} slot name [:: type] [= value] {, option}`
#[derive(Debug, Drop)]
pub struct Slot {
    pub adjectives: Vec<Token>,
    pub name: Token,
    pub declared: Option<TypeForm>,
    pub value: Option<Expression>,
    pub options: Vec<SlotOption>,
}

/// An option of a slot.
#[derive(Debug, Drop)]
pub enum SlotOption {
    /// `init-keyword: name:`
    InitKeyword(Token),
    /// `required-init-keyword: name:`
    RequiredInitKeyword(Token),
    /// `init-value: value`
    InitValue(Expression),
    /// `init-function: function`
    InitFunction(Expression),
    /// `setter: name`, or `setter: #f`
    Setter(Token),
}
