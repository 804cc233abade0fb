//! Variables as they are bound (DRM, appendix A).

use crate::token::Token;
use crate::types::{SingleForm, TypeForm};

/// `name :: type`
#[derive(Debug, Drop)]
pub struct Variable {
    pub name: Token,
    pub declared: Option<TypeForm>,
}

/// `name, .., #rest name`
#[derive(Debug, Drop)]
pub struct Variables {
    pub variables: Vec<Variable>,
    pub rest: Option<Token>,
}

/// What a binding binds: one variable, or several in brackets.
#[derive(Debug, Drop)]
pub enum Target {
    One(Variable),
    Several(Variables),
}

/// A required parameter: a variable, or `name == value`.
#[derive(Debug, Drop)]
pub enum Required {
    Variable(Variable),
    Single { name: Token, single: SingleForm },
}

/// The results of a method: `=> (variable, .., #rest variable)`, or `=> variable`.
#[derive(Debug, Drop)]
pub enum Results {
    Several {
        variables: Vec<Variable>,
        rest: Option<Variable>,
    },
    One(Variable),
}
