//! Literals and types as they are written (DRM, appendix A).

use crate::token::Token;

/// An integer, with a minus before it or without.
#[derive(Debug, Drop)]
pub struct IntegerForm {
    pub minus: Option<Token>,
    pub digits: Token,
}

/// A literal that is no list and no vector.
#[derive(Debug, Drop)]
pub enum LiteralForm {
    Int(IntegerForm),
    Char(Token),
    Str(Token),
    /// `#t` or `#f`
    Bool(Token),
    Symbol(Token),
}

/// What may stand in a list or vector literal.
#[derive(Debug, Drop)]
pub enum ConstantForm {
    Literal(LiteralForm),
    /// `#(item, .. . tail)`
    List {
        opener: Token,
        items: Vec<ConstantForm>,
        tail: Option<Box<ConstantForm>>,
    },
    /// `#[item, ..]`
    Vector {
        opener: Token,
        items: Vec<ConstantForm>,
    },
}

/// The only value of a singleton type.
#[derive(Debug, Drop)]
pub enum SingleForm {
    Literal(LiteralForm),
    /// `#()`
    Empty { opener: Token },
    Name(Token),
}

/// `min:` or `max:` with its number.
#[derive(Debug, Drop)]
pub struct BoundForm {
    pub keyword: Token,
    pub number: IntegerForm,
}

/// A type.
#[derive(Debug, Drop)]
pub enum TypeForm {
    Name(Token),
    /// `singleton(value)`
    Singleton {
        word: Token,
        single: SingleForm,
    },
    /// `type-union(type, ..)`
    Union {
        word: Token,
        types: Vec<TypeForm>,
    },
    /// `limited(<integer>, min: number, max: number)`
    Limited {
        word: Token,
        class: Token,
        bounds: Vec<BoundForm>,
    },
}
