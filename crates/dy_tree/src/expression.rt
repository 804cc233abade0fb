//! Expressions, statements and bodies (DRM, appendix A). A bracketed expression is the tree inside.

use crate::brackets::Guard;
use crate::roles::Precedence;
use crate::token::Token;
use crate::types::{ConstantForm, LiteralForm, TypeForm};
use crate::variables::{Required, Results, Target, Variable};

/// An expression. All binary operators but `:=` are left associative.
#[cycle(forms)]
#[derive(Debug, Drop)]
pub enum Expression {
    /// `place := value`
    Assign {
        place: Box<Expression>,
        value: Box<Expression>,
    },
    /// `left operator right`
    Operation {
        precedence: Precedence,
        left: Box<Expression>,
        operator: Token,
        right: Box<Expression>,
    },
    /// `-` and `~`. A minus before an integer is a literal instead.
    Unary {
        operator: Token,
        operand: Box<Expression>,
    },
    /// `function(argument, ..)`
    Call {
        function: Box<Expression>,
        arguments: Vec<Argument>,
    },
    /// `object[index]`
    Element {
        object: Box<Expression>,
        opener: Token,
        index: Box<Expression>,
    },
    /// `object.name`
    Member {
        object: Box<Expression>,
        name: Token,
    },
    Literal(LiteralForm),
    Name(Token),
    /// `#(item, .. . tail)`
    List {
        opener: Token,
        items: Vec<ConstantForm>,
        tail: Option<ConstantForm>,
    },
    /// `#[item, ..]`
    Vector {
        opener: Token,
        items: Vec<ConstantForm>,
    },
    Statement(Statement),
}

/// A statement, from its word to its `end`.
#[cycle(forms)]
#[derive(Debug, Drop)]
pub enum Statement {
    /// `begin body end`
    Begin {
        word: Token,
        body: Vec<Item>,
    },
    /// `method parameters body end`
    Method {
        word: Token,
        parameters: Box<Parameters>,
        body: Vec<Item>,
    },
    /// `if (test) body {elseif (test) body} [else body] end`
    If {
        word: Token,
        test: Box<Expression>,
        body: Vec<Item>,
        alternatives: Vec<Alternative>,
        otherwise: Option<Vec<Item>>,
    },
    /// `unless (test) body end`, and the same of `while` and of `until`
    Guarded {
        guard: Guard,
        word: Token,
        test: Box<Expression>,
        body: Vec<Item>,
    },
    /// `case {test => body} [otherwise body] end`; each arm has one test.
    Case {
        word: Token,
        arms: Vec<Arm>,
        otherwise: Option<Vec<Item>>,
    },
    /// `select (value by test) {value, .. => body} [otherwise body] end`
    Select {
        word: Token,
        value: Box<Expression>,
        test: Option<Box<Expression>>,
        arms: Vec<Arm>,
        otherwise: Option<Vec<Item>>,
    },
    /// `block (exit) body {clause} end`
    Block {
        word: Token,
        exit: Option<Token>,
        body: Vec<Item>,
        clauses: Vec<BlockClause>,
    },
    /// `for (clause, .., stop) body [finally body] end`
    For {
        word: Token,
        clauses: Vec<ForClause>,
        stop: Option<Box<Stop>>,
        body: Vec<Item>,
        finally: Option<Vec<Item>>,
    },
}

impl Statement {
    ghost use Rattle.std.specs.Prelude.{◌≡◌};
    ghost use Rattle.dy_tree.specs.Statements.{word_of};

    /// The word that begins it.
    pub fn word(&self) -> &Token
        ensures { result.now ≡ word_of self.now }
    {
        match self {
            Statement::Begin { word, .. }
            | Statement::Method { word, .. }
            | Statement::If { word, .. }
            | Statement::Guarded { word, .. }
            | Statement::Case { word, .. }
            | Statement::Select { word, .. }
            | Statement::Block { word, .. }
            | Statement::For { word, .. } => word,
        }
    }
}

/// An argument: `keyword: value`, which passes two, or a value.
#[cycle(forms)]
#[derive(Debug, Drop)]
pub enum Argument {
    Keyword { keyword: Token, value: Expression },
    Value(Expression),
}

/// A part of a body.
#[cycle(forms)]
#[derive(Debug, Drop)]
pub enum Item {
    /// `let target = value`
    Let {
        word: Token,
        target: Target,
        value: Expression,
    },
    /// `let handler type = handler`
    Handler {
        word: Token,
        condition: TypeForm,
        handler: Expression,
    },
    /// `local method name parameters body end, ..`
    Local {
        word: Token,
        methods: Vec<LocalMethod>,
    },
    Expression(Expression),
}

/// `method name parameters body end`
#[cycle(forms)]
#[derive(Debug, Drop)]
pub struct LocalMethod {
    pub word: Token,
    pub name: Token,
    pub parameters: Parameters,
    pub body: Vec<Item>,
}

/// `elseif (test) body`
#[cycle(forms)]
#[derive(Debug, Drop)]
pub struct Alternative {
    pub test: Expression,
    pub body: Vec<Item>,
}

/// `test, .. => body`
#[cycle(forms)]
#[derive(Debug, Drop)]
pub struct Arm {
    pub tests: Vec<Expression>,
    pub body: Vec<Item>,
}

/// A clause of a block.
#[cycle(forms)]
#[derive(Debug, Drop)]
pub enum BlockClause {
    Afterwards {
        body: Vec<Item>,
    },
    Cleanup {
        body: Vec<Item>,
    },
    /// `exception (variable :: type) body`
    Exception {
        variable: Option<Token>,
        condition: TypeForm,
        body: Vec<Item>,
    },
}

/// A clause of a `for`.
#[cycle(forms)]
#[derive(Debug, Drop)]
pub enum ForClause {
    /// `variable = first then next`
    Then {
        variable: Variable,
        first: Expression,
        next: Expression,
    },
    /// `variable in collection`
    In {
        variable: Variable,
        collection: Expression,
    },
    /// `variable from start [to limit] [by step]`
    From {
        variable: Variable,
        start: Expression,
        limit: Option<Limit>,
        step: Option<Expression>,
    },
}

/// `to`, `above` or `below`, with its expression.
#[cycle(forms)]
#[derive(Debug, Drop)]
pub struct Limit {
    pub word: Token,
    pub bound: Expression,
}

/// `while:` or `until:`, with its test.
#[cycle(forms)]
#[derive(Debug, Drop)]
pub struct Stop {
    pub keyword: Token,
    pub test: Expression,
}

/// The parameters and results of a method or a function.
#[cycle(forms)]
#[derive(Debug, Drop)]
pub struct Parameters {
    pub required: Vec<Required>,
    pub next: Option<Token>,
    pub rest: Option<Token>,
    pub keys: Option<Keys>,
    pub results: Option<Results>,
}

/// `#key key, .. [, #all-keys]`
#[cycle(forms)]
#[derive(Debug, Drop)]
pub struct Keys {
    pub keys: Vec<Key>,
    pub takes_all: bool,
}

/// `[keyword:] variable [= default]`
#[cycle(forms)]
#[derive(Debug, Drop)]
pub struct Key {
    pub keyword: Option<Token>,
    pub variable: Variable,
    pub default: Option<Expression>,
}
