//! Drafts: terms and rows whose names are still tokens, since nobody has looked up yet what they
//! name.

use crate::literal::Literal;
use crate::rows::SlotKind;
use crate::term::Limit;
use dy_tree::Token;

/// A local that is bound.
#[derive(Debug, Drop)]
pub enum Local {
    /// One that names of the same text and origin mean.
    Named(Token),
    /// One that no name means, by its number. Numbers begin at 0 in each body, and an inner body's
    /// hide those of an outer one.
    Hidden(usize),
}

/// A type. The tokens are those at which a fault of it is told.
#[derive(Debug, Drop)]
pub enum DraftType {
    /// The class `<object>` of the library `dylan`, where no type is written.
    Object,
    /// The class `<integer>` of the library `dylan`, where the numbers of a `for` have no type.
    Integer,
    /// What a class or a type constant stands for.
    Name(Token),
    /// What is `==` to a literal.
    Single(Literal),
    /// The class of this name itself, and the token that says so.
    SingleName(Token, Token),
    /// `type-union` and its parts.
    Union(Token, Vec<DraftType>),
    /// `limited`, and the integers from the first to the second.
    Range(Token, i64, i64),
}

/// A keyword parameter: its keyword, its local and its type.
#[derive(Debug, Drop)]
pub struct DraftKey {
    pub keyword: Token,
    pub variable: Token,
    pub declared: DraftType,
}

/// A parameter list.
#[derive(Debug, Drop)]
pub struct DraftParams {
    pub required: Vec<(Token, DraftType)>,
    /// The name that is written for the next method. It stands behind the required parameters.
    pub next: Option<Token>,
    pub rest: Option<Token>,
    pub keys: Option<Vec<DraftKey>>,
    pub all_keys: bool,
}

/// The types of the values that are returned.
#[derive(Debug, Drop)]
pub struct DraftResults {
    pub required: Vec<DraftType>,
    pub rest: Option<DraftType>,
}

/// A term.
#[cycle(drafts)]
#[derive(Debug, Drop)]
pub enum DraftTerm {
    /// A literal, which is itself.
    Lit(Literal),
    /// What a name means.
    Name(Token),
    /// A local that no name means.
    Hidden(usize),
    /// An assignment to what a name means. Its value is that of the term.
    Set(Token, Box<DraftTerm>),
    /// An assignment to a term that is no place, by its first token.
    NoPlace(Token, Box<DraftTerm>, Box<DraftTerm>),
    /// A call of what the first term gives.
    Call(Box<DraftTerm>, Vec<DraftTerm>),
    /// The values of the terms together.
    Values(Vec<DraftTerm>),
    /// The first term whose test is not `#f`, or else the last one.
    Cond(Vec<(DraftTerm, DraftTerm)>, Box<DraftTerm>),
    /// The second term where the first is true, or else `#f`.
    And(Box<DraftTerm>, Box<DraftTerm>),
    /// The first term where it is true, or else the second.
    Or(Box<DraftTerm>, Box<DraftTerm>),
    /// A value, the test if it is not `==`, the arms, and what is evaluated where none is chosen.
    Select(Box<DraftTerm>, Option<Box<DraftTerm>>, Vec<DraftArm>, Option<Box<DraftTerm>>),
    /// Items, one after the other. The value is that of the last one where it is a term, else `#f`.
    Body(Vec<DraftItem>),
    /// A test, and what is done again and again while it is true.
    Loop(Box<DraftTerm>, Box<DraftTerm>),
    For(Box<DraftFor>),
    /// A closure.
    Method(Box<DraftLambda>),
    Block(Box<DraftBlock>),
}

/// An arm of a `select`: the values that lead to it, and what is evaluated then.
#[cycle(drafts)]
#[derive(Debug, Drop)]
pub struct DraftArm {
    pub values: Vec<DraftTerm>,
    pub body: DraftTerm,
}

/// A part of a body.
#[cycle(drafts)]
#[derive(Debug, Drop)]
pub enum DraftItem {
    Run(DraftTerm),
    /// Locals with their types, the local of the rest, and the term whose values they take.
    Let(Vec<(Local, DraftType)>, Option<Local>, DraftTerm),
    /// Local methods, each of which sees all of them.
    LetMethods(Vec<(Token, DraftLambda)>),
    /// The type of conditions, and the function that handles them to the end of the body.
    Handler(DraftType, DraftTerm),
}

/// A body with parameters.
#[cycle(drafts)]
#[derive(Debug, Drop)]
pub struct DraftLambda {
    pub params: DraftParams,
    /// The default of each keyword parameter, in the order of the keywords.
    pub defaults: Vec<DraftTerm>,
    pub body: DraftTerm,
    pub results: DraftResults,
}

/// A `for` (DRM 7, "for").
#[cycle(drafts)]
#[derive(Debug, Drop)]
pub struct DraftFor {
    pub clauses: Vec<DraftForClause>,
    /// The test that ends the loop, and whether it does so where it is true.
    pub test: Option<(bool, DraftTerm)>,
    pub body: DraftTerm,
    /// What gives the result.
    pub finally: Option<DraftTerm>,
}

/// A clause of a `for`: a local, its type, and how it goes on.
#[cycle(drafts)]
#[derive(Debug, Drop)]
pub enum DraftForClause {
    /// The first value, and each next one.
    Then(Token, DraftType, DraftTerm, DraftTerm),
    /// The collection that is walked.
    In(Token, DraftType, DraftTerm),
    /// The first number, where it ends, and the step if it is not 1.
    From(Token, DraftType, DraftTerm, Option<(Limit, DraftTerm)>, Option<DraftTerm>),
}

/// A `block` (DRM 7, "block").
#[cycle(drafts)]
#[derive(Debug, Drop)]
pub struct DraftBlock {
    /// The local of the exit procedure.
    pub exit: Option<Token>,
    pub body: DraftTerm,
    /// What runs after a normal end of the body.
    pub afterwards: Option<DraftTerm>,
    /// What runs on every end.
    pub cleanup: Option<DraftTerm>,
    pub clauses: Vec<DraftBlockClause>,
}

/// An `exception` clause: the local of the condition, the type of conditions, and what runs where
/// one is caught.
#[cycle(drafts)]
#[derive(Debug, Drop)]
pub struct DraftBlockClause {
    pub variable: Option<Token>,
    pub condition: DraftType,
    pub body: DraftTerm,
}

/// A class, with its adjectives as they are written.
#[derive(Debug, Drop)]
pub struct DraftClass {
    pub adjectives: Vec<Token>,
    pub name: Token,
    pub supers: Vec<Token>,
    pub slots: Vec<DraftSlot>,
}

/// A slot of a class.
#[derive(Debug, Drop)]
pub struct DraftSlot {
    pub getter: Token,
    pub setter: Option<Token>,
    pub kind: SlotKind,
    pub slot_type: DraftType,
    /// The init keyword, and whether it is required.
    pub keyword: Option<Token>,
    pub required: bool,
    pub init: Option<DraftInit>,
}

/// What a slot is filled with.
#[derive(Debug, Drop)]
pub enum DraftInit {
    /// What the term gives each time.
    Each(DraftTerm),
    /// What a call of what the term gives returns each time.
    Calling(DraftTerm),
}

/// A generic function.
#[derive(Debug, Drop)]
pub struct DraftGeneric {
    pub adjectives: Vec<Token>,
    pub name: Token,
    pub params: DraftParams,
    pub results: DraftResults,
}

/// A method. Its specializers are a sealed domain where one of its adjectives is `sealed`.
#[derive(Debug, Drop)]
pub struct DraftMethod {
    pub adjectives: Vec<Token>,
    pub generic: Token,
    /// The name of the next method where none is written. It stands outside the parameters.
    pub next: Option<Token>,
    pub code: DraftLambda,
}

/// A sealed domain.
#[derive(Debug, Drop)]
pub struct DraftDomain {
    pub generic: Token,
    pub types: Vec<DraftType>,
}

/// A function, or a constant that stands for a type.
#[derive(Debug, Drop)]
pub enum DraftVariable {
    /// The adjectives, the name and the code.
    Function(Vec<Token>, Token, DraftLambda),
    /// The name, its declared type, and the type that it stands for.
    Type(Token, DraftType, DraftType),
}

/// A form that runs when its library is loaded.
#[derive(Debug, Drop)]
pub enum DraftTop {
    /// Variables or constants with their types, which take the values of the term.
    Init {
        is_constant: bool,
        variables: Vec<(Token, DraftType)>,
        term: DraftTerm,
    },
    Run(DraftTerm),
}

/// What a form of the source is in the core.
#[derive(Debug, Drop)]
pub enum Draft {
    Class(DraftClass),
    Generic(DraftGeneric),
    Method(DraftMethod),
    Domain(DraftDomain),
    Variable(DraftVariable),
    Top(DraftTop),
}
