//! Terms of the core language. Its locals are numbers and its names are rows.

use crate::literal::Literal;
use crate::types::{DyType, Params, Results};
use dy_base::{BindingId, Boxed, ClassId, GenericId, Items};

/// A term. A function and then its arguments are evaluated from left to right.
#[cycle(terms)]
#[derive(Drop)]
pub enum Term {
    /// A literal, which is itself.
    Lit(Literal),
    /// A local, by its number. One numbering runs through a row and all lambdas inside of it.
    Local(u32),
    /// What a constant, a variable or a function is bound to.
    Global(BindingId),
    /// A class.
    ClassName(ClassId),
    /// A generic function.
    GenericName(GenericId),
    /// An assignment to a local. Its value is that of the term.
    SetLocal(u32, Boxed<Term>),
    /// An assignment to a variable.
    SetGlobal(BindingId, Boxed<Term>),
    /// A call of what the first term gives.
    Call(Boxed<Term>, Items<Term>),
    /// A call of a generic function.
    Site(GenericId, Items<Term>),
    /// The first term whose test is not `#f`, or else the last one.
    Cond(Items<(Term, Term)>, Boxed<Term>),
    /// The second term where the first is true, or else `#f`.
    And(Boxed<Term>, Boxed<Term>),
    /// The first term where it is true, or else the second.
    Or(Boxed<Term>, Boxed<Term>),
    /// A value, the test if it is not `==`, the arms, each with the values that lead to it, and
    /// what is evaluated where no value does.
    Select(Boxed<Term>, Option<Boxed<Term>>, Items<(Items<Term>, Term)>, Option<Boxed<Term>>),
    /// Items, one after the other. The value is that of the last one where it is a term, else `#f`.
    Body(Items<Item>),
    /// A test, and what is done again and again while it is true.
    Loop(Boxed<Term>, Boxed<Term>),
    For(Boxed<ForRow>),
    /// A closure.
    Method(Boxed<Lambda>),
    Block(Boxed<BlockRow>),
    /// A built-in operation, by its number.
    Op(u16, Items<Term>),
    /// The next method itself, or its call.
    Next(Option<Items<Term>>),
}

/// A part of a body.
#[cycle(terms)]
#[derive(Drop)]
pub enum Item {
    Run(Term),
    /// Locals with their types, the local of the rest, and the term whose values they take.
    Let(Items<(u32, DyType)>, Option<u32>, Term),
    /// Local methods, each of which sees all of them.
    LetMethods(Items<(u32, Lambda)>),
    /// The type of conditions, and the function that handles them to the end of the body.
    Handler(DyType, Term),
}

/// A body with parameters (DRM 6, "Methods"). No two locals of a row have one number, and a lambda
/// inside of another names the locals of the outer one by theirs.
#[cycle(terms)]
#[derive(Drop)]
pub struct Lambda {
    pub params: Params,
    /// The type and the default of each keyword parameter, in the order of the keywords.
    pub keywords: Items<(DyType, Term)>,
    /// Whether it is that of a `define method`, and so has a next method.
    pub next: bool,
    /// The number of the first parameter. Those that follow have the numbers behind it: first the
    /// required ones, then that of the rest, then the keywords. A lambda of a row has 0.
    pub first: u32,
    /// The number that comes next behind the body, above all numbers of locals inside of it.
    pub locals: u32,
    pub body: Term,
    pub results: Results,
}

/// A `for` (DRM 7, "for").
#[cycle(terms)]
#[derive(Drop)]
pub struct ForRow {
    pub clauses: Items<ForClause>,
    /// The test that ends the loop, and whether it does so where it is true.
    pub test: Option<(bool, Term)>,
    pub body: Term,
    /// What gives the result.
    pub finally: Option<Term>,
}

/// A clause of a `for`: a local, its type, and how it goes on.
#[cycle(terms)]
#[derive(Drop)]
pub enum ForClause {
    /// The first value, and each next one.
    Then(u32, DyType, Term, Term),
    /// The collection that is walked.
    In(u32, DyType, Term),
    /// The first number, where it ends, and the step if it is not 1.
    From(u32, DyType, Term, Option<(Limit, Term)>, Option<Term>),
}

/// Where the numbers of a `for` end.
#[derive(Clone, Copy, Debug, PartialEq, Eq)]
pub enum Limit {
    /// Past the bound, in the direction of the step.
    To,
    /// At or under the bound.
    Above,
    /// At or over the bound.
    Below,
}

/// A `block` (DRM 7, "block").
#[cycle(terms)]
#[derive(Drop)]
pub struct BlockRow {
    /// The local of the exit procedure.
    pub exit: Option<u32>,
    pub body: Term,
    /// What runs after a normal end of the body.
    pub afterwards: Option<Term>,
    /// What runs on every end.
    pub cleanup: Option<Term>,
    /// The local of the condition, the type of conditions, and what runs where one is caught.
    pub clauses: Items<(Option<u32>, DyType, Term)>,
}
