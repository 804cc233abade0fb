//! The constructs of the language, and which of them run.

ghost use Rattle.std.specs.Prelude.{◌≡◌};
ghost use Rattle.dy_construct_parts.specs.Table as table;

/// A construct of the language (DRM, appendix A).
#[derive(Clone, Copy, Debug, PartialEq, Eq)]
pub enum Construct {
    // Forms.
    /// A call of `format-out` with a string literal as its first argument, as a form.
    PrintingCall,
    /// The text of such a call, where its directives are others than `%%` and one `%d` for each
    /// argument behind it.
    OtherDirectives,
    /// Any other expression as a form.
    ExpressionForm,
    ClassDefinition,
    ConstantDefinition,
    VariableDefinition,
    GenericDefinition,
    MethodDefinition,
    FunctionDefinition,
    DomainDefinition,
    /// `define macro`, which is in no tree: the grammar of forms has no such form.
    MacroDefinition,
    // Adjectives of definitions.
    Open,
    Sealed,
    Abstract,
    Concrete,
    Primary,
    Free,
    /// `inline`, `not-inline`, `may-inline`, `default-inline` or `inline-only`, which mean nothing.
    Inlining,
    /// An adjective of a tree that is no adjective of the language.
    OtherAdjective,
    // Slots of classes.
    Slot,
    /// The adjective `constant`.
    ConstantSlot,
    /// The adjective `instance`, `class`, `each-subclass` or `virtual`.
    SlotAllocation,
    TypedSlot,
    /// `= value`, or `init-value: value`
    InitialValue,
    InitFunction,
    InitKeyword,
    RequiredInitKeyword,
    /// `setter: name`, or `setter: #f`
    NamedSetter,
    // Parameter lists.
    /// A parameter list without a required parameter.
    NoParameter,
    /// A required parameter.
    RequiredParameter,
    /// Two required parameters or more.
    SeveralParameters,
    /// A required parameter with a type.
    TypedParameter,
    /// A required parameter with `==`.
    SingletonParameter,
    /// `#next name`
    NextParameter,
    /// `#rest name`
    RestParameter,
    /// `#key`
    KeyParameters,
    /// A keyword parameter whose keyword is written beside its name.
    NamedKeyword,
    /// A keyword parameter with a type.
    TypedKey,
    /// The default of a keyword parameter.
    KeyDefault,
    /// `#all-keys`
    AllKeys,
    /// `=> ..` behind the parameters.
    Results,
    /// A result with a type.
    TypedResult,
    /// `#rest name` among the results.
    RestResult,
    // Types.
    /// A name as a type.
    NamedType,
    /// `singleton(value)`
    SingletonType,
    /// `type-union(type, ..)`
    UnionType,
    /// `limited(<integer>, ..)`
    LimitedType,
    // Parts of bodies.
    /// A body of nothing.
    EmptyBody,
    /// A body of two parts or more.
    SeveralItems,
    /// `let`
    Let,
    /// Several variables or constants in brackets.
    SeveralVariables,
    /// `#rest name` among such variables.
    RestVariable,
    /// A variable or constant with a type.
    TypedVariable,
    /// `let handler`
    LetHandler,
    /// `local`
    LocalMethods,
    // Expressions.
    /// `place := value`
    Assignment,
    Addition,
    Subtraction,
    Multiplication,
    Division,
    Power,
    /// `&`
    And,
    /// `|`
    Or,
    /// `=`
    Equal,
    /// `==`
    Identical,
    /// `<`
    Less,
    /// `>`
    Greater,
    /// `<=`
    AtMost,
    /// `>=`
    AtLeast,
    /// `~=`
    Unequal,
    /// `~==`
    NotIdentical,
    /// A comparison elsewhere than as the test in the brackets behind a word.
    ComparisonValue,
    /// `-` with one operand. A minus before an integer is a part of it.
    Negation,
    /// `~`
    Not,
    /// An operator of a tree that is no operator of the language.
    OtherOperator,
    /// A call of a name.
    Call,
    /// A call of what is no name.
    ComputedCall,
    /// A call without arguments.
    NoArgument,
    /// A call with two arguments or more.
    SeveralArguments,
    /// `keyword: value` as an argument.
    KeywordArgument,
    /// `object[index]`
    Element,
    /// `object.name`
    Member,
    Name,
    /// The name `next-method`.
    NextMethod,
    Integer,
    Character,
    /// A string elsewhere than as the text of a printing call.
    String,
    /// `#t` or `#f`
    Boolean,
    /// A symbol that is no keyword.
    Symbol,
    /// `#(item, ..)`
    List,
    /// The tail of a list behind a dot.
    DottedTail,
    /// `#[item, ..]`
    Vector,
    // Statements.
    Begin,
    /// `method` as an expression.
    AnonymousMethod,
    If,
    Elseif,
    /// An `if` without `else`.
    NoElse,
    /// A test in the brackets behind a word that is no comparison.
    OtherTest,
    Unless,
    While,
    Until,
    Case,
    Select,
    /// `by` in a `select`.
    SelectTest,
    Otherwise,
    Block,
    /// The exit of a `block`.
    BlockExit,
    Afterwards,
    Cleanup,
    ExceptionClause,
    For,
    /// `variable = first then next`
    ThenClause,
    /// `variable in collection`
    InClause,
    /// `variable from start`
    FromClause,
    /// `to`, `above` or `below`
    Limit,
    /// `by` in a `for`.
    Step,
    /// `while:` or `until:`
    Stop,
    Finally,
}

/// Whether a construct runs today.
#[tactic(auto, unfolding(crate::specs::Table::has_come))]
fn has_come(construct: Construct) -> bool
    ensures { result ≡ table.has_come construct }
{
    match construct {
        // Forms.
        Construct::PrintingCall
        | Construct::OtherDirectives
        | Construct::ExpressionForm
        | Construct::ConstantDefinition
        | Construct::VariableDefinition
        | Construct::MethodDefinition
        | Construct::FunctionDefinition => true,
        Construct::ClassDefinition
        | Construct::GenericDefinition
        | Construct::DomainDefinition
        | Construct::MacroDefinition => false,
        // Adjectives of definitions.
        Construct::Inlining => true,
        Construct::Open
        | Construct::Sealed
        | Construct::Abstract
        | Construct::Concrete
        | Construct::Primary
        | Construct::Free
        | Construct::OtherAdjective => false,
        // Slots of classes.
        Construct::Slot
        | Construct::ConstantSlot
        | Construct::SlotAllocation
        | Construct::TypedSlot
        | Construct::InitialValue
        | Construct::InitFunction
        | Construct::InitKeyword
        | Construct::RequiredInitKeyword
        | Construct::NamedSetter => false,
        // Parameter lists.
        Construct::NoParameter
        | Construct::RequiredParameter
        | Construct::SeveralParameters
        | Construct::Results => true,
        Construct::TypedParameter
        | Construct::SingletonParameter
        | Construct::NextParameter
        | Construct::RestParameter
        | Construct::KeyParameters
        | Construct::NamedKeyword
        | Construct::TypedKey
        | Construct::KeyDefault
        | Construct::AllKeys
        | Construct::TypedResult
        | Construct::RestResult => false,
        // Types.
        Construct::NamedType
        | Construct::SingletonType
        | Construct::UnionType
        | Construct::LimitedType => false,
        // Parts of bodies.
        Construct::EmptyBody
        | Construct::SeveralItems
        | Construct::Let
        | Construct::SeveralVariables
        | Construct::LocalMethods => true,
        Construct::RestVariable | Construct::TypedVariable | Construct::LetHandler => false,
        // Expressions.
        Construct::Assignment
        | Construct::Addition
        | Construct::Subtraction
        | Construct::Multiplication
        | Construct::And
        | Construct::Or
        | Construct::Identical
        | Construct::Less
        | Construct::Greater
        | Construct::AtMost
        | Construct::AtLeast
        | Construct::NotIdentical
        | Construct::ComparisonValue
        | Construct::Negation
        | Construct::Not
        | Construct::Call
        | Construct::ComputedCall
        | Construct::NoArgument
        | Construct::SeveralArguments
        | Construct::Member
        | Construct::Name
        | Construct::Integer
        | Construct::String
        | Construct::Boolean => true,
        Construct::Division
        | Construct::Power
        | Construct::Equal
        | Construct::Unequal
        | Construct::OtherOperator
        | Construct::KeywordArgument
        | Construct::Element
        | Construct::NextMethod
        | Construct::Character
        | Construct::Symbol
        | Construct::List
        | Construct::DottedTail
        | Construct::Vector => false,
        // Statements.
        Construct::Begin
        | Construct::AnonymousMethod
        | Construct::If
        | Construct::Elseif
        | Construct::NoElse
        | Construct::OtherTest
        | Construct::Unless
        | Construct::While
        | Construct::Until
        | Construct::Case
        | Construct::Select
        | Construct::SelectTest
        | Construct::Otherwise
        | Construct::For
        | Construct::ThenClause
        | Construct::FromClause
        | Construct::Limit
        | Construct::Step
        | Construct::Stop
        | Construct::Finally => true,
        Construct::Block
        | Construct::BlockExit
        | Construct::Afterwards
        | Construct::Cleanup
        | Construct::ExceptionClause
        | Construct::InClause => false,
    }
}

/// The construct, if it has not come.
#[tactic(auto, unfolding(crate::specs::Table::absent))]
pub fn absent(construct: Construct) -> Option<Construct>
    ensures { result ≡ table.absent construct }
{
    if has_come(construct) {
        None
    } else {
        Some(construct)
    }
}

/// The construct of a count other than 1, if it has not come: one of none, one of several.
pub fn by_count(none: Construct, several: Construct, count: usize) -> Option<Construct>
    ensures { result ≡ table.first_absent (table.by_count none several count) }
{
    if count == 0 {
        absent(none)
    } else if count == 1 {
        None
    } else {
        absent(several)
    }
}

/// The construct, if it stands there and has not come.
pub fn where_true(construct: Construct, stands: bool) -> Option<Construct>
    ensures { result ≡ table.first_absent (table.where_true construct stands) }
{
    if stands { absent(construct) } else { None }
}
