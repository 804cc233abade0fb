//! The kinds of refusal.

ghost use Rattle.std.specs.Prelude.{◌≡◌};
ghost use Rattle.dy_base.specs.Kinds.{code_of, name_of};

/// What a refusal is about. Each kind has a number and a name, which its line shows.
#[derive(Clone, Copy, Debug, PartialEq, Eq)]
pub enum Kind {
    /// A byte begins no token.
    BadByte,
    /// A comment is not closed.
    OpenComment,
    /// A string or character literal meets a line end or the end of the file.
    OpenString,
    /// A literal is of no known form.
    BadLiteral,
    /// An integer literal exceeds 64 bits with a sign.
    WideInteger,
    /// A header line is out of form, or a wanted key is missing or doubled.
    BadHeader,
    /// A closer fits no opener, or an opener is left open.
    Unbalanced,
    /// Groups or a surface tree are too deep.
    TooDeep,
    /// No rule of a macro matches.
    NoRule,
    /// A definition needs too many expansions.
    TooManyExpansions,
    /// A macro definition is out of form.
    BadMacro,
    /// A used library is not among those given.
    UnknownLibrary,
    /// A used module does not exist.
    UnknownModule,
    /// One visible name has two owners by imports.
    NameClash,
    /// A use clause names what is not exported to it.
    NotExported,
    /// Modules use each other in a ring.
    Cycle,
    /// A form is not in the grammar.
    Syntax,
    /// A name has no binding.
    Unbound,
    /// A name is defined twice.
    Redefined,
    /// The place of an assignment cannot be assigned.
    NotAssignable,
    /// A type position holds something else.
    NotAType,
    /// A class has no class precedence list.
    Inconsistent,
    /// A class has two unrelated primary superclasses.
    TwoPrimaries,
    /// A class has two slots with one getter.
    SlotClash,
    /// A class is its own superclass.
    CyclicClass,
    /// A method is not congruent with its generic function.
    NotCongruent,
    /// Two methods of a generic function have the same specializers.
    DuplicateMethod,
    /// A sealed class is subclassed in another library.
    SealedClass,
    /// A sealed generic function gets a method in another library.
    SealedGeneric,
    /// A sealed domain is broken by another library.
    SealedDomain,
    /// A counted quantity exceeds its limit.
    Limit,
    /// Bytes are no image or program file.
    BadImage,
    /// Code breaks a rule of the verifier.
    BadCode,
    /// A recorded interface digest differs from the present one.
    Stale,
    /// A file is absent.
    NoFile,
}

impl Kind {
    /// The number of the kind, from 1 to 35.
    pub fn code(&self) -> u8
        ensures { result ≡ code_of self.now }
    {
        match self {
            Kind::BadByte => 1,
            Kind::OpenComment => 2,
            Kind::OpenString => 3,
            Kind::BadLiteral => 4,
            Kind::WideInteger => 5,
            Kind::BadHeader => 6,
            Kind::Unbalanced => 7,
            Kind::TooDeep => 8,
            Kind::NoRule => 9,
            Kind::TooManyExpansions => 10,
            Kind::BadMacro => 11,
            Kind::UnknownLibrary => 12,
            Kind::UnknownModule => 13,
            Kind::NameClash => 14,
            Kind::NotExported => 15,
            Kind::Cycle => 16,
            Kind::Syntax => 17,
            Kind::Unbound => 18,
            Kind::Redefined => 19,
            Kind::NotAssignable => 20,
            Kind::NotAType => 21,
            Kind::Inconsistent => 22,
            Kind::TwoPrimaries => 23,
            Kind::SlotClash => 24,
            Kind::CyclicClass => 25,
            Kind::NotCongruent => 26,
            Kind::DuplicateMethod => 27,
            Kind::SealedClass => 28,
            Kind::SealedGeneric => 29,
            Kind::SealedDomain => 30,
            Kind::Limit => 31,
            Kind::BadImage => 32,
            Kind::BadCode => 33,
            Kind::Stale => 34,
            Kind::NoFile => 35,
        }
    }

    /// The name of the kind, as refusals show it.
    pub fn name(&self) -> &'static str
        ensures { result.now ≡ name_of self.now }
    {
        match self {
            Kind::BadByte => "BadByte",
            Kind::OpenComment => "OpenComment",
            Kind::OpenString => "OpenString",
            Kind::BadLiteral => "BadLiteral",
            Kind::WideInteger => "WideInteger",
            Kind::BadHeader => "BadHeader",
            Kind::Unbalanced => "Unbalanced",
            Kind::TooDeep => "TooDeep",
            Kind::NoRule => "NoRule",
            Kind::TooManyExpansions => "TooManyExpansions",
            Kind::BadMacro => "BadMacro",
            Kind::UnknownLibrary => "UnknownLibrary",
            Kind::UnknownModule => "UnknownModule",
            Kind::NameClash => "NameClash",
            Kind::NotExported => "NotExported",
            Kind::Cycle => "Cycle",
            Kind::Syntax => "Syntax",
            Kind::Unbound => "Unbound",
            Kind::Redefined => "Redefined",
            Kind::NotAssignable => "NotAssignable",
            Kind::NotAType => "NotAType",
            Kind::Inconsistent => "Inconsistent",
            Kind::TwoPrimaries => "TwoPrimaries",
            Kind::SlotClash => "SlotClash",
            Kind::CyclicClass => "CyclicClass",
            Kind::NotCongruent => "NotCongruent",
            Kind::DuplicateMethod => "DuplicateMethod",
            Kind::SealedClass => "SealedClass",
            Kind::SealedGeneric => "SealedGeneric",
            Kind::SealedDomain => "SealedDomain",
            Kind::Limit => "Limit",
            Kind::BadImage => "BadImage",
            Kind::BadCode => "BadCode",
            Kind::Stale => "Stale",
            Kind::NoFile => "NoFile",
        }
    }
}
