//! Why a method or a domain is not congruent with its generic function.

ghost use Rattle.std.specs.Prelude.{◌≡◌};
ghost use Rattle.dy_generics.specs.Words.{word_of};

/// What is tested (DRM 6, "Parameter List Congruency"), in the order of the tests.
#[derive(Clone, Copy, Debug, PartialEq, Eq)]
pub enum Reason {
    /// There are as many required parameters, or as many types of a domain.
    Count,
    /// Each specializer is a subtype of the generic function's.
    Specializer,
    /// Both take keywords, or both take further arguments and no keywords, or neither does.
    Kind,
    /// The method takes each keyword that the generic function names.
    Keyword,
    /// There are as many results, or at least as many where the generic function has `#rest`
    /// results.
    ResultCount,
    /// Each result's type is a subtype of the generic function's.
    ResultType,
}

impl Reason {
    /// The word that a refusal shows.
    pub fn word(&self) -> &str
        ensures { result.now ≡ word_of self.now }
    {
        match self {
            Reason::Count => "count",
            Reason::Specializer => "specializer",
            Reason::Kind => "kind",
            Reason::Keyword => "keyword",
            Reason::ResultCount => "result-count",
            Reason::ResultType => "result-type",
        }
    }
}

/// The first test that a method does not pass.
#[derive(Clone, Copy, Debug, PartialEq, Eq)]
pub struct Misfit {
    /// The place, from 0, of the required parameter, of the keyword among those of the generic
    /// function, or of the result; the place behind the last result for the type of `#rest`
    /// results; 0 for the reasons that have no place.
    pub position: u32,
    pub reason: Reason,
}

/// Which arguments a parameter list takes beyond the required ones.
#[derive(Clone, Copy, Debug, PartialEq, Eq)]
pub enum Kinds {
    Keywords,
    /// Any others.
    Rest,
    Neither,
}
