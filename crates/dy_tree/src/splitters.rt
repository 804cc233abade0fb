//! The words that split a statement.

/// Which words split the statement at whose top level a token stands.
#[derive(Clone, Copy, Debug, PartialEq, Eq)]
pub enum Splitting {
    /// None, as inside of brackets.
    Nothing,
    /// `else` and `elseif`, in an `if`.
    Branches,
    /// `afterwards`, `cleanup` and `exception`, in a `block`.
    Endings,
    /// `finally`, in the body of a `for`.
    LastPart,
    /// `then`, `from`, `to`, `above`, `below` and `by`, in the clauses of a `for`.
    Steps,
    /// `by`, in the head of a `select`.
    Tests,
}

/// A word with a place in statements, which most of them split.
#[derive(Clone, Copy, Debug, PartialEq, Eq)]
pub enum Splitter {
    Else,
    Elseif,
    Afterwards,
    Cleanup,
    Exception,
    Finally,
    Then,
    From,
    To,
    Above,
    Below,
    By,
    /// `in`, which splits nothing.
    In,
    /// No such word.
    Absent,
}
