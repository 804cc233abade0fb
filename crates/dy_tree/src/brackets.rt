//! What encloses a group.

/// A statement of a test and a body.
#[derive(Clone, Copy, Debug, PartialEq, Eq)]
pub enum Guard {
    Unless,
    While,
    Until,
}

/// What a word with an `end` begins.
#[derive(Clone, Copy, Debug, PartialEq, Eq)]
pub enum Keyword {
    Begin,
    If,
    Guard(Guard),
    Case,
    Select,
    Block,
    For,
    Method,
    /// A definition, which is no statement.
    Define,
}

/// What encloses a group.
#[derive(Clone, Copy, Debug, PartialEq, Eq)]
pub enum Bracket {
    Round,
    Square,
    /// Of an expression that a macro put in.
    Hidden,
    /// Of a list.
    SharpRound,
    /// Of a vector.
    SharpSquare,
    /// A word and its `end`.
    Statement(Keyword),
    /// Anything else.
    Special,
}
