//! How characters are spelled in literals.

/// How far the spelling of a character has been read.
#[derive(Clone, Copy, Debug, PartialEq, Eq)]
pub enum Spelling {
    /// Between characters.
    Plain,
    /// After a backslash.
    Escape,
    /// After `\<`.
    Open,
    /// After `\<` and a digit with this value.
    Digit(u8),
    /// After `\<` and two digits with this value.
    Digits(u8),
}

/// What a byte of a spelling gives.
#[derive(Clone, Copy, Debug, PartialEq, Eq)]
pub enum Read {
    /// The character's value; its spelling ends.
    Value(u8),
    /// Nothing yet.
    GoesOn(Spelling),
    /// No character is spelled so.
    Wrong,
}
