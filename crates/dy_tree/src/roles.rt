//! What tokens are to the grammar (DRM 2 and appendix A).

/// The left associative operators, those that bind tightest first.
#[derive(Clone, Copy, Debug, PartialEq, Eq)]
pub enum Precedence {
    /// `^`
    Power,
    /// `*` and `/`
    Product,
    /// `+` and `-`
    Sum,
    /// `=`, `==`, `<`, `>`, `<=`, `>=`, `~=` and `~==`
    Comparison,
    /// `&` and `|`
    Logical,
}

/// What a token is to the grammar.
#[derive(Clone, Copy, Debug, PartialEq, Eq)]
pub enum Role {
    Integer,
    Character,
    Text,
    Boolean,
    Symbol,
    Named,
    /// An operator of two operands.
    Operator(Precedence),
    /// `-`, which has two operands or one.
    Minus,
    /// `~`
    Tilde,
    /// `:=`
    Assigns,
    Dot,
    Comma,
    Semicolon,
    /// `=>`
    Arrow,
    /// `::`
    Colons,
    /// `let`
    Lets,
    /// `local`
    Locals,
    /// `handler`
    Handlers,
    /// `otherwise`
    Remains,
    /// `define`
    Defines,
    Other,
}
