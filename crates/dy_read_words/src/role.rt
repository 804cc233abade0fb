//! What tokens are to the grammar (DRM 2 and appendix A).

ghost use Rattle.std.specs.Prelude.{◌≡◌, [], ◌∷◌, codes};
ghost use Rattle.dy_rules.specs.Roles as spec;

use dy_tree::{Precedence, Role, Token, TokenKind};

/// Whether a name is a word in every module, and no name to the grammar.
fn is_reserved(token: &Token) -> bool
    ensures { result ≡ spec.is_among spec.reserved token.now }
{
    token.is_spelled(b"end") || token.is_spelled(b"macro")
}

fn name_role(token: &Token) -> Role
    ensures { result ≡ spec.name_role token.now }
{
    if token.is_spelled(b"let") {
        Role::Lets
    } else if token.is_spelled(b"local") {
        Role::Locals
    } else if token.is_spelled(b"handler") {
        Role::Handlers
    } else if token.is_spelled(b"otherwise") {
        Role::Remains
    } else if token.is_spelled(b"define") {
        Role::Defines
    } else if is_reserved(token) {
        Role::Other
    } else {
        Role::Named
    }
}

fn is_boolean(token: &Token) -> bool
    ensures { result ≡ spec.is_among (codes "#t" ∷ codes "#f" ∷ []) token.now }
{
    token.is_spelled(b"#t") || token.is_spelled(b"#f")
}

fn mark_role(token: &Token) -> Role
    ensures { result ≡ spec.mark_role token.now }
{
    if is_boolean(token) {
        Role::Boolean
    } else {
        Role::Other
    }
}

fn is_product(token: &Token) -> bool
    ensures { result ≡ spec.is_among (codes "*" ∷ codes "/" ∷ []) token.now }
{
    token.is_spelled(b"*") || token.is_spelled(b"/")
}

fn is_comparison(token: &Token) -> bool
    ensures { result ≡ spec.is_among
        (codes "=" ∷ codes "==" ∷ codes "<" ∷ codes ">" ∷ codes "<=" ∷ codes ">=" ∷ codes "~="
        ∷ codes "~==" ∷ []) token.now }
{
    token.is_spelled(b"=")
        || token.is_spelled(b"==")
        || token.is_spelled(b"<")
        || token.is_spelled(b">")
        || token.is_spelled(b"<=")
        || token.is_spelled(b">=")
        || token.is_spelled(b"~=")
        || token.is_spelled(b"~==")
}

fn is_logical(token: &Token) -> bool
    ensures { result ≡ spec.is_among (codes "&" ∷ codes "|" ∷ []) token.now }
{
    token.is_spelled(b"&") || token.is_spelled(b"|")
}

fn operator_role(token: &Token) -> Role
    ensures { result ≡ spec.operator_role token.now }
{
    if token.is_spelled(b"-") {
        Role::Minus
    } else if token.is_spelled(b"~") {
        Role::Tilde
    } else if token.is_spelled(b":=") {
        Role::Assigns
    } else if token.is_spelled(b"^") {
        Role::Operator(Precedence::Power)
    } else if is_product(token) {
        Role::Operator(Precedence::Product)
    } else if token.is_spelled(b"+") {
        Role::Operator(Precedence::Sum)
    } else if is_comparison(token) {
        Role::Operator(Precedence::Comparison)
    } else if is_logical(token) {
        Role::Operator(Precedence::Logical)
    } else {
        Role::Other
    }
}

fn punctuation_role(token: &Token) -> Role
    ensures { result ≡ spec.punctuation_role token.now }
{
    if token.is_spelled(b".") {
        Role::Dot
    } else if token.is_spelled(b",") {
        Role::Comma
    } else if token.is_spelled(b";") {
        Role::Semicolon
    } else if token.is_spelled(b"=>") {
        Role::Arrow
    } else if token.is_spelled(b"::") {
        Role::Colons
    } else {
        Role::Other
    }
}

/// What a token is to the grammar.
pub fn role_of(token: &Token) -> Role
    ensures { result ≡ spec.role_of token.now }
{
    match token.kind {
        TokenKind::Name => name_role(token),
        TokenKind::Escaped => Role::Named,
        TokenKind::Symbol => Role::Symbol,
        TokenKind::Int => Role::Integer,
        TokenKind::Char => Role::Character,
        TokenKind::Str => Role::Text,
        TokenKind::Mark => mark_role(token),
        TokenKind::PatternVar => Role::Other,
        TokenKind::CallSite => Role::Other,
        TokenKind::Operator => operator_role(token),
        TokenKind::Punctuation => punctuation_role(token),
    }
}

/// How tightly an operator of two operands binds.
pub fn precedence_of(role: Role) -> Option<Precedence>
    ensures { result ≡ spec.precedence_of role }
{
    match role {
        Role::Operator(precedence) => Some(precedence),
        Role::Minus => Some(Precedence::Sum),
        _ => None,
    }
}
