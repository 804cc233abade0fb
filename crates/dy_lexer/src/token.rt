//! The token of a piece.

ghost use Rattle.std.specs.Prelude.{◌≡◌, ◌∷◌, [], ◌+◌, ◌-◌, ◌++◌, ◌≤◌, ◌<◌, ◌^◌, length, take};
ghost use Rattle.std.specs.Prelude.{drop, pos, true, false, Ok};
ghost use Rattle.dy_base.specs.Folding.{folded};
ghost use Rattle.dy_pieces.specs.Numbers.{fitting, value_of};
ghost use Rattle.dy_pieces.specs.Scan.{decoded};
ghost use Rattle.dy_lexer.specs.Tokens as tokens;
ghost use Rattle.dy_lexer.specs.Tokens.{Gives, fault_at, inner, token_of, token_at, added};
ghost use Rattle.dy_lexer.specs.Tokens.{added_piece, with_token, is_string};

use dy_base::{Fault, Items, Kind, Place, Refusal, Text};
use dy_pieces::{Piece, decoded, folded, is_digit, is_letter, value_of};
use dy_tree::{Token, TokenKind};
use std::alloc::{AllocFailed, Global};

/// A fault of this kind, whose subject is written later.
pub(crate) fn fault(alloc: Global, kind: Kind, place: Place) -> Refusal
    ensures { result ≡ Refusal.Fault (fault_at kind place) }
{
    Refusal::Fault(Fault {
        kind,
        library: Text::from_vec(Vec::new(alloc)),
        place: Some(place),
        shown: Items::new(alloc),
        numbers: Items::new(alloc),
    })
}

fn token(kind: TokenKind, text: Text, number: i64, place: Place) -> Token
    ensures { result ≡ tokens.token kind text number place }
{
    Token {
        kind,
        text,
        number,
        place,
        origin: 0,
        module: 0,
    }
}

/// What is between an opener of `n` bytes and the closing quote.
fn inner(n: usize, bytes: &[u8]) -> &[u8]
    ensures { result.now ≡ inner n bytes.now }
{
    if bytes.len() <= n {
        &bytes[..0]
    } else {
        &bytes[n..bytes.len() - 1]
    }
}

fn after(n: usize, bytes: &[u8]) -> &[u8]
    ensures { result.now ≡ drop n bytes.now }
{
    if bytes.len() < n {
        &bytes[..0]
    } else {
        &bytes[n..]
    }
}

/// A token whose text is these bytes in lower case.
fn plain(alloc: Global, kind: TokenKind, bytes: &[u8], place: Place) -> Result<Token, Refusal>
    ensures { Gives (λ t. t) result (tokens.plain kind (folded bytes.now) place) }
{
    Ok(token(kind, folded(alloc, bytes)?, 0, place))
}

/// Whether an integer may not stand directly before these bytes.
fn runs_on(bytes: &[u8]) -> bool
    ensures { result ≡ tokens.runs_on bytes.now }
{
    match bytes {
        [] => false,
        [b'_', ..] => true,
        [b'.'] => false,
        [b'.', d, ..] => is_digit(*d),
        [b, ..] => is_letter(*b),
    }
}

fn integer(alloc: Global, place: Place, bytes: &[u8]) -> Result<Token, Refusal>
    ensures { Gives (λ t. t) result
        (tokens.integer place bytes.now (fitting (value_of bytes.now))) }
{
    match value_of(bytes) {
        None => Err(fault(alloc, Kind::WideInteger, place)),
        Some(n) => Ok(token(TokenKind::Int, folded(alloc, bytes)?, n as i64, place)),
    }
}

fn integer_at(alloc: Global, place: Place, bytes: &[u8], rest: &[u8]) -> Result<Token, Refusal>
    ensures { Gives (λ t. t) result (tokens.integer_at place bytes.now rest.now) }
{
    if runs_on(rest) {
        Err(fault(alloc, Kind::BadLiteral, place))
    } else {
        integer(alloc, place, bytes)
    }
}

fn quoted_symbol(alloc: Global, place: Place, bytes: &[u8]) -> Result<Token, Refusal>
    ensures { Gives (λ t. t) result (tokens.quoted_symbol place (decoded false bytes.now)) }
{
    match decoded(false, Vec::new(alloc), bytes)? {
        Some(values) => plain(alloc, TokenKind::Symbol, values.as_slice(), place),
        None => Err(fault(alloc, Kind::BadLiteral, place)),
    }
}

fn symbol_at(alloc: Global, place: Place, bytes: &[u8]) -> Result<Token, Refusal>
    ensures { Gives (λ t. t) result (tokens.symbol_at place bytes.now) }
{
    match bytes {
        [] => plain(alloc, TokenKind::Symbol, bytes, place),
        [b'#', ..] => quoted_symbol(alloc, place, inner(2, bytes)),
        [_, ..] => plain(alloc, TokenKind::Symbol, &bytes[..bytes.len() - 1], place),
    }
}

fn character(alloc: Global, place: Place, bytes: &[u8]) -> Result<Token, Refusal>
    ensures { Gives (λ t. t) result (tokens.one_character place (decoded false bytes.now)) }
{
    match decoded(false, Vec::new(alloc), bytes)? {
        Some(values) => {
            if values.len() == 1 {
                Ok(token(TokenKind::Char, Text::from_vec(values), 0, place))
            } else {
                Err(fault(alloc, Kind::BadLiteral, place))
            }
        }
        None => Err(fault(alloc, Kind::BadLiteral, place)),
    }
}

/// The characters of a string, after what stands before them.
fn string_after(alloc: Global, first: Token, place: Place, bytes: &[u8]) -> Result<Token, Refusal>
    ensures { Gives (λ t. t) result (tokens.string_after first place (decoded true bytes.now)) }
{
    let Token {
        kind,
        text,
        number,
        place: first_place,
        origin,
        module,
    } = first;
    match decoded(true, text.into_vec(), bytes)? {
        Some(values) => Ok(Token {
            kind,
            text: Text::from_vec(values),
            number,
            place: first_place,
            origin,
            module,
        }),
        None => Err(fault(alloc, Kind::BadLiteral, place)),
    }
}

/// The token of a piece, and before what it stands.
fn token_of(
    alloc: Global,
    kind: TokenKind,
    place: Place,
    bytes: &[u8],
    rest: &[u8],
) -> Result<Token, Refusal>
    ensures { Gives (λ t. t) result (token_of kind place bytes.now rest.now) }
{
    match kind {
        TokenKind::Name => plain(alloc, kind, bytes, place),
        TokenKind::Escaped => plain(alloc, kind, after(1, bytes), place),
        TokenKind::Symbol => symbol_at(alloc, place, bytes),
        TokenKind::Int => integer_at(alloc, place, bytes, rest),
        TokenKind::Char => character(alloc, place, inner(1, bytes)),
        TokenKind::Str => string_after(
            alloc,
            token(kind, Text::from_vec(Vec::new(alloc)), 0, place),
            place,
            inner(1, bytes),
        ),
        TokenKind::Mark => plain(alloc, kind, bytes, place),
        TokenKind::PatternVar => plain(alloc, kind, bytes, place),
        TokenKind::CallSite => plain(alloc, kind, after(2, bytes), place),
        TokenKind::Operator => plain(alloc, kind, bytes, place),
        TokenKind::Punctuation => plain(alloc, kind, bytes, place),
    }
}

fn is_string(kind: TokenKind) -> bool
    ensures { result ≡ is_string kind }
{
    matches!(kind, TokenKind::Str)
}

fn pushed(tokens: Vec<Token>, token: Token) -> Result<Vec<Token>, Refusal>
    ensures { Gives (λ v. v.items) result (Ok (tokens.items ++ token ∷ [])) }
{
    let mut tokens = tokens;
    tokens.push(token)?;
    Ok(tokens)
}

/// The tokens, and after them a token that is no string.
fn add_token(tokens: Vec<Token>, token: Token) -> Result<Vec<Token>, Refusal>
    requires { is_string token.kind ≡ false }
    ensures { Gives (λ v. v.items) result (Ok (with_token tokens.items token)) }
{
    pushed(tokens, token)
}

/// A string after a token, to which it is joined if that is one too.
fn add_after(
    alloc: Global,
    tokens: Vec<Token>,
    last: Token,
    place: Place,
    bytes: &[u8],
    rest: &[u8],
) -> Result<Vec<Token>, Refusal>
    ensures { Gives (λ v. v.items) result
        (added (tokens.items ++ last ∷ []) (token_of TokenKind.Str place bytes.now rest.now)) }
{
    if is_string(last.kind) {
        let whole = string_after(alloc, last, place, inner(1, bytes))?;
        pushed(tokens, whole)
    } else {
        let tokens = pushed(tokens, last)?;
        let second = token_of(alloc, TokenKind::Str, place, bytes, rest)?;
        pushed(tokens, second)
    }
}

fn add_string(
    alloc: Global,
    tokens: Vec<Token>,
    place: Place,
    bytes: &[u8],
    rest: &[u8],
) -> Result<Vec<Token>, Refusal>
    ensures { Gives (λ v. v.items) result
        (added tokens.items (token_of TokenKind.Str place bytes.now rest.now)) }
{
    let mut tokens = tokens;
    match tokens.pop() {
        None => {
            let first = token_of(alloc, TokenKind::Str, place, bytes, rest)?;
            pushed(tokens, first)
        }
        Some(last) => add_after(alloc, tokens, last, place, bytes, rest),
    }
}

/// The tokens, and after them that of a piece.
pub(crate) fn add_piece(
    alloc: Global,
    tokens: Vec<Token>,
    piece: Piece,
    place: Place,
    bytes: &[u8],
    rest: &[u8],
) -> Result<Vec<Token>, Refusal>
    ensures { Gives (λ v. v.items) result
        (added_piece tokens.items (token_at piece place bytes.now rest.now)) }
{
    match piece {
        Piece::Comment => Ok(tokens),
        Piece::Blank => Ok(tokens),
        Piece::Token(kind) => {
            if is_string(kind) {
                add_string(alloc, tokens, place, bytes, rest)
            } else {
                let token = token_of(alloc, kind, place, bytes, rest)?;
                add_token(tokens, token)
            }
        }
    }
}
