//! Which words split a statement.

ghost use Rattle.std.specs.Prelude.{◌≡◌};
ghost use Rattle.dy_tree.specs.declared.splitters.Splitting.TheVariants as splittings;
ghost use Rattle.dy_rules.specs.Productions as productions;
ghost use Rattle.dy_rules.specs.Roles as spec;

use crate::role::role_of;
use dy_tree::{Role, Splitter, Splitting, Token, TokenKind};

fn spelled_splitter(token: &Token) -> Splitter
    ensures { result ≡ spec.spelled_splitter token.now }
{
    if token.is_spelled(b"else") {
        Splitter::Else
    } else if token.is_spelled(b"elseif") {
        Splitter::Elseif
    } else if token.is_spelled(b"afterwards") {
        Splitter::Afterwards
    } else if token.is_spelled(b"cleanup") {
        Splitter::Cleanup
    } else if token.is_spelled(b"exception") {
        Splitter::Exception
    } else if token.is_spelled(b"finally") {
        Splitter::Finally
    } else if token.is_spelled(b"then") {
        Splitter::Then
    } else if token.is_spelled(b"from") {
        Splitter::From
    } else if token.is_spelled(b"to") {
        Splitter::To
    } else if token.is_spelled(b"above") {
        Splitter::Above
    } else if token.is_spelled(b"below") {
        Splitter::Below
    } else if token.is_spelled(b"by") {
        Splitter::By
    } else if token.is_spelled(b"in") {
        Splitter::In
    } else {
        Splitter::Absent
    }
}

/// Which of these words a token is. An escaped name is none.
pub fn splitter_of(token: &Token) -> Splitter
    ensures { result ≡ spec.splitter_of token.now }
{
    match role_of(token) {
        Role::Named => match token.kind {
            TokenKind::Name => spelled_splitter(token),
            _ => Splitter::Absent,
        },
        _ => Splitter::Absent,
    }
}

fn splits_steps(splitter: Splitter) -> bool
    ensures { result ≡ spec.splits_as splittings.Steps splitter }
{
    match splitter {
        Splitter::Then | Splitter::From | Splitter::To => true,
        Splitter::Above | Splitter::Below | Splitter::By => true,
        _ => false,
    }
}

fn splits_as(splitting: Splitting, splitter: Splitter) -> bool
    ensures { result ≡ spec.splits_as splitting splitter }
{
    match splitting {
        Splitting::Nothing => false,
        Splitting::Branches => matches!(splitter, Splitter::Else | Splitter::Elseif),
        Splitting::Endings => {
            matches!(
                splitter,
                Splitter::Afterwards | Splitter::Cleanup | Splitter::Exception
            )
        }
        Splitting::LastPart => matches!(splitter, Splitter::Finally),
        Splitting::Steps => splits_steps(splitter),
        Splitting::Tests => matches!(splitter, Splitter::By),
    }
}

/// Whether a token splits a statement.
pub fn splits(splitting: Splitting, token: &Token) -> bool
    ensures { result ≡ spec.splits splitting token.now }
{
    splits_as(splitting, splitter_of(token))
}

/// Whether a word sets the limit of a loop: `to`, `above` or `below`.
pub fn is_limit_word(splitter: Splitter) -> bool
    ensures { result ≡ productions.is_limit_word splitter }
{
    matches!(splitter, Splitter::To | Splitter::Above | Splitter::Below)
}
