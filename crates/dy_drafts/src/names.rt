//! Names that are not written.

ghost use Rattle.std.specs.Prelude.{◌≡◌, IfOk};
ghost use Rattle.dy_drafts.specs.Shapes.{has, name_at};
ghost use Rattle.dy_drafts.specs.Parts.{setter_at};

use dy_base::Text;
use dy_tree::{Token, TokenKind};
use std::alloc::{AllocError, Global};

/// Whether one of the adjectives of a definition or a slot has this text.
pub fn has(text: &[u8], words: &[Token]) -> bool
    ensures { result ≡ has text.now words.now }
{
    for word in words {
        if word.is_spelled(text) {
            return true;
        }
    }
    false
}

/// A name that is not written, with the place, the origin and the module of a token.
pub fn name_at(alloc: Global, text: &[u8], token: &Token) -> Result<Token, AllocError>
    ensures { IfOk result (λ name. name ≡ name_at text.now token.now) }
{
    Ok(Token {
        kind: TokenKind::Name,
        text: Text::of(alloc, text)?,
        number: token.number,
        place: token.place,
        origin: token.origin,
        module: token.module,
    })
}

/// The name of the setter of what a name means.
pub fn setter_at(alloc: Global, token: &Token) -> Result<Token, AllocError>
    ensures { IfOk result (λ name. name ≡ setter_at token.now) }
{
    let mut text = Vec::from_slice(alloc, token.text.bytes())?;
    text.extend_from_slice(b"-setter")?;
    Ok(Token {
        kind: TokenKind::Name,
        text: Text::from_vec(text),
        number: token.number,
        place: token.place,
        origin: token.origin,
        module: token.module,
    })
}

/// A token that may be left out, in memory of its own.
pub fn copy_maybe(token: &Option<Token>) -> Result<Option<Token>, AllocError>
    ensures { IfOk result (λ copy. copy ≡ token.now) }
{
    match token {
        None => Ok(None),
        Some(token) => Ok(Some(token.copy()?)),
    }
}

/// Tokens in memory of their own.
pub fn copy_all(alloc: Global, tokens: &Vec<Token>) -> Result<Vec<Token>, AllocError>
    ensures { IfOk result (λ copies. copies.items ≡ tokens.now.items) }
{
    let mut copies = Vec::new(alloc);
    for token in tokens {
        copies.push(token.copy()?)?;
    }
    Ok(copies)
}
