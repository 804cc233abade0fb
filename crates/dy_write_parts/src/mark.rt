//! Tokens and groups that stand in no text.

ghost use Rattle.std.specs.Prelude.{◌≡◌, ◌++◌, [], ◌∷◌, IfOk, OnOk};
ghost use Rattle.dy_tree.specs.Fragments.{one, group, pack, seen_fragments};
ghost use Rattle.dy_tree.specs.declared.token.TokenKind.TheVariants as kinds;
ghost use Rattle.dy_rules.specs.Marks as spec;
ghost use Rattle.dy_rules.specs.FormWriting.{key_mark_of};

use dy_base::{Place, Text};
use dy_tree::{Fragment, Token, TokenKind};
use std::alloc::{AllocError, Global};

/// A token that stands in no text.
pub fn made(alloc: Global, kind: TokenKind, text: &[u8]) -> Result<Token, AllocError>
    ensures { IfOk result (λ token. token ≡ spec.made kind text.now) }
{
    let text = Text::of(alloc, text)?;
    Ok(Token {
        kind,
        text,
        number: 0,
        place: Place { file: 0, offset: 0 },
        origin: 0,
        module: 0,
    })
}

/// Adds a token at the end.
pub fn push_token(out: &mut Vec<Fragment>, token: Token) -> Result<(), AllocError>
    ensures { OnOk result (seen_fragments out.new.items
        ≡ seen_fragments out.old.items ++ one token ∷ []) }
{
    out.push(Fragment::One(token))?;
    Ok(())
}

/// Adds a punctuation mark at the end.
pub fn push_mark(alloc: Global, out: &mut Vec<Fragment>, text: &[u8]) -> Result<(), AllocError>
    ensures { OnOk result (seen_fragments out.new.items
        ≡ seen_fragments out.old.items ++ one (spec.mark text.now) ∷ []) }
{
    let token = made(alloc, TokenKind::Punctuation, text)?;
    push_token(out, token)
}

/// Adds a name, which may be a word.
pub fn push_word(alloc: Global, out: &mut Vec<Fragment>, text: &[u8]) -> Result<(), AllocError>
    ensures { OnOk result (seen_fragments out.new.items
        ≡ seen_fragments out.old.items ++ spec.word_mark text.now ∷ []) }
{
    let token = made(alloc, TokenKind::Name, text)?;
    push_token(out, token)
}

/// Adds a symbol.
pub fn push_symbol(alloc: Global, out: &mut Vec<Fragment>, text: &[u8]) -> Result<(), AllocError>
    ensures { OnOk result (seen_fragments out.new.items
        ≡ seen_fragments out.old.items ++ key_mark_of text.now ∷ []) }
{
    let token = made(alloc, TokenKind::Symbol, text)?;
    push_token(out, token)
}

/// Adds an operator.
pub fn push_operator(alloc: Global, out: &mut Vec<Fragment>, text: &[u8]) -> Result<(), AllocError>
    ensures { OnOk result (seen_fragments out.new.items
        ≡ seen_fragments out.old.items ++ one (spec.made kinds.Operator text.now) ∷ []) }
{
    let token = made(alloc, TokenKind::Operator, text)?;
    push_token(out, token)
}

/// Adds a mark of parameter lists, such as `#rest`.
pub fn push_hash_word(alloc: Global, out: &mut Vec<Fragment>, text: &[u8]) -> Result<(), AllocError>
    ensures { OnOk result (seen_fragments out.new.items
        ≡ seen_fragments out.old.items ++ one (spec.made kinds.Mark text.now) ∷ []) }
{
    let token = made(alloc, TokenKind::Mark, text)?;
    push_token(out, token)
}

/// Adds a group at the end.
pub fn push_group(
    out: &mut Vec<Fragment>,
    opener: Token,
    inner: Vec<Fragment>,
    closer: Token,
) -> Result<(), AllocError>
    ensures { OnOk result (seen_fragments out.new.items
        ≡ seen_fragments out.old.items ++ group opener (pack (seen_fragments inner.items)) closer
        ∷ []) }
{
    let fragment = Fragment::group(opener, inner, closer);
    out.push(fragment)?;
    Ok(())
}

/// Adds round brackets with these fragments in them.
pub fn push_round(
    alloc: Global,
    out: &mut Vec<Fragment>,
    inner: Vec<Fragment>,
) -> Result<(), AllocError>
    ensures { OnOk result (seen_fragments out.new.items
        ≡ seen_fragments out.old.items ++ spec.in_round (seen_fragments inner.items) ∷ []) }
{
    let opener = made(alloc, TokenKind::Punctuation, b"(")?;
    let closer = made(alloc, TokenKind::Punctuation, b")")?;
    push_group(out, opener, inner, closer)
}

/// Adds the group of a list, which keeps its opener.
pub fn push_list_group(
    alloc: Global,
    out: &mut Vec<Fragment>,
    opener: &Token,
    inner: Vec<Fragment>,
) -> Result<(), AllocError>
    ensures { OnOk result (seen_fragments out.new.items
        ≡ seen_fragments out.old.items ++ spec.list_group opener.now (seen_fragments inner.items)
        ∷ []) }
{
    let opener = opener.copy()?;
    let closer = made(alloc, TokenKind::Punctuation, b")")?;
    push_group(out, opener, inner, closer)
}

/// Adds the group of a vector or of an index, which keeps its opener.
pub fn push_square_group(
    alloc: Global,
    out: &mut Vec<Fragment>,
    opener: &Token,
    inner: Vec<Fragment>,
) -> Result<(), AllocError>
    ensures { OnOk result (seen_fragments out.new.items
        ≡ seen_fragments out.old.items ++ spec.square_group opener.now (seen_fragments inner.items)
        ∷ []) }
{
    let opener = opener.copy()?;
    let closer = made(alloc, TokenKind::Punctuation, b"]")?;
    push_group(out, opener, inner, closer)
}
