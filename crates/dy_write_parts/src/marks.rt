//! Marks and groups of expressions and statements.

ghost use Rattle.std.specs.Prelude.{◌≡◌, ◌++◌, ◌∷◌, [], OnOk};
ghost use Rattle.dy_tree.specs.Fragments.{seen_fragments};
ghost use Rattle.dy_rules.specs.Marks.{assigns_mark, equals_mark, statement_group};

use crate::mark::{made, push_group, push_token};
use dy_tree::{Fragment, Token, TokenKind};
use std::alloc::{AllocError, Global};

/// Adds `:=`.
pub fn push_assigns(alloc: Global, out: &mut Vec<Fragment>) -> Result<(), AllocError>
    ensures { OnOk result (seen_fragments out.new.items
        ≡ seen_fragments out.old.items ++ assigns_mark ∷ []) }
{
    let token = made(alloc, TokenKind::Operator, b":=")?;
    push_token(out, token)
}

/// Adds `=`.
pub fn push_equals(alloc: Global, out: &mut Vec<Fragment>) -> Result<(), AllocError>
    ensures { OnOk result (seen_fragments out.new.items
        ≡ seen_fragments out.old.items ++ equals_mark ∷ []) }
{
    let token = made(alloc, TokenKind::Operator, b"=")?;
    push_token(out, token)
}

/// Adds a statement: its word, these fragments, and `end`.
pub fn push_statement(
    alloc: Global,
    word: &Token,
    inner: Vec<Fragment>,
    out: &mut Vec<Fragment>,
) -> Result<(), AllocError>
    ensures { OnOk result (seen_fragments out.new.items
        ≡ seen_fragments out.old.items ++ statement_group word.now (seen_fragments inner.items)
        ∷ []) }
{
    let opener = word.copy()?;
    let closer = made(alloc, TokenKind::Name, b"end")?;
    push_group(out, opener, inner, closer)
}
