//! What stands between a word and its `end`, and between brackets of any sort.

ghost use Rattle.std.specs.Prelude.{◌≡◌, IfOk, option_map};
ghost use Rattle.dy_tree.specs.Fragments.{pack, seen_fragments};
ghost use Rattle.dy_rules.specs.Fragments.{items_of, tree_inside};
ghost use Rattle.dy_rules.specs.StatementReading.{statement_items};
ghost use Rattle.dy_rules_depth.specs.Capping.{capped};
ghost use Rattle.dy_read_outers.specs.Grown.{read_grown};

use crate::arms::{case, select};
use crate::blocks::block;
use crate::choice::if_statement;
use crate::expressions::expression;
use crate::for_loops::for_loop;
use crate::statements::{begin, guarded, method_statement};
use dy_read_operators::lists::{list, vector};
use dy_read_outers::grown::Grown;
use dy_tree::{Bracket, Fragment, Keyword, Splitting, Token};
use std::alloc::{AllocError, Global};

/// The statement between a word and its `end`.
#[cycle(read)]
pub fn statement(
    alloc: Global,
    kind: Keyword,
    word: &Token,
    inner: &[Fragment],
) -> Result<Option<Grown>, AllocError>
    ensures { IfOk result (λ found. option_map read_grown found
        ≡ option_map capped (statement_items kind word.now (items_of (seen_fragments inner.now)))) }
{
    match kind {
        Keyword::Begin => begin(alloc, word, inner),
        Keyword::If => if_statement(alloc, word, inner),
        Keyword::Guard(guard) => guarded(alloc, guard, word, inner),
        Keyword::Case => case(alloc, word, inner),
        Keyword::Select => select(alloc, word, inner),
        Keyword::Block => block(alloc, word, inner),
        Keyword::For => for_loop(alloc, word, inner),
        Keyword::Method => method_statement(alloc, word, inner),
        Keyword::Define => Ok(None),
    }
}

/// The tree that a group holds.
#[cycle(read)]
pub fn inside(
    alloc: Global,
    bracket: Bracket,
    opener: &Token,
    inner: &[Fragment],
) -> Result<Option<Grown>, AllocError>
    ensures { IfOk result (λ found. option_map read_grown found
        ≡ option_map capped (tree_inside bracket opener.now (pack (seen_fragments inner.now))
        (items_of (seen_fragments inner.now)))) }
{
    match bracket {
        Bracket::SharpRound => list(alloc, opener, inner),
        Bracket::SharpSquare => vector(alloc, opener, inner),
        Bracket::Statement(kind) => statement(alloc, kind, opener, inner),
        Bracket::Round | Bracket::Square | Bracket::Hidden | Bracket::Special => {
            expression(alloc, Splitting::Nothing, inner)
        }
    }
}
