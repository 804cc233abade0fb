//! Tables of the modules that the forms of a file define.

ghost use Rattle.std.specs.Prelude.{◌<◌, ◌^◌, length};

use crate::failure::Failure;
use dy_base::{Items, Name, fold};
use dy_fragment::group;
use dy_graph::graph;
use dy_lexer::lex;
use dy_tree::{MacroKind, Word, Words};
use std::alloc::{AllocError, Global};

/// The words that begin the two forms.
fn form_words(alloc: Global) -> Result<Words, AllocError> {
    let mut items = Items::new(alloc);
    for name in [b"library".as_slice(), b"module".as_slice()] {
        items.push(Word {
            module: 0,
            name: fold(alloc, name)?,
            kind: MacroKind::Definition,
            at: None,
        })?;
    }
    Ok(Words { items })
}

/// The name of the library that the file of this text defines.
fn library(alloc: Global) -> Result<Name, AllocError> {
    fold(alloc, b"l")
}

/// How many tokens a source file has whose modules have a table.
pub(crate) fn count_in_table(alloc: Global, bytes: &[u8]) -> Result<usize, Failure>
    requires { length bytes.now < 2 ^ 32 }
{
    let source = lex(alloc, 0, bytes)?;
    let forms = group(alloc, &source.tokens, &form_words(alloc)?)?.into_vec();
    let headers = Vec::new(alloc);
    let used = Vec::new(alloc);
    graph(alloc, &library(alloc)?, &headers, &forms, &used)?;
    Ok(source.tokens.len())
}
