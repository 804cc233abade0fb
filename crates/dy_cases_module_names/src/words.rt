//! The words that begin statements and that say what is defined (DRM 4; 9; DRM, appendix A).

use dy_base::{Items, fold};
use dy_tree::{MacroKind, Word, Words};
use std::alloc::{AllocError, Global};

const STATEMENTS: [&str; 10] = [
    "begin", "block", "case", "for", "if", "method", "select", "unless", "until", "while",
];

const DEFINITIONS: [&str; 10] = [
    "class", "constant", "domain", "function", "generic", "library", "macro", "method", "module",
    "variable",
];

fn add_words(
    alloc: Global,
    words: &mut Items<Word>,
    kind: MacroKind,
    names: &[&str],
) -> Result<(), AllocError> {
    for name in names {
        let name = fold(alloc, name.as_bytes())?;
        words.push(Word {
            module: 0,
            name,
            kind,
            at: None,
        })?;
    }
    Ok(())
}

/// All words that are known.
pub(crate) fn words(alloc: Global) -> Result<Words, AllocError> {
    let mut items = Items::new(alloc);
    add_words(alloc, &mut items, MacroKind::Statement, &STATEMENTS)?;
    add_words(alloc, &mut items, MacroKind::Definition, &DEFINITIONS)?;
    Ok(Words { items })
}
