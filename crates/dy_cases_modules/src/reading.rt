//! Files as the table of their modules.

use crate::files::File;
use crate::libraries::libraries;
use dy_base::{Items, Name, Refusal, fold};
use dy_fragment::group;
use dy_graph::graph;
use dy_lexer::lex;
use dy_module_tables::ModuleTable;
use dy_tree::{Fragment, MacroKind, Word, Words};
use std::alloc::{AllocError, Global};

/// The most bytes of a file that are read.
const FILE_LIMIT: usize = 4_194_304;

/// The words that the forms of the cases begin with.
fn form_words(alloc: Global) -> Result<Words, AllocError> {
    let mut items = Items::new(alloc);
    for name in ["library", "module", "method", "class"] {
        items.push(Word {
            module: 0,
            name: fold(alloc, name.as_bytes())?,
            kind: MacroKind::Definition,
            at: None,
        })?;
    }
    Ok(Words { items })
}

/// Adds the fragments of a file, by its number, where it is one of `dylan-user`.
fn add_fragments(
    alloc: Global,
    number: usize,
    file: &File,
    words: &Words,
    forms: &mut Vec<Fragment>,
) -> Result<(), Refusal> {
    let bytes = file.text.as_bytes();
    if file.module.as_str() != "dylan-user" || bytes.len() > FILE_LIMIT {
        return Ok(());
    }
    let number = u32::try_from(number).unwrap_or(u32::MAX);
    let source = lex(alloc, number, bytes)?;
    for fragment in group(alloc, &source.tokens, words)?.into_vec() {
        forms.push(fragment)?;
    }
    Ok(())
}

fn headers(alloc: Global, files: &[File]) -> Result<Vec<Name>, AllocError> {
    let mut headers = Vec::new(alloc);
    for file in files {
        headers.push(fold(alloc, file.module.as_bytes())?)?;
    }
    Ok(headers)
}

/// The table of the modules of the library `l`, which has these files, or its fault.
pub(crate) fn table_of(alloc: Global, files: &[File]) -> Result<ModuleTable, Refusal> {
    let words = form_words(alloc)?;
    let mut forms = Vec::new(alloc);
    for (number, file) in files.iter().enumerate() {
        add_fragments(alloc, number, file, &words, &mut forms)?;
    }
    graph(
        alloc,
        &fold(alloc, b"l")?,
        &headers(alloc, files)?,
        &forms,
        &libraries(alloc)?,
    )
}
