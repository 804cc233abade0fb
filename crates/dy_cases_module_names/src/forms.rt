//! The forms of files.

use crate::files::File;
use dy_base::{Items, Place, Refusal};
use dy_fragment::group;
use dy_lexer::lex;
use dy_module_names::in_module;
use dy_reader::parse;
use dy_surface::to_core;
use dy_term::Draft;
use dy_tree::{Fragment, Words};
use std::alloc::{AllocError, Global};

/// The most bytes of a file that are read.
const FILE_LIMIT: usize = 4_194_304;

/// The fragments of a file, by its number, as those of a module.
pub(crate) fn fragments_of(
    alloc: Global,
    number: usize,
    module: u32,
    file: &File,
    words: &Words,
) -> Result<Items<Fragment>, Refusal> {
    let bytes = file.text.as_bytes();
    if bytes.len() > FILE_LIMIT {
        return Ok(Items::new(alloc));
    }
    let number = u32::try_from(number).unwrap_or(u32::MAX);
    let source = lex(alloc, number, bytes)?;
    let tokens = in_module(alloc, module, source.tokens)?;
    group(alloc, &tokens, words)
}

fn is_semicolon(fragment: &Fragment) -> bool {
    match fragment {
        Fragment::One(token) => token.is_sign(b";"),
        Fragment::Group { .. } => false,
    }
}

fn place_of(fragment: &Fragment) -> Place {
    match fragment {
        Fragment::One(token) => token.place,
        Fragment::Group { opener, .. } => opener.place,
    }
}

/// Adds what a form is in the core, and where it begins.
fn add_form(
    alloc: Global,
    form: &Vec<Fragment>,
    forms: &mut Vec<(Place, Draft)>,
) -> Result<(), Refusal> {
    if let Some(first) = form.first() {
        let tree = parse(alloc, form)?;
        let place = place_of(first);
        forms.push((place, to_core(alloc, &tree)?))?;
    }
    Ok(())
}

/// Adds what the forms between the semicolons of a file are in the core, and where each begins.
fn add_forms(
    alloc: Global,
    fragments: Items<Fragment>,
    forms: &mut Vec<(Place, Draft)>,
) -> Result<(), Refusal> {
    let mut form = Vec::new(alloc);
    for fragment in fragments.into_vec() {
        if is_semicolon(&fragment) {
            add_form(alloc, &form, forms)?;
            form = Vec::new(alloc);
        } else {
            form.push(fragment)?;
        }
    }
    add_form(alloc, &form, forms)
}

/// The forms of all files of the library's modules, in the order of the files.
pub(crate) fn forms_of(
    alloc: Global,
    files: &[File],
    words: &Words,
) -> Result<Vec<(Place, Draft)>, Refusal> {
    let mut forms = Vec::new(alloc);
    for (number, file) in files.iter().enumerate() {
        if let Some(module) = file.module_number() {
            let fragments = fragments_of(alloc, number, module, file, words)?;
            add_forms(alloc, fragments, &mut forms)?;
        }
    }
    Ok(forms)
}
