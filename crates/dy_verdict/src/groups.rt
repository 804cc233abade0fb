//! The groups of a library's files.

ghost use Rattle.std.specs.Prelude.{◌≡◌, map, IfOk};
ghost use Rattle.dy_verdict.specs.Trees.{form_tokens, tokens_in, GivesTrees};

use dy_base::{Items, Refusal};
use dy_fragment::group;
use dy_lexer::Source;
use dy_library_modules::is_user;
use dy_module_names::in_module;
use dy_modules::NameSet;
use dy_tree::{Fragment, Token, Words};
use std::alloc::{AllocError, Global};

/// Tokens as those of the module of this number, or none where there is no such module.
fn tokens_in(
    alloc: Global,
    number: Option<usize>,
    tokens: Items<Token>,
) -> Result<Items<Token>, AllocError>
    ensures { IfOk result (λ list. list ≡ tokens_in number tokens) }
{
    match number {
        Some(number) => match u32::try_from(number) {
            Ok(number) => in_module(alloc, number, tokens),
            Err(_) => Err(AllocError),
        },
        None => Ok(Items::new(alloc)),
    }
}

/// The tokens of a file's forms, in its module, by the names of the modules in the order of their
/// numbers.
fn form_tokens(alloc: Global, names: &NameSet, source: Source) -> Result<Items<Token>, AllocError>
    ensures { IfOk result (λ tokens. tokens ≡ form_tokens names.now source) }
{
    if is_user(&source) {
        return Ok(Items::new(alloc));
    }
    let number = names.place_of(source.module.bytes());
    tokens_in(alloc, number, source.tokens)
}

/// The tokens of the forms of files, file by file.
pub(crate) fn files_of(
    alloc: Global,
    names: &NameSet,
    sources: Items<Source>,
) -> Result<Vec<Items<Token>>, AllocError>
    ensures { IfOk result (λ files. files.items ≡ map (form_tokens names.now) sources) }
{
    let mut files = Vec::new(alloc);
    for source in sources.into_vec() {
        files.push(form_tokens(alloc, names, source)?)?;
    }
    Ok(files)
}

/// The groups of files of these tokens, which are given back when they are grouped; or the first
/// fault of the first file that has one.
pub(crate) fn group_files(
    alloc: Global,
    words: &Words,
    files: Vec<Items<Token>>,
) -> Result<Vec<Vec<Fragment>>, Refusal>
    ensures { GivesTrees words.now files.items result }
{
    let mut trees = Vec::new(alloc);
    for tokens in files {
        let fragments = group(alloc, &tokens, words)?;
        trees.push(fragments.into_vec())?;
    }
    Ok(trees)
}
