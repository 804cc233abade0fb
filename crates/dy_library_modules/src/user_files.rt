//! The files that define a library and its modules, grouped.

ghost use Rattle.std.specs.Prelude.{◌≡◌};
ghost use Rattle.dy_library_modules.specs.Users as spec;
ghost use Rattle.dy_library_modules.specs.Users.{AnswersFile, AnswersUsers};

use dy_base::{Items, Refusal};
use dy_complete_forms::complete_forms;
use dy_fragment::group;
use dy_lexer::Source;
use dy_module_forms::read_forms;
use dy_tree::{Fragment, Words};
use std::alloc::Global;

/// Whether a file defines the library or its modules.
pub fn is_user(file: &Source) -> bool
    ensures { result ≡ spec.is_user file.now }
{
    file.module.bytes() == b"dylan-user".as_slice()
}

/// The groups of a file that holds forms of a library and of modules, and nothing else. Where they
/// have a fault, the forms in front of it are read, and a fault of theirs is told.
fn group_file(alloc: Global, words: &Words, file: &Source) -> Result<Items<Fragment>, Refusal>
    ensures { AnswersFile words.now file.now result }
{
    match group(alloc, &file.tokens, words) {
        Ok(fragments) => {
            read_forms(alloc, fragments.as_slice())?;
            Ok(fragments)
        }
        Err(Refusal::Fault(fault)) => {
            let complete = complete_forms(alloc, &file.tokens, words)?;
            read_forms(alloc, complete.as_slice())?;
            Err(Refusal::Fault(fault))
        }
        Err(Refusal::Memory) => Err(Refusal::Memory),
    }
}

/// The groups of the files that define a library and its modules, one file behind the other, or the
/// fault of the first of them that has one.
pub(crate) fn group_users(
    alloc: Global,
    words: &Words,
    sources: &[Source],
) -> Result<Items<Fragment>, Refusal>
    ensures { AnswersUsers words.now sources.now result }
{
    let mut fragments = Vec::new(alloc);
    for file in sources {
        if is_user(file) {
            let mut found = group_file(alloc, words, file)?.into_vec();
            fragments.append(&mut found)?;
        }
    }
    Ok(Items::from_vec(fragments))
}
