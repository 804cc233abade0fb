//! The modules of a library.

ghost use Rattle.std.specs.Prelude.{◌≡◌, IfOk};
ghost use Rattle.dy_tree.specs.Fragments.{seen_fragments};
ghost use Rattle.dy_module_forms.specs.Forms.{forms_of};
ghost use Rattle.dy_doubled.specs.Doubled.{first_form};
ghost use Rattle.dy_views.specs.Views.{AreCompiled};
ghost use Rattle.dy_library_modules.specs.Modules as spec;
ghost use Rattle.dy_library_modules.specs.Modules.{AnswersSorted, AnswersRead, AnswersModules};

use crate::user_files::group_users;
use dy_base::{Fault, Items, Name, Refusal, fold};
use dy_doubled::{TakenNames, redefined};
use dy_graph::graph;
use dy_lexer::Source;
use dy_module_forms::{Form, Placed, read_forms};
use dy_module_numbers::{Sorted, sort_forms};
use dy_module_tables::ModuleTable;
use dy_modules::NameSet;
use dy_tree::{Fragment, Words};
use dy_views::{Compiled, view_of};
use std::alloc::{AllocError, Global};

/// The modules of a library.
#[derive(Drop)]
pub struct LibraryModules {
    /// Their table, in which nothing is defined.
    pub table: ModuleTable,
    /// The names of the library's own modules, in the order of their numbers. So the module of a
    /// source file is the place of the name that its header gives.
    pub names: NameSet,
    /// A fault at each form of a module whose name the library imports or an earlier form has.
    pub doubled: Items<Fault>,
    /// The library's view: the numbers of all that it uses, directly or not, in load order, and its
    /// own last.
    pub order: Items<u32>,
    /// The numbers of the libraries that its use clauses name, in their order, each once.
    pub uses: Items<u32>,
}

/// The modules that source files name.
fn headers_of(alloc: Global, sources: &[Source]) -> Result<Vec<Name>, AllocError>
    ensures { IfOk result (λ headers. headers.items ≡ spec.headers_of sources.now) }
{
    let mut headers = Vec::new(alloc);
    for file in sources {
        headers.push(fold(alloc, file.module.bytes())?)?;
    }
    Ok(headers)
}

/// The forms that these fragments are, by what they are about.
fn sorted_forms(alloc: Global, fragments: &[Fragment]) -> Result<Sorted, Refusal>
    ensures { AnswersSorted (forms_of (seen_fragments fragments.now)) result }
{
    let forms = read_forms(alloc, fragments)?;
    let sorted = sort_forms(alloc, forms)?;
    Ok(sorted)
}

/// The clauses of the first of these forms, and none where there is no form.
fn first_clauses(libraries: &[Form]) -> &[Placed]
    ensures { result.now ≡ spec.clauses_in (first_form libraries.now) }
{
    match libraries.first() {
        Some(form) => form.clauses.as_slice(),
        None => &[],
    }
}

/// The modules that these fragments define.
fn modules_in(
    alloc: Global,
    library: &Name,
    headers: &Vec<Name>,
    fragments: &Vec<Fragment>,
    compiled: &Compiled,
) -> Result<LibraryModules, Refusal>
    requires { AreCompiled compiled.now }
    ensures { AnswersRead library.now headers.now.items compiled.now
        (forms_of (seen_fragments fragments.now.items)) result }
{
    let sorted = sorted_forms(alloc, fragments)?;
    let clauses = first_clauses(sorted.libraries.as_slice());
    let view = view_of(alloc, compiled, clauses)?;
    let table = graph(alloc, library, headers, fragments, &view.used)?;
    let given = compiled.exports.as_slice();
    let TakenNames {
        library,
        modules: doubled,
    } = redefined(alloc, library, fragments, &view.used, given)?;
    match library {
        Some(fault) => Err(Refusal::Fault(fault)),
        None => Ok(LibraryModules {
            table,
            names: sorted.names,
            doubled,
            order: view.order,
            uses: view.uses,
        }),
    }
}

/// The modules of the library of this name, which these source files are, in their order (DRM 4,
/// "Modules" and "Libraries"; the order of faults is own). `words` are those that are known, and
/// `compiled` are the libraries that were compiled before it. It sees those that the use clauses of
/// its first form name, by its own view of them, as `view_of` of `dy_views` tells it.
///
/// The files whose module is `dylan-user` hold forms of the library and of its modules, and nothing
/// else. In this order are told
///
/// - of the first such file that has a fault: `Syntax` at its first form that is none of a library
///   or a module, or `Unbalanced` and `TooDeep` of its groups, whatever stands earlier; forms that
///   are not complete in front of the fault of the groups are not read;
/// - `UnknownLibrary`, `UnknownModule`, `NameClash`, `NotExported` and `Cycle` of all these forms,
///   as `graph` of `dy_graph` tells them: `UnknownLibrary` also at a use clause of a library that
///   was not compiled;
/// - `Redefined` at the form of the library, where one that was compiled before has its name,
///   whether it is used or not.
///
/// Or the refusal says that memory did not suffice.
pub fn modules_of(
    alloc: Global,
    library: &Name,
    words: &Words,
    sources: &[Source],
    compiled: &Compiled,
) -> Result<LibraryModules, Refusal>
    requires { AreCompiled compiled.now }
    ensures { AnswersModules words.now library.now sources.now compiled.now result }
{
    let fragments = group_users(alloc, words, sources)?.into_vec();
    let headers = headers_of(alloc, sources)?;
    modules_in(alloc, library, &headers, &fragments, compiled)
}
