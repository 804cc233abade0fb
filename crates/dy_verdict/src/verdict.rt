//! The verdict on a library.

ghost use Rattle.std.specs.Prelude.{◌≡◌, ◌++◌, [], ◌∷◌, map, IfOk, IfErr};
ghost use Rattle.dy_folded_names.specs.Folded.{ExportsAreLower};
ghost use Rattle.dy_views.specs.Views.{AreCompiled, AreThere, order_of};
ghost use Rattle.dy_library_rows.specs.Libraries.{seen_form};
ghost use Rattle.dy_library_modules.specs.Texts.{AreShort, AreFew};
ghost use Rattle.dy_library_modules.specs.Words as known;
ghost use Rattle.dy_verdict.specs.Trees.{seen_file};
ghost use Rattle.dy_verdict.specs.Libraries.{AreReady};
ghost use Rattle.dy_verdict.specs.Verdicts.{JudgesForms, JudgesTrees, JudgesGroups};
ghost use Rattle.dy_verdict.specs.Verdicts.{JudgesSources, IsVerdict, Judged, IsPlain};

use crate::forms::forms_of;
use crate::groups::{files_of, group_files};
use crate::library::{ReadLibrary, exports_of, heading_of};
use crate::limit::check_tokens;
use crate::pieces::pieces_of_files;
use dy_base::{Items, Name, Place, Refusal, Text};
use dy_lexer::Source;
use dy_library_modules::{LibraryModules, lex_files, modules_of, words};
use dy_library_names::name_library;
use dy_term::Draft;
use dy_tree::{Fragment, Words};
use dy_views::Compiled;
use std::alloc::Global;

/// The library of these forms in modules in which nothing is defined yet.
fn judge_forms(
    alloc: Global,
    library: &Name,
    words: &Words,
    compiled: &Compiled,
    modules: LibraryModules,
    forms: &[(Place, Draft)],
) -> Result<ReadLibrary, Refusal>
    requires words { words.now ≡ known.words }
    requires ready { AreReady compiled.now modules }
    ensures { Judged (JudgesForms library.now modules (map seen_form forms.now)) result }
{
    let heading = heading_of(alloc, library, compiled, &modules)?;
    let LibraryModules {
        table,
        doubled,
        order,
        uses,
        ..
    } = modules;
    let named = name_library(alloc, heading, words, table, doubled, forms)?;
    let exports = exports_of(alloc, library, &named.table)?;
    Ok(ReadLibrary {
        row: named.library,
        exports,
        uses,
        order,
    })
}

/// The library of files of these groups.
fn judge_trees(
    alloc: Global,
    library: &Name,
    words: &Words,
    compiled: &Compiled,
    modules: LibraryModules,
    trees: Vec<Vec<Fragment>>,
) -> Result<ReadLibrary, Refusal>
    requires words { words.now ≡ known.words }
    requires ready { AreReady compiled.now modules }
    ensures { Judged (JudgesTrees library.now modules (Ok (map seen_file trees.items))) result }
{
    let pieces = pieces_of_files(alloc, trees)?;
    check_tokens(alloc, &pieces)?;
    let forms = forms_of(alloc, pieces)?;
    judge_forms(alloc, library, words, compiled, modules, &forms)
}

/// The library of these files, whose modules are these.
fn judge_groups(
    alloc: Global,
    library: &Name,
    words: &Words,
    compiled: &Compiled,
    modules: LibraryModules,
    sources: Items<Source>,
) -> Result<ReadLibrary, Refusal>
    requires words { words.now ≡ known.words }
    requires ready { AreReady compiled.now modules }
    ensures { Judged (JudgesGroups library.now modules sources) result }
{
    let files = files_of(alloc, &modules.names, sources)?;
    let trees = group_files(alloc, words, files)?;
    judge_trees(alloc, library, words, compiled, modules, trees)
}

/// The library of these files, which were lexed.
fn judge_sources(
    alloc: Global,
    library: &Name,
    sources: Items<Source>,
    compiled: &Compiled,
) -> Result<ReadLibrary, Refusal>
    requires compiled { AreCompiled compiled.now }
    requires lower { ExportsAreLower compiled.now.exports }
    ensures { Judged (JudgesSources compiled.now library.now sources) result }
{
    let words = words(alloc)?;
    let modules = modules_of(alloc, library, &words, sources.as_slice(), compiled)?;
    judge_groups(alloc, library, &words, compiled, modules, sources)
}

/// The library of this name whose source files hold these texts; or its first fault, whose subject
/// is left empty, with the number of the file (DRM 2, "Dylan interchange format", and 4, "Modules"
/// and "Libraries"; the order of faults is own). `compiled` are the libraries that were compiled
/// before it, and of them it sees those that its form names. In this order are told
///
/// - `BadHeader` of any file, then `BadByte`, `OpenComment`, `OpenString`, `BadLiteral` and
///   `WideInteger`, at the first place of the first file that has one;
/// - `Unbalanced`, `TooDeep` and `Syntax` of the files of `dylan-user`, of the first that has one:
///   they hold forms of a library and of modules and nothing else;
/// - `UnknownLibrary`, `UnknownModule`, `NameClash`, `NotExported` and `Cycle`, as `modules_of` of
///   `dy_library_modules` finds the first, and then `Redefined` at the form of the library, where
///   it is called as one that was compiled before it;
/// - `Unbalanced` and `TooDeep` of the groups of the other files, of the first that has one;
/// - `Limit` (`tokens`) at the first of their forms with which they have more than 16,777,216
///   tokens in all, as `first_over` of `dy_token_limit` counts them;
/// - `Syntax` and `TooDeep` of their forms, at the first token of the first such form: `Syntax`
///   where it is none, and where it holds a construct that has not come;
/// - `Syntax` at the first form that comes early, as `name_library` of `dy_library_names` tells it;
/// - the first of the faults of names, as that function tells it: `Unbound`, `Redefined` and
///   `NotAssignable`;
/// - `Limit` (`parameters`) at the first form that has more than 8 required parameters somewhere.
///
/// Or the refusal says that memory did not suffice.
pub fn read_sources(
    alloc: Global,
    library: &Name,
    texts: &[Text],
    compiled: &Compiled,
) -> Result<ReadLibrary, Refusal>
    requires short { AreShort texts.now }
    requires few { AreFew texts.now }
    requires compiled { AreCompiled compiled.now }
    // The names that those export are in lower case.
    requires lower { ExportsAreLower compiled.now.exports }
    // What is given is the library that the files are, and a fault is their first one.
    ensures verdict { Judged (IsVerdict compiled.now library.now texts.now) result }
    // No fault says that a file is absent.
    ensures plain { IfErr result IsPlain }
    // What is given may be put behind those that were compiled.
    ensures next { IfOk result (λ read. AreThere compiled.now read.uses
        × (read.order ≡ order_of compiled.now read.uses)) }
    // The names that all of them export are then in lower case.
    ensures still_lower { IfOk result (λ read.
        ExportsAreLower (compiled.now.exports ++ read.exports ∷ [])) }
{
    let sources = lex_files(alloc, texts)?;
    judge_sources(alloc, library, sources, compiled)
}
