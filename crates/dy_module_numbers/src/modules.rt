//! Forms of modules as data.

ghost use Rattle.std.specs.Prelude.{◌≡◌, ◌≤◌, ◌++◌, [], length, drop, IfOk, OnOk};
ghost use Rattle.dy_module_numbers.specs.Modules as spec;
ghost use Rattle.dy_module_numbers.specs.Options.{with_names};

use crate::naming::number_of;
use crate::options::use_clause;
use dy_base::{Items, Name, NameList, Text};
use dy_module_forms::{Clause, Form, Placed};
use dy_modules::{ModuleForm, NameSet, Owner, UseClause};
use std::alloc::{AllocError, Global};

/// What the names of modules mean in a library.
#[derive(Drop)]
pub struct Naming {
    /// The library's own modules, in the order of their numbers.
    pub own: NameSet,
    /// The modules that it imports, with their numbers.
    pub imported: NameList<usize>,
    /// The number of a module that exports nothing.
    pub nothing: usize,
}

fn add_created(
    alloc: Global,
    m: usize,
    names: &[Name],
    given: &mut NameList<Owner>,
) -> Result<(), AllocError>
    ensures { OnOk result (given.new ≡ spec.with_created m given.old names.now) }
{
    for name in names {
        let owner = Owner::Own(m, Text::of(alloc, name.bytes())?);
        given.set(alloc, name.bytes(), owner)?;
    }
    Ok(())
}

fn add_created_by(
    alloc: Global,
    m: usize,
    clause: &Clause,
    given: &mut NameList<Owner>,
) -> Result<(), AllocError>
    ensures { OnOk result (given.new ≡ spec.created_by m given.old clause.now) }
{
    match clause {
        Clause::Create(names) => add_created(alloc, m, names.as_slice(), given),
        Clause::Use(_, _) => Ok(()),
        Clause::Export(_) => Ok(()),
    }
}

fn created(alloc: Global, m: usize, clauses: &[Placed]) -> Result<NameList<Owner>, AllocError>
    ensures { IfOk result (λ given. given ≡ spec.created m [] clauses.now) }
{
    let mut given = NameList::new(alloc);
    for placed in clauses {
        add_created_by(alloc, m, &placed.clause, &mut given)?;
    }
    Ok(given)
}

fn add_names(alloc: Global, names: &[Name], set: &mut NameSet) -> Result<(), AllocError>
    ensures { OnOk result (set.new ≡ with_names set.old names.now) }
{
    for name in names {
        set.add(alloc, name.bytes())?;
    }
    Ok(())
}

fn add_listed(alloc: Global, clause: &Clause, set: &mut NameSet) -> Result<(), AllocError>
    ensures { OnOk result (set.new ≡ spec.listed_by set.old clause.now) }
{
    match clause {
        Clause::Export(names) => add_names(alloc, names.as_slice(), set),
        Clause::Use(_, _) => Ok(()),
        Clause::Create(_) => Ok(()),
    }
}

fn listed(alloc: Global, clauses: &[Placed]) -> Result<NameSet, AllocError>
    ensures { IfOk result (λ set. set ≡ spec.listed [] clauses.now) }
{
    let mut set = NameSet::new(alloc);
    for placed in clauses {
        add_listed(alloc, &placed.clause, &mut set)?;
    }
    Ok(set)
}

/// The number of the module that a clause uses, or of the one that exports nothing.
pub fn source_of(naming: &Naming, name: &[u8]) -> usize
    ensures { result ≡ spec.source_of naming.now.own naming.now.imported naming.now.nothing
        name.now }
{
    match number_of(&naming.own, &naming.imported, name) {
        Some(number) => number,
        None => naming.nothing,
    }
}

fn add_use(
    alloc: Global,
    naming: &Naming,
    clause: &Clause,
    uses: &mut Items<UseClause>,
) -> Result<(), AllocError>
    ensures { OnOk result (uses.new
        ≡ uses.old ++ spec.with_use naming.now.own naming.now.imported naming.now.nothing clause.now
        []) }
{
    match clause {
        Clause::Use(name, options) => {
            let source = source_of(naming, name.bytes());
            uses.push(use_clause(alloc, source, options.as_slice())?)?;
            Ok(())
        }
        Clause::Export(_) => Ok(()),
        Clause::Create(_) => Ok(()),
    }
}

fn uses(alloc: Global, naming: &Naming, clauses: &[Placed]) -> Result<Items<UseClause>, AllocError>
    ensures { IfOk result (λ list. list
        ≡ spec.uses naming.now.own naming.now.imported naming.now.nothing clauses.now) }
{
    let mut list = Items::new(alloc);
    for placed in clauses {
        add_use(alloc, naming, &placed.clause, &mut list)?;
    }
    Ok(list)
}

fn module_form(
    alloc: Global,
    naming: &Naming,
    m: usize,
    form: &Form,
) -> Result<ModuleForm, AllocError>
    ensures { IfOk result (λ d. d
        ≡ spec.module_form naming.now.own naming.now.imported naming.now.nothing m form.now) }
{
    let clauses = form.clauses.as_slice();
    Ok(ModuleForm {
        given: created(alloc, m, clauses)?,
        listed: listed(alloc, clauses)?,
        uses: uses(alloc, naming, clauses)?,
    })
}

/// Puts the modules of these forms in the place of as many others.
pub fn put_modules(
    alloc: Global,
    naming: &Naming,
    forms: &[Form],
    modules: &mut Vec<ModuleForm>,
) -> Result<(), AllocError>
    requires { length forms.now ≤ length modules.old.items }
    ensures { OnOk result (modules.new.items
        ≡ spec.module_forms naming.now.own naming.now.imported naming.now.nothing 0 forms.now
        ++ drop (length forms.now) modules.old.items) }
{
    for m in 0..forms.len() {
        modules[m] = module_form(alloc, naming, m, &forms[m])?;
    }
    Ok(())
}
