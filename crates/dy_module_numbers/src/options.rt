//! What the options of a use clause say.

ghost use Rattle.std.specs.Prelude.{◌≡◌, IfOk, OnOk, map, option_map};
ghost use Rattle.dy_module_numbers.specs.Options as spec;

use dy_base::{Items, Name, NameList, fold};
use dy_module_forms::{Member, UseOption};
use dy_modules::{NameSet, UseClause};
use std::alloc::{AllocError, Global};

fn members_of(set: &Option<Items<Member>>) -> Option<&[Member]>
    ensures { option_map (λ members. members.now) result ≡ set.now }
{
    match set {
        Some(members) => Some(members.as_slice()),
        None => None,
    }
}

fn names_of(set: &Option<Items<Name>>) -> Option<&[Name]>
    ensures { option_map (λ names. names.now) result ≡ set.now }
{
    match set {
        Some(names) => Some(names.as_slice()),
        None => None,
    }
}

fn import_of(option: &UseOption) -> Option<Option<&[Member]>>
    ensures { option_map (option_map (λ members. members.now)) result ≡ spec.import_of option.now }
{
    match option {
        UseOption::Import(set) => Some(members_of(set)),
        UseOption::Exclude(_) => None,
        UseOption::Rename(_) => None,
        UseOption::Prefix(_) => None,
        UseOption::Export(_) => None,
    }
}

fn exclude_of(option: &UseOption) -> Option<&[Name]>
    ensures { option_map (λ names. names.now) result ≡ spec.exclude_of option.now }
{
    match option {
        UseOption::Import(_) => None,
        UseOption::Exclude(names) => Some(names.as_slice()),
        UseOption::Rename(_) => None,
        UseOption::Prefix(_) => None,
        UseOption::Export(_) => None,
    }
}

fn rename_of(option: &UseOption) -> Option<&[Member]>
    ensures { option_map (λ members. members.now) result ≡ spec.rename_of option.now }
{
    match option {
        UseOption::Import(_) => None,
        UseOption::Exclude(_) => None,
        UseOption::Rename(members) => Some(members.as_slice()),
        UseOption::Prefix(_) => None,
        UseOption::Export(_) => None,
    }
}

fn prefix_of(option: &UseOption) -> Option<&Name>
    ensures { option_map (λ text. text.now) result ≡ spec.prefix_of option.now }
{
    match option {
        UseOption::Import(_) => None,
        UseOption::Exclude(_) => None,
        UseOption::Rename(_) => None,
        UseOption::Prefix(text) => Some(text),
        UseOption::Export(_) => None,
    }
}

fn export_of(option: &UseOption) -> Option<Option<&[Name]>>
    ensures { option_map (option_map (λ names. names.now)) result ≡ spec.export_of option.now }
{
    match option {
        UseOption::Import(_) => None,
        UseOption::Exclude(_) => None,
        UseOption::Rename(_) => None,
        UseOption::Prefix(_) => None,
        UseOption::Export(set) => Some(names_of(set)),
    }
}

/// The members of `import:`, or nothing where all names come in.
fn imported(options: &[UseOption]) -> Option<&[Member]>
    ensures { option_map (λ set. set.now) result ≡ spec.imported options.now }
{
    for option in options {
        if let Some(set) = import_of(option) {
            return set;
        }
    }
    None
}

fn excluded(options: &[UseOption]) -> &[Name]
    ensures { result.now ≡ spec.excluded options.now }
{
    for option in options {
        if let Some(names) = exclude_of(option) {
            return names;
        }
    }
    &[]
}

fn renamed(options: &[UseOption]) -> &[Member]
    ensures { result.now ≡ spec.renamed options.now }
{
    for option in options {
        if let Some(members) = rename_of(option) {
            return members;
        }
    }
    &[]
}

fn prefix(alloc: Global, options: &[UseOption]) -> Result<Name, AllocError>
    ensures { IfOk result (λ name. name ≡ spec.prefix options.now) }
{
    for option in options {
        if let Some(text) = prefix_of(option) {
            return fold(alloc, text.bytes());
        }
    }
    fold(alloc, b"")
}

/// The names that are exported again, or `None` for all.
pub fn exported(options: &[UseOption]) -> Option<&[Name]>
    ensures { option_map (λ names. names.now) result ≡ spec.exported options.now }
{
    for option in options {
        if let Some(set) = export_of(option) {
            return set;
        }
    }
    Some(&[])
}

fn set_of_members(alloc: Global, members: &[Member]) -> Result<NameSet, AllocError>
    ensures { IfOk result (λ set. set ≡ spec.set_of (map spec.member_name members.now)) }
{
    let mut set = NameSet::new(alloc);
    for member in members {
        set.add(alloc, member.name.bytes())?;
    }
    Ok(set)
}

/// Names, each once.
pub fn set_of(alloc: Global, names: &[Name]) -> Result<NameSet, AllocError>
    ensures { IfOk result (λ set. set ≡ spec.set_of names.now) }
{
    let mut set = NameSet::new(alloc);
    for name in names {
        set.add(alloc, name.bytes())?;
    }
    Ok(set)
}

fn put_new(
    alloc: Global,
    news: &mut NameList<Name>,
    name: &Name,
    new: &Name,
) -> Result<(), AllocError>
    ensures { OnOk result (news.new ≡ spec.with_new news.old name.now new.now) }
{
    if news.get(name.bytes()).is_some() {
        return Ok(());
    }
    news.set(alloc, name.bytes(), fold(alloc, new.bytes())?)
}

fn put_arrow(alloc: Global, news: &mut NameList<Name>, member: &Member) -> Result<(), AllocError>
    ensures { OnOk result (news.new ≡ spec.with_arrow news.old member.now member.now.new) }
{
    match &member.new {
        Some(new) => put_new(alloc, news, &member.name, new),
        None => Ok(()),
    }
}

fn put_imports(
    alloc: Global,
    news: &mut NameList<Name>,
    members: &[Member],
) -> Result<(), AllocError>
    ensures { OnOk result (news.new ≡ spec.with_imports news.old members.now) }
{
    for member in members {
        put_arrow(alloc, news, member)?;
    }
    Ok(())
}

fn put_rename(alloc: Global, news: &mut NameList<Name>, member: &Member) -> Result<(), AllocError>
    ensures { OnOk result (news.new
        ≡ spec.with_new news.old member.now.name (spec.new_or_own member.now.name member.now.new)) }
{
    match &member.new {
        Some(new) => put_new(alloc, news, &member.name, new),
        None => put_new(alloc, news, &member.name, &member.name),
    }
}

fn put_renames(
    alloc: Global,
    news: &mut NameList<Name>,
    members: &[Member],
) -> Result<(), AllocError>
    ensures { OnOk result (news.new ≡ spec.with_renames news.old members.now) }
{
    for member in members {
        put_rename(alloc, news, member)?;
    }
    Ok(())
}

fn put_imported(
    alloc: Global,
    news: &mut NameList<Name>,
    members: Option<&[Member]>,
) -> Result<(), AllocError>
    ensures { OnOk result (news.new ≡ spec.with_imports news.old
        (spec.members_or_none (option_map (λ set. set.now) members.entry))) }
{
    match members {
        Some(members) => put_imports(alloc, news, members),
        None => Ok(()),
    }
}

fn news(alloc: Global, options: &[UseOption]) -> Result<NameList<Name>, AllocError>
    ensures { IfOk result (λ list. list ≡ spec.news options.now) }
{
    let mut news = NameList::new(alloc);
    put_imported(alloc, &mut news, imported(options))?;
    put_renames(alloc, &mut news, renamed(options))?;
    Ok(news)
}

fn chosen(alloc: Global, options: &[UseOption]) -> Result<Option<NameSet>, AllocError>
    ensures { IfOk result (λ set. set ≡ spec.chosen (spec.imported options.now)) }
{
    match imported(options) {
        Some(members) => Ok(Some(set_of_members(alloc, members)?)),
        None => Ok(None),
    }
}

fn again(alloc: Global, options: &[UseOption]) -> Result<NameSet, AllocError>
    ensures { IfOk result (λ set. set
        ≡ spec.set_of (spec.names_or_none (spec.exported options.now))) }
{
    match exported(options) {
        Some(names) => set_of(alloc, names),
        None => Ok(NameSet::new(alloc)),
    }
}

/// A use clause over the names of a source, by its number (DRM 4, "Modules"). A new name in
/// `import:` counts before one in `rename:`, and of two for one name the first counts. A name in
/// `rename:` without a new one keeps its own without the prefix.
pub fn use_clause(
    alloc: Global,
    source: usize,
    options: &[UseOption],
) -> Result<UseClause, AllocError>
    ensures { IfOk result (λ u. u ≡ spec.use_clause source options.now) }
{
    Ok(UseClause {
        source,
        chosen: chosen(alloc, options)?,
        excluded: set_of(alloc, excluded(options))?,
        renamed: news(alloc, options)?,
        prefix: prefix(alloc, options)?,
        again_all: exported(options).is_none(),
        again: again(alloc, options)?,
    })
}
