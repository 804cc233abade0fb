//! Types, where libraries are at other places.

ghost use Rattle.std.specs.Prelude.{◌≡◌, IfOk};
ghost use Rattle.std.specs.Option.{option_map};
ghost use Rattle.dy_lowered.specs.Linking.{linked_member, linked_type};
ghost use Rattle.dy_seen_rows.specs.Places.{placed};
ghost use Rattle.dy_seen_rows.specs.Rows as spec;
ghost use Rattle.dy_seen_rows.specs.Rows.{linked_named_types};

use crate::classes::link_class;
use crate::places::Places;
use dy_base::Items;
use dy_binding::copy_literal;
use dy_term::{DyType, LibraryRow, Member};
use std::alloc::{AllocError, Global};

fn link_member(alloc: Global, places: &Places, member: &Member) -> Result<Member, AllocError>
    ensures { IfOk result (λ linked. linked ≡ linked_member (placed places.now) member.now) }
{
    match member {
        Member::Class(class) => Ok(Member::Class(link_class(places, *class))),
        Member::Single(literal) => Ok(Member::Single(copy_literal(alloc, literal)?)),
        Member::SingleClass(class) => Ok(Member::SingleClass(link_class(places, *class))),
        Member::Range(least, greatest) => Ok(Member::Range(*least, *greatest)),
    }
}

fn link_type(alloc: Global, places: &Places, found: &DyType) -> Result<DyType, AllocError>
    ensures { IfOk result (λ linked. linked ≡ linked_type (placed places.now) found.now) }
{
    let mut members = Items::new(alloc);
    for member in found.members.as_slice() {
        members.push(link_member(alloc, places, member)?)?;
    }
    Ok(DyType { members })
}

/// The type that a row stands for, if it is a type constant.
fn link_named(
    alloc: Global,
    places: &Places,
    named: &Option<DyType>,
) -> Result<Option<DyType>, AllocError>
    ensures { IfOk result (λ linked. linked
        ≡ option_map (linked_type (placed places.now)) named.now) }
{
    match named {
        None => Ok(None),
        Some(found) => Ok(Some(link_type(alloc, places, found)?)),
    }
}

/// A copy of what variable rows stand for, each a type if it is a type constant, where libraries
/// are at these places. The time grows with the rows and their types.
pub fn link_named_types(
    alloc: Global,
    places: &Places,
    types: &[Option<DyType>],
) -> Result<Items<Option<DyType>>, AllocError>
    ensures { IfOk result
        (λ linked. linked ≡ linked_named_types (placed places.now) types.now) }
{
    let mut linked = Items::new(alloc);
    for named in types {
        linked.push(link_named(alloc, places, named)?)?;
    }
    Ok(linked)
}

fn copy_named(alloc: Global, named: &Option<DyType>) -> Result<Option<DyType>, AllocError>
    ensures { IfOk result (λ copy. copy ≡ named.now) }
{
    link_named(alloc, &Places::Kept, named)
}

/// For each variable row of a library a copy of the type that it stands for, if it is a type
/// constant, by the places of its own view.
pub fn named_types_of(
    alloc: Global,
    library: &LibraryRow,
) -> Result<Items<Option<DyType>>, AllocError>
    ensures { IfOk result (λ types. types ≡ spec.named_types_of library.now) }
{
    let mut types = Items::new(alloc);
    for variable in library.variables.as_slice() {
        types.push(copy_named(alloc, &variable.named)?)?;
    }
    Ok(types)
}
