//! What types stand for where no name means one.

ghost use Rattle.std.specs.Prelude.{◌≡◌, ◌∷◌, [], Err, IfOk};
ghost use Rattle.dy_names.specs.Outside.{IsRead};
ghost use Rattle.dy_term.specs.Types.{seen_type};
ghost use Rattle.dy_binding.specs.Faults.{fault_at};
ghost use Rattle.dy_base.specs.declared.kind.Kind.TheVariants as kinds;
ghost use Rattle.dy_term.specs.declared.types.Member.TheVariants as members;
ghost use Rattle.dy_types.specs.Classes.{built_in};
ghost use Rattle.dy_library_rows.specs.Names.{plain_type, type_of_member};

use dy_base::{ClassId, Fault, Items, Kind, Ref, Refusal, Text};
use dy_binding::copy_literal;
use dy_term::{DraftType, DyType, Member};
use dy_tree::Token;
use std::alloc::{AllocError, Global};

fn type_of_member(alloc: Global, member: Member) -> Result<DyType, AllocError>
    ensures { IfOk result (λ found. found ≡ type_of_member member) }
{
    let mut members = Items::new(alloc);
    members.push(member)?;
    Ok(DyType { members })
}

/// The fault of a name without a binding.
fn unbound(alloc: Global, name: &Token) -> Result<Fault, AllocError>
    ensures { IfOk result
        (λ fault. fault ≡ fault_at kinds.Unbound name.now (name.now.text ∷ [])) }
{
    let mut shown = Items::new(alloc);
    shown.push(Text::of(alloc, name.text.bytes())?)?;
    Ok(Fault {
        kind: Kind::Unbound,
        library: Text::of(alloc, b"")?,
        place: Some(name.place),
        shown,
        numbers: Items::new(alloc),
    })
}

/// Refuses a name that means no type.
fn refused(alloc: Global, name: &Token) -> Result<DyType, Refusal>
    ensures { IsRead (Err (fault_at kinds.Unbound name.now (name.now.text ∷ []))) result }
{
    Err(Refusal::Fault(unbound(alloc, name)?))
}

/// The type of a class of `dylan`.
fn class_type(alloc: Global, row: u32) -> Result<DyType, AllocError>
    ensures { IfOk result (λ found. found ≡ type_of_member (members.Class (built_in row))) }
{
    type_of_member(alloc, Member::Class(ClassId(Ref { library: 0, row })))
}

/// What a type stands for: `<object>` and `<integer>` where none is written. A written name is
/// `Unbound`, and so are the words of the other types.
pub fn plain_type(alloc: Global, draft: &DraftType) -> Result<DyType, Refusal>
    ensures { IsRead (plain_type (seen_type draft.now)) result }
{
    match draft {
        DraftType::Object => Ok(class_type(alloc, 0)?),
        DraftType::Integer => Ok(class_type(alloc, 9)?),
        DraftType::Single(value) => {
            let value = copy_literal(alloc, value)?;
            Ok(type_of_member(alloc, Member::Single(value))?)
        }
        DraftType::Name(name) => refused(alloc, name),
        DraftType::SingleName(_, name) => refused(alloc, name),
        DraftType::Union(told, _) => refused(alloc, told),
        DraftType::Range(told, _, _) => refused(alloc, told),
    }
}
