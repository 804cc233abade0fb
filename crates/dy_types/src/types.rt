//! Types: which is a subtype of which, what is an instance of one, and which can meet.

ghost use Rattle.std.specs.Prelude.{◌↔◌, Any, IsTrue};
ghost use Rattle.dy_types.specs.Members.{IsBelow, CanMeet};
ghost use Rattle.dy_types.specs.Types.{IsInstance, IsSubtype, Meet};

use crate::members::{can_meet, is_below, is_instance_of};
use dy_term::{DyType, Member, Program, Shape1};

fn is_below_some(program: &Program, member: &Member, other: &DyType) -> bool
    ensures { IsTrue result ↔ Any (IsBelow program.now member.now) other.now.members }
{
    other
        .members
        .as_slice()
        .iter()
        .any(|upper| is_below(program, member, upper))
}

fn meets_some(program: &Program, member: &Member, other: &DyType) -> bool
    ensures { IsTrue result ↔ Any (CanMeet program.now member.now) other.now.members }
{
    other
        .members
        .as_slice()
        .iter()
        .any(|second| can_meet(program, member, second))
}

/// Whether the first type is a subtype of the second: each of its members is at or below some
/// member of the second (DRM 4, "Types").
pub fn subtype(program: &Program, a: &DyType, b: &DyType) -> bool
    ensures { IsTrue result ↔ IsSubtype program.now a.now b.now }
{
    a.members
        .as_slice()
        .iter()
        .all(|member| is_below_some(program, member, b))
}

/// Whether an argument is an instance of a type: of some member (DRM 4, "Types").
pub fn instance(program: &Program, shape: &Shape1, t: &DyType) -> bool
    ensures { IsTrue result ↔ IsInstance program.now shape.now t.now }
{
    t.members
        .as_slice()
        .iter()
        .any(|member| is_instance_of(program, shape, member))
}

/// Whether two types can meet: some member of the first and some member of the second can. Where it
/// is false, no object of the program is an instance of both.
pub fn meet(program: &Program, a: &DyType, b: &DyType) -> bool
    ensures { IsTrue result ↔ Meet program.now a.now b.now }
{
    a.members
        .as_slice()
        .iter()
        .any(|member| meets_some(program, member, b))
}
