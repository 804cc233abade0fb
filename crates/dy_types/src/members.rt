//! Members of types: what is an instance of one, what lies below one, and which two can meet.

ghost use Rattle.std.specs.Prelude.{ℤ, ◌≡◌, ◌⊎◌, ◌↔◌, IsTrue};
ghost use Rattle.dy_types.specs.Members.{IsBetween, IsInstanceOf, IsBelow, CanMeet};

use crate::classes::{class_of_classes, have_common_class, integer, is_at_or_below, literal_class};
use crate::literals::is_same;
use dy_base::ClassId;
use dy_term::{Literal, Member, Program, Shape1};

fn is_within(number: i64, least: i64, greatest: i64) -> bool
    ensures { IsTrue result ↔ IsBetween least greatest number }
{
    least <= number && number <= greatest
}

fn is_between(literal: &Literal, least: i64, greatest: i64) -> bool
    ensures { IsTrue result
        ↔ ((number : ℤ) × (literal.now ≡ Literal.Int number) × IsBetween least greatest number) }
{
    match literal {
        Literal::Int(number) => is_within(*number, least, greatest),
        _ => false,
    }
}

fn is_integer(literal: &Literal, number: i64) -> bool
    ensures { IsTrue result ↔ (literal.now ≡ Literal.Int number) }
{
    match literal {
        Literal::Int(value) => *value == number,
        _ => false,
    }
}

/// Whether an argument is an instance of a member.
pub(crate) fn is_instance_of(program: &Program, shape: &Shape1, member: &Member) -> bool
    ensures { IsTrue result ↔ IsInstanceOf program.now shape.now member.now }
{
    match member {
        Member::Class(class) => is_at_or_below(program, shape.class, *class),
        Member::Single(value) => match &shape.single {
            Some(Member::Single(same)) => is_same(same, value),
            _ => false,
        },
        Member::SingleClass(class) => match &shape.single {
            Some(Member::SingleClass(same)) => *same == *class,
            _ => false,
        },
        Member::Range(least, greatest) => match &shape.single {
            Some(Member::Single(value)) => is_between(value, *least, *greatest),
            _ => false,
        },
    }
}

fn is_below_class(program: &Program, lower: &Member, class: ClassId) -> bool
    ensures { IsTrue result ↔ IsBelow program.now lower.now (Member.Class class) }
{
    match lower {
        Member::Class(own) => is_at_or_below(program, *own, class),
        Member::Single(value) => is_at_or_below(program, literal_class(value), class),
        Member::SingleClass(_) => is_at_or_below(program, class_of_classes(), class),
        Member::Range(_, _) => is_at_or_below(program, integer(), class),
    }
}

fn is_below_value(program: &Program, lower: &Member, value: &Literal) -> bool
    ensures { IsTrue result ↔ IsBelow program.now lower.now (Member.Single value.now) }
{
    match lower {
        Member::Single(same) => is_same(same, value),
        Member::Range(least, greatest) => is_integer(value, *least) && is_integer(value, *greatest),
        _ => false,
    }
}

fn is_below_range(program: &Program, lower: &Member, least: i64, greatest: i64) -> bool
    ensures { IsTrue result ↔ IsBelow program.now lower.now (Member.Range least greatest) }
{
    match lower {
        Member::Single(value) => is_between(value, least, greatest),
        Member::Range(first, last) => least <= *first && *last <= greatest,
        _ => false,
    }
}

/// Whether a member is at or below another.
pub(crate) fn is_below(program: &Program, lower: &Member, upper: &Member) -> bool
    ensures { IsTrue result ↔ IsBelow program.now lower.now upper.now }
{
    match upper {
        Member::Class(class) => is_below_class(program, lower, *class),
        Member::Single(value) => is_below_value(program, lower, value),
        Member::SingleClass(class) => match lower {
            Member::SingleClass(same) => *same == *class,
            _ => false,
        },
        Member::Range(least, greatest) => is_below_range(program, lower, *least, *greatest),
    }
}

fn classes_meet(program: &Program, class: ClassId, other: ClassId) -> bool
    ensures { IsTrue result ↔ CanMeet program.now (Member.Class class) (Member.Class other) }
{
    is_at_or_below(program, class, other)
        || is_at_or_below(program, other, class)
        || have_common_class(program, class, other)
}

fn share(number: i64, least: i64, greatest: i64, lower: i64, upper: i64) -> bool
    ensures { IsTrue result ↔ IsBetween least greatest number × IsBetween lower upper number }
{
    is_within(number, least, greatest) && is_within(number, lower, upper)
}

// Two ranges share a number where they share the lower bound of one of them.
fn ranges_meet(least: i64, greatest: i64, lower: i64, upper: i64) -> bool
    ensures { IsTrue result
        ↔ ((IsBetween least greatest least × IsBetween lower upper least)
        ⊎ (IsBetween least greatest lower × IsBetween lower upper lower)) }
{
    share(least, least, greatest, lower, upper) || share(lower, least, greatest, lower, upper)
}

fn one_is_below(program: &Program, member: &Member, other: &Member) -> bool
    ensures { IsTrue result
        ↔ (IsBelow program.now member.now other.now ⊎ IsBelow program.now other.now member.now) }
{
    is_below(program, member, other) || is_below(program, other, member)
}

/// Whether two members can meet.
pub(crate) fn can_meet(program: &Program, member: &Member, other: &Member) -> bool
    ensures { IsTrue result ↔ CanMeet program.now member.now other.now }
{
    match member {
        Member::Class(class) => match other {
            Member::Class(second) => classes_meet(program, *class, *second),
            _ => one_is_below(program, member, other),
        },
        Member::Range(least, greatest) => match other {
            Member::Range(lower, upper) => ranges_meet(*least, *greatest, *lower, *upper),
            _ => one_is_below(program, member, other),
        },
        _ => one_is_below(program, member, other),
    }
}
