//! Slots whose adjectives, value and options suit one another (DRM 5, "Slots").

ghost use Rattle.std.specs.Prelude.{◌≡◌, map, option_map};
ghost use Rattle.std.specs.List.{list_all};
ghost use Rattle.dy_rules.specs.ConstantTrees.{constants_of, is_nil, tail_of};
ghost use Rattle.dy_rules.specs.Forms as spec;
ghost use Rattle.dy_rules.specs.SeenForms.{seen_initial, seen_option, seen_slot, seen_tree};
ghost use Rattle.dy_rules.specs.SeenTypes.{seen_constant};
ghost use Rattle.dy_rules.specs.Tests.{at_most_one};

use dy_tree::{ConstantForm, Expression, LiteralForm, Slot, SlotOption, Token};

/// Whether an option names the init keyword, required or not.
fn names_keyword(option: &SlotOption) -> bool
    ensures { result ≡ spec.names_keyword (seen_option option.now) }
{
    matches!(
        option,
        SlotOption::InitKeyword(_) | SlotOption::RequiredInitKeyword(_)
    )
}

/// Whether an option gives an initial value.
fn gives_value(option: &SlotOption) -> bool
    ensures { result ≡ spec.gives_value (seen_option option.now) }
{
    matches!(
        option,
        SlotOption::InitValue(_) | SlotOption::InitFunction(_)
    )
}

/// Whether an option names the setter, or says that there is none.
fn names_setter(option: &SlotOption) -> bool
    ensures { result ≡ spec.names_setter (seen_option option.now) }
{
    matches!(option, SlotOption::Setter(_))
}

/// Whether at most one option names an init keyword.
#[tactic(auto, using(dy_rules::proofs::Lists::at_most_one_seen))]
fn has_one_keyword(options: &[SlotOption]) -> bool
    ensures { result ≡ at_most_one spec.names_keyword (map seen_option options.now) }
{
    let keywords = options.iter().filter(|option| names_keyword(option));
    keywords.count() < 2
}

/// Whether at most one option names the setter.
#[tactic(auto, using(dy_rules::proofs::Lists::at_most_one_seen))]
fn has_one_setter(options: &[SlotOption]) -> bool
    ensures { result ≡ at_most_one spec.names_setter (map seen_option options.now) }
{
    let setters = options.iter().filter(|option| names_setter(option));
    setters.count() < 2
}

/// Whether at most one initial value is written, behind `=` or in an option.
#[tactic(auto, using(dy_rules::proofs::Lists::at_most_one_seen, dy_rules::proofs::Lists::any_seen))]
fn has_one_value(value: &Option<Expression>, options: &[SlotOption]) -> bool
    ensures { result ≡ spec.one_value (seen_initial value.now) (map seen_option options.now) }
{
    match value {
        None => {
            let values = options.iter().filter(|option| gives_value(option));
            values.count() < 2
        }
        Some(_) => !options.iter().any(|option| gives_value(option)),
    }
}

/// Whether a literal is a number, a character, a symbol or a boolean.
fn is_plain_literal(form: &LiteralForm) -> bool
    ensures { result ≡ spec.is_plain_literal form.now }
{
    !matches!(form, LiteralForm::Str(_))
}

/// Whether a list is `#()`.
fn is_nil(items: &[ConstantForm], tail: &Option<ConstantForm>) -> bool
    ensures { result ≡ is_nil (constants_of (map seen_constant items.now))
        (tail_of (option_map seen_constant tail.now)) }
{
    match items.split_first() {
        Some(_) => false,
        None => match tail {
            Some(_) => false,
            None => true,
        },
    }
}

/// Whether an expression is such a literal, or `#()`.
fn is_plain(expression: &Expression) -> bool
    ensures { result ≡ spec.is_plain (seen_tree expression.now) }
{
    match expression {
        Expression::Literal(form) => is_plain_literal(form),
        Expression::List { items, tail, .. } => is_nil(items, tail),
        _ => false,
    }
}

/// Whether what is written behind `=`, if anything is, is plain.
fn is_plain_default(value: &Option<Expression>) -> bool
    ensures { result ≡ spec.is_plain_default (seen_initial value.now) }
{
    match value {
        None => true,
        Some(value) => is_plain(value),
    }
}

/// Whether a shared slot may have an option.
fn suits_shared(option: &SlotOption) -> bool
    ensures { result ≡ spec.suits_shared (seen_option option.now) }
{
    match option {
        SlotOption::InitValue(value) => is_plain(value),
        SlotOption::Setter(_) => true,
        _ => false,
    }
}

/// Whether a shared slot may have these options.
#[tactic(auto, using(dy_rules::proofs::Lists::all_seen))]
fn all_suit_shared(options: &[SlotOption]) -> bool
    ensures { result ≡ list_all spec.suits_shared (map seen_option options.now) }
{
    options.iter().all(|option| suits_shared(option))
}

/// Whether all of the options name the setter.
#[tactic(auto, using(dy_rules::proofs::Lists::all_seen))]
fn all_name_setter(options: &[SlotOption]) -> bool
    ensures { result ≡ list_all spec.names_setter (map seen_option options.now) }
{
    options.iter().all(|option| names_setter(option))
}

/// Whether an adjective says that a slot is shared.
fn says_shared(adjective: &Token) -> bool
    ensures { result ≡ spec.says_shared adjective.now }
{
    adjective.is_spelled(b"class") || adjective.is_spelled(b"each-subclass")
}

/// Whether an adjective says that a slot is virtual.
fn says_virtual(adjective: &Token) -> bool
    ensures { result ≡ spec.says_virtual adjective.now }
{
    adjective.is_spelled(b"virtual")
}

fn is_shared(adjectives: &[Token]) -> bool
    ensures { result ≡ spec.is_shared adjectives.now }
{
    adjectives.iter().any(|adjective| says_shared(adjective))
}

fn is_virtual(adjectives: &[Token]) -> bool
    ensures { result ≡ spec.is_virtual adjectives.now }
{
    adjectives.iter().any(|adjective| says_virtual(adjective))
}

/// Whether a slot of this allocation may have what is written of it.
fn suits_allocation(slot: &Slot) -> bool
    ensures { result ≡ spec.suits_allocation (seen_slot slot.now) }
{
    if is_shared(&slot.adjectives) {
        is_plain_default(&slot.value) && all_suit_shared(&slot.options)
    } else if is_virtual(&slot.adjectives) {
        slot.value.is_none() && all_name_setter(&slot.options)
    } else {
        true
    }
}

/// Whether what is written of a slot fits together: one init keyword, one initial value and one
/// setter at most, and what a shared or a virtual slot may have.
pub fn is_consistent(slot: &Slot) -> bool
    ensures { result ≡ spec.is_consistent (seen_slot slot.now) }
{
    has_one_keyword(&slot.options)
        && has_one_value(&slot.value, &slot.options)
        && has_one_setter(&slot.options)
        && suits_allocation(slot)
}
