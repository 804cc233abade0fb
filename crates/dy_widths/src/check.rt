//! The limit on required parameters, row by row.

ghost use Rattle.std.specs.Prelude.{◌≡◌, map, option_map, IfOk};
ghost use Rattle.dy_widths.specs.Wide.{any_of, some_of, is_wide_lambda};
ghost use Rattle.dy_widths.specs.Rows.{is_wide_init, is_wide_slot, is_wide_code, is_wide_top};
ghost use Rattle.dy_widths.specs.Rows.{is_wide, too_many, IsChecked};

use crate::lambdas::{are_many, is_wide_lambda, is_wide_term};
use dy_base::{Fault, Items, Kind, Place, Refusal, Text};
use dy_term::{Init, Lambda, MethodCode, Row, SlotRow, TopTerm};
use std::alloc::{AllocError, Global};

fn is_wide_init(init: &Option<Init>) -> bool
    ensures { result ≡ some_of (option_map is_wide_init init.now) }
{
    match init {
        None => false,
        Some(Init::Each(term)) => is_wide_term(term),
        Some(Init::Calling(function)) => is_wide_term(function),
    }
}

fn any_slot(slots: &Items<SlotRow>) -> bool
    ensures { result ≡ any_of (map is_wide_slot slots.now) }
{
    for slot in slots.as_slice() {
        if is_wide_init(&slot.init) {
            return true;
        }
    }
    false
}

fn is_wide_code(code: &MethodCode) -> bool
    ensures { result ≡ is_wide_code code.now }
{
    match code {
        MethodCode::Dylan(lambda) => is_wide_lambda(lambda),
        MethodCode::Getter(_, _) | MethodCode::Setter(_, _) | MethodCode::Builtin(_) => false,
    }
}

fn some_lambda(lambda: &Option<Lambda>) -> bool
    ensures { result ≡ some_of (option_map is_wide_lambda lambda.now) }
{
    match lambda {
        None => false,
        Some(lambda) => is_wide_lambda(lambda),
    }
}

fn is_wide_top(top: &TopTerm) -> bool
    ensures { result ≡ is_wide_top top.now }
{
    match top {
        TopTerm::Init(_, term) => is_wide_term(term),
        TopTerm::Run(term) => is_wide_term(term),
    }
}

fn is_wide(row: &Row) -> bool
    ensures { result ≡ is_wide row.now }
{
    match row {
        Row::Class(class) => any_slot(&class.slots),
        Row::Generic(generic) => are_many(&generic.params),
        Row::Method(method) => are_many(&method.params) || is_wide_code(&method.code),
        Row::Domain(_) => false,
        Row::Variable(variable) => some_lambda(&variable.function),
        Row::Top(top) => is_wide_top(top),
    }
}

fn too_many(alloc: Global, place: Place) -> Result<Fault, AllocError>
    ensures { IfOk result (λ fault. fault ≡ too_many place) }
{
    let mut shown = Items::new(alloc);
    shown.push(Text::of(alloc, b"parameters")?)?;
    shown.push(Text::of(alloc, b"8")?)?;
    Ok(Fault {
        kind: Kind::Limit,
        library: Text::of(alloc, b"")?,
        place: Some(place),
        shown,
        numbers: Items::new(alloc),
    })
}

/// Refuses the row of a form that begins at this place, as `Limit`, exactly where a generic
/// function, a method, a function, a closure or a local method in it has more than 8 required
/// parameters (own).
pub fn check_parameters(alloc: Global, row: &Row, place: Place) -> Result<(), Refusal>
    ensures { IsChecked row.now place result }
{
    if is_wide(row) {
        match too_many(alloc, place) {
            Ok(fault) => Err(Refusal::Fault(fault)),
            Err(_) => Err(Refusal::Memory),
        }
    } else {
        Ok(())
    }
}
