//! The rows of a unit, where libraries are at their places in the program. They hold no terms.

ghost use Rattle.std.specs.Prelude.{◌≡◌, ℕ, IfOk, map};
ghost use Rattle.std.specs.Option.{option_map};
ghost use Rattle.dy_lowered.specs.Units as lowered;
ghost use Rattle.dy_lowered.specs.Units.{bare_lambda, bare_init, bare_slot, bare_class, bare_code};
ghost use Rattle.dy_lowered.specs.Units.{bare_method, bare_variable, bare_row};
ghost use Rattle.dy_linked_rows.specs.Terms.{linked_lambda};
ghost use Rattle.dy_linked_rows.specs.Rows.{linked_init, linked_slot, linked_class_row};
ghost use Rattle.dy_linked_rows.specs.Rows.{linked_generic_row, linked_method_code};
ghost use Rattle.dy_linked_rows.specs.Rows.{linked_method_row, linked_domain, linked_variable};
ghost use Rattle.dy_linked_rows.specs.Rows.{linked_library};
ghost use Rattle.dy_join.specs.Numbering.{placed};

use crate::places::Places;
use crate::references::{
    link_class, link_classes, link_generic, link_order, link_setter, link_uses,
};
use crate::types::{link_held_type, link_params, link_type, link_types, link_values};
use dy_base::Items;
use dy_term::{
    ClassRow, DomainRow, GenericRow, Init, Lambda, LibraryRow, MethodCode, MethodRow, SlotRow,
    Term, VariableRow,
};
use std::alloc::{AllocError, Global};

/// What stands in the place of a term: a body without parts.
fn no_term(alloc: Global) -> Term
    ensures { result ≡ lowered.no_term }
{
    Term::Body(Items::new(alloc))
}

/// The parameters and the results of a lambda.
fn link_lambda(alloc: Global, places: &Places, lambda: Lambda) -> Result<Lambda, AllocError>
    ensures { IfOk result (λ linked. linked
        ≡ linked_lambda (placed places.now) (bare_lambda lambda)) }
{
    Ok(Lambda {
        params: link_params(alloc, places, lambda.params)?,
        keywords: Items::new(alloc),
        next: false,
        first: 0,
        locals: 0,
        body: no_term(alloc),
        results: link_values(alloc, places, lambda.results)?,
    })
}

/// What is left of an init expression, which names no library.
fn link_init(alloc: Global, init: Init) -> Init
    ensures { (places : ℕ → ℕ) → result ≡ linked_init places (bare_init init) }
{
    match init {
        Init::Each(_) => Init::Each(no_term(alloc)),
        Init::Calling(_) => Init::Calling(no_term(alloc)),
    }
}

fn link_filling(alloc: Global, init: Option<Init>) -> Option<Init>
    ensures { (places : ℕ → ℕ)
        → result ≡ option_map (linked_init places) (option_map bare_init init) }
{
    match init {
        None => None,
        Some(init) => Some(link_init(alloc, init)),
    }
}

fn link_slot(alloc: Global, places: &Places, slot: SlotRow) -> Result<SlotRow, AllocError>
    ensures { IfOk result (λ linked. linked ≡ linked_slot (placed places.now) (bare_slot slot)) }
{
    Ok(SlotRow {
        getter: link_generic(places, slot.getter),
        setter: link_setter(places, slot.setter),
        kind: slot.kind,
        slot_type: link_type(alloc, places, slot.slot_type)?,
        keyword: slot.keyword,
        required: slot.required,
        init: link_filling(alloc, slot.init),
    })
}

fn link_slots(
    alloc: Global,
    places: &Places,
    slots: Items<SlotRow>,
) -> Result<Items<SlotRow>, AllocError>
    ensures { IfOk result (λ linked. linked
        ≡ map (linked_slot (placed places.now)) (map bare_slot slots)) }
{
    let mut linked = Items::new(alloc);
    for slot in slots.into_vec() {
        linked.push(link_slot(alloc, places, slot)?)?;
    }
    Ok(linked)
}

fn link_class_row(alloc: Global, places: &Places, class: ClassRow) -> Result<ClassRow, AllocError>
    ensures { IfOk result (λ linked. linked
        ≡ linked_class_row (placed places.now) (bare_class class)) }
{
    Ok(ClassRow {
        name: class.name,
        supers: link_classes(alloc, places, class.supers)?,
        order: link_order(alloc, places, &class.order)?,
        is_open: class.is_open,
        is_abstract: class.is_abstract,
        is_primary: class.is_primary,
        slots: link_slots(alloc, places, class.slots)?,
    })
}

fn link_class_rows(
    alloc: Global,
    places: &Places,
    classes: Items<ClassRow>,
) -> Result<Items<ClassRow>, AllocError>
    ensures { IfOk result (λ linked. linked
        ≡ map (linked_class_row (placed places.now)) (map bare_class classes)) }
{
    let mut linked = Items::new(alloc);
    for class in classes.into_vec() {
        linked.push(link_class_row(alloc, places, class)?)?;
    }
    Ok(linked)
}

fn link_generic_row(
    alloc: Global,
    places: &Places,
    generic: GenericRow,
) -> Result<GenericRow, AllocError>
    ensures { IfOk result (λ linked. linked
        ≡ linked_generic_row (placed places.now) generic) }
{
    Ok(GenericRow {
        name: generic.name,
        is_open: generic.is_open,
        params: link_params(alloc, places, generic.params)?,
        results: link_values(alloc, places, generic.results)?,
    })
}

fn link_generic_rows(
    alloc: Global,
    places: &Places,
    generics: Items<GenericRow>,
) -> Result<Items<GenericRow>, AllocError>
    ensures { IfOk result (λ linked. linked
        ≡ map (linked_generic_row (placed places.now)) generics) }
{
    let mut linked = Items::new(alloc);
    for generic in generics.into_vec() {
        linked.push(link_generic_row(alloc, places, generic)?)?;
    }
    Ok(linked)
}

fn link_method_code(
    alloc: Global,
    places: &Places,
    code: MethodCode,
) -> Result<MethodCode, AllocError>
    ensures { IfOk result (λ linked. linked
        ≡ linked_method_code (placed places.now) (bare_code code)) }
{
    match code {
        MethodCode::Dylan(lambda) => Ok(MethodCode::Dylan(link_lambda(alloc, places, lambda)?)),
        MethodCode::Getter(class, slot) => Ok(MethodCode::Getter(link_class(places, class), slot)),
        MethodCode::Setter(class, slot) => Ok(MethodCode::Setter(link_class(places, class), slot)),
        MethodCode::Builtin(operation) => Ok(MethodCode::Builtin(operation)),
    }
}

fn link_method_row(
    alloc: Global,
    places: &Places,
    method: MethodRow,
) -> Result<MethodRow, AllocError>
    ensures { IfOk result (λ linked. linked
        ≡ linked_method_row (placed places.now) (bare_method method)) }
{
    Ok(MethodRow {
        generic: link_generic(places, method.generic),
        params: link_params(alloc, places, method.params)?,
        results: link_values(alloc, places, method.results)?,
        code: link_method_code(alloc, places, method.code)?,
    })
}

fn link_method_rows(
    alloc: Global,
    places: &Places,
    methods: Items<MethodRow>,
) -> Result<Items<MethodRow>, AllocError>
    ensures { IfOk result (λ linked. linked
        ≡ map (linked_method_row (placed places.now)) (map bare_method methods)) }
{
    let mut linked = Items::new(alloc);
    for method in methods.into_vec() {
        linked.push(link_method_row(alloc, places, method)?)?;
    }
    Ok(linked)
}

fn link_domain(alloc: Global, places: &Places, domain: DomainRow) -> Result<DomainRow, AllocError>
    ensures { IfOk result (λ linked. linked ≡ linked_domain (placed places.now) domain) }
{
    Ok(DomainRow {
        generic: link_generic(places, domain.generic),
        types: link_types(alloc, places, domain.types)?,
        result: link_held_type(alloc, places, domain.result)?,
    })
}

fn link_domains(
    alloc: Global,
    places: &Places,
    domains: Items<DomainRow>,
) -> Result<Items<DomainRow>, AllocError>
    ensures { IfOk result (λ linked. linked ≡ map (linked_domain (placed places.now)) domains) }
{
    let mut linked = Items::new(alloc);
    for domain in domains.into_vec() {
        linked.push(link_domain(alloc, places, domain)?)?;
    }
    Ok(linked)
}

fn link_function(
    alloc: Global,
    places: &Places,
    function: Option<Lambda>,
) -> Result<Option<Lambda>, AllocError>
    ensures { IfOk result (λ linked. linked
        ≡ option_map (linked_lambda (placed places.now)) (option_map bare_lambda function)) }
{
    match function {
        None => Ok(None),
        Some(lambda) => Ok(Some(link_lambda(alloc, places, lambda)?)),
    }
}

fn link_variable(
    alloc: Global,
    places: &Places,
    variable: VariableRow,
) -> Result<VariableRow, AllocError>
    ensures { IfOk result (λ linked. linked
        ≡ linked_variable (placed places.now) (bare_variable variable)) }
{
    Ok(VariableRow {
        name: variable.name,
        declared: link_type(alloc, places, variable.declared)?,
        is_constant: variable.is_constant,
        function: link_function(alloc, places, variable.function)?,
        named: link_held_type(alloc, places, variable.named)?,
        builtin: variable.builtin,
    })
}

fn link_variables(
    alloc: Global,
    places: &Places,
    variables: Items<VariableRow>,
) -> Result<Items<VariableRow>, AllocError>
    ensures { IfOk result (λ linked. linked
        ≡ map (linked_variable (placed places.now)) (map bare_variable variables)) }
{
    let mut linked = Items::new(alloc);
    for variable in variables.into_vec() {
        linked.push(link_variable(alloc, places, variable)?)?;
    }
    Ok(linked)
}

/// The rows of a library in the program, without terms and without the forms that run. Whatever
/// terms the rows hold are dropped; those of a unit hold none.
pub(crate) fn link_row(
    alloc: Global,
    places: &Places,
    row: LibraryRow,
) -> Result<LibraryRow, AllocError>
    ensures { IfOk result (λ linked. linked
        ≡ linked_library (placed places.now) (bare_row row)) }
{
    Ok(LibraryRow {
        name: row.name,
        uses: link_uses(alloc, places, row.uses)?,
        classes: link_class_rows(alloc, places, row.classes)?,
        generics: link_generic_rows(alloc, places, row.generics)?,
        methods: link_method_rows(alloc, places, row.methods)?,
        domains: link_domains(alloc, places, row.domains)?,
        variables: link_variables(alloc, places, row.variables)?,
        tops: Items::new(alloc),
    })
}
