//! Rows without terms, one kind after the other. Nothing is copied.

ghost use Rattle.std.specs.Prelude.{◌≡◌, IfOk, map};
ghost use Rattle.std.specs.Option.{option_map};
ghost use Rattle.dy_lowered.specs.Units as lowered;

use dy_base::Items;
use dy_term::{
    ClassRow, Init, Lambda, LibraryRow, MethodCode, MethodRow, SlotRow, Term, VariableRow,
};
use std::alloc::{AllocError, Global};

/// What stands in the place of a term: a body without parts.
fn no_term(alloc: Global) -> Term
    ensures { result ≡ lowered.no_term }
{
    Term::Body(Items::new(alloc))
}

/// The parameters and the results of a lambda.
fn bare_lambda(alloc: Global, lambda: Lambda) -> Lambda
    ensures { result ≡ lowered.bare_lambda lambda }
{
    Lambda {
        params: lambda.params,
        keywords: Items::new(alloc),
        next: false,
        first: 0,
        locals: 0,
        body: no_term(alloc),
        results: lambda.results,
    }
}

fn bare_init(alloc: Global, init: Init) -> Init
    ensures { result ≡ lowered.bare_init init }
{
    match init {
        Init::Each(_) => Init::Each(no_term(alloc)),
        Init::Calling(_) => Init::Calling(no_term(alloc)),
    }
}

fn bare_filling(alloc: Global, init: Option<Init>) -> Option<Init>
    ensures { result ≡ option_map lowered.bare_init init }
{
    match init {
        None => None,
        Some(init) => Some(bare_init(alloc, init)),
    }
}

fn bare_slot(alloc: Global, slot: SlotRow) -> SlotRow
    ensures { result ≡ lowered.bare_slot slot }
{
    SlotRow {
        getter: slot.getter,
        setter: slot.setter,
        kind: slot.kind,
        slot_type: slot.slot_type,
        keyword: slot.keyword,
        required: slot.required,
        init: bare_filling(alloc, slot.init),
    }
}

fn bare_slots(alloc: Global, slots: Items<SlotRow>) -> Result<Items<SlotRow>, AllocError>
    ensures { IfOk result (λ bare. bare ≡ map lowered.bare_slot slots) }
{
    let mut bare = Items::new(alloc);
    for slot in slots.into_vec() {
        bare.push(bare_slot(alloc, slot))?;
    }
    Ok(bare)
}

fn bare_class(alloc: Global, class: ClassRow) -> Result<ClassRow, AllocError>
    ensures { IfOk result (λ bare. bare ≡ lowered.bare_class class) }
{
    Ok(ClassRow {
        name: class.name,
        supers: class.supers,
        order: class.order,
        is_open: class.is_open,
        is_abstract: class.is_abstract,
        is_primary: class.is_primary,
        slots: bare_slots(alloc, class.slots)?,
    })
}

fn bare_classes(alloc: Global, classes: Items<ClassRow>) -> Result<Items<ClassRow>, AllocError>
    ensures { IfOk result (λ bare. bare ≡ map lowered.bare_class classes) }
{
    let mut bare = Items::new(alloc);
    for class in classes.into_vec() {
        bare.push(bare_class(alloc, class)?)?;
    }
    Ok(bare)
}

fn bare_code(alloc: Global, code: MethodCode) -> MethodCode
    ensures { result ≡ lowered.bare_code code }
{
    match code {
        MethodCode::Dylan(lambda) => MethodCode::Dylan(bare_lambda(alloc, lambda)),
        MethodCode::Getter(class, slot) => MethodCode::Getter(class, slot),
        MethodCode::Setter(class, slot) => MethodCode::Setter(class, slot),
        MethodCode::Builtin(operation) => MethodCode::Builtin(operation),
    }
}

fn bare_method(alloc: Global, method: MethodRow) -> MethodRow
    ensures { result ≡ lowered.bare_method method }
{
    MethodRow {
        generic: method.generic,
        params: method.params,
        results: method.results,
        code: bare_code(alloc, method.code),
    }
}

fn bare_methods(alloc: Global, methods: Items<MethodRow>) -> Result<Items<MethodRow>, AllocError>
    ensures { IfOk result (λ bare. bare ≡ map lowered.bare_method methods) }
{
    let mut bare = Items::new(alloc);
    for method in methods.into_vec() {
        bare.push(bare_method(alloc, method))?;
    }
    Ok(bare)
}

fn bare_function(alloc: Global, function: Option<Lambda>) -> Option<Lambda>
    ensures { result ≡ option_map lowered.bare_lambda function }
{
    match function {
        None => None,
        Some(lambda) => Some(bare_lambda(alloc, lambda)),
    }
}

fn bare_variable(alloc: Global, variable: VariableRow) -> VariableRow
    ensures { result ≡ lowered.bare_variable variable }
{
    VariableRow {
        name: variable.name,
        declared: variable.declared,
        is_constant: variable.is_constant,
        function: bare_function(alloc, variable.function),
        named: variable.named,
        builtin: variable.builtin,
    }
}

fn bare_variables(
    alloc: Global,
    variables: Items<VariableRow>,
) -> Result<Items<VariableRow>, AllocError>
    ensures { IfOk result (λ bare. bare ≡ map lowered.bare_variable variables) }
{
    let mut bare = Items::new(alloc);
    for variable in variables.into_vec() {
        bare.push(bare_variable(alloc, variable))?;
    }
    Ok(bare)
}

/// The rows of a library without their terms and without the forms that run: what others see of it.
/// The one error is want of memory.
pub fn bare_row(alloc: Global, row: LibraryRow) -> Result<LibraryRow, AllocError>
    ensures { IfOk result (λ bare. bare ≡ lowered.bare_row row) }
{
    Ok(LibraryRow {
        name: row.name,
        uses: row.uses,
        classes: bare_classes(alloc, row.classes)?,
        generics: row.generics,
        methods: bare_methods(alloc, row.methods)?,
        domains: row.domains,
        variables: bare_variables(alloc, row.variables)?,
        tops: Items::new(alloc),
    })
}
