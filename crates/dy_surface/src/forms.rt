//! Whole forms as drafts of the core (DRM 5 and 6).

ghost use Rattle.std.specs.Prelude.{◌≡◌, map, true, IfOk};
ghost use Rattle.dy_rules.specs.Types as source;
ghost use Rattle.dy_rules.specs.Trees.{body_of};
ghost use Rattle.dy_rules.specs.SeenTypes.{seen_variable, seen_target, seen_type as type_tree};
ghost use Rattle.dy_rules.specs.SeenForms.{seen_form, seen_items, seen_parameters, seen_slot};
ghost use Rattle.dy_rules.specs.SeenForms.{seen_tree};
ghost use Rattle.dy_term.specs.Types.{seen_type, seen_typed};
ghost use Rattle.dy_term.specs.Drafts.{seen_term, seen_lambda};
ghost use Rattle.dy_term.specs.Rows.{variable_row, top_term, type_constant, seen_draft, seen_top};
ghost use Rattle.dy_drafts.specs.Shapes.{type_of, typed_of, declared_of};
ghost use Rattle.dy_desugar.specs.Table as table;
ghost use Rattle.dy_surface.specs.Forms as spec;

use crate::slots::slots_of;
use crate::type_constants::constant_type;
use dy_desugar::{body_of, defaults_of, lambda_from, params_of, returned_of, term_of};
use dy_drafts::{copy_all, declared_of, name_at, type_of, typed_of, with_rest};
use dy_term::{
    Draft, DraftClass, DraftDomain, DraftGeneric, DraftLambda, DraftMethod, DraftTerm, DraftTop,
    DraftType, DraftVariable,
};
use dy_tree::{
    Expression, Form, Item, Parameters, Slot, Target, Token, TypeForm, Variable, Variables,
};
use std::alloc::{AllocError, Global};

/// What a form is in the core. It recurs no deeper than the form's tree.
pub fn to_core(alloc: Global, form: &Form) -> Result<Draft, AllocError>
    ensures { IfOk result (λ draft. seen_draft draft ≡ spec.draft_of (seen_form form.now)) }
{
    match form {
        Form::Expression(expression) => Ok(Draft::Top(DraftTop::Run(term_of(alloc, expression)?))),
        Form::Class {
            adjectives,
            name,
            superclasses,
            slots,
            ..
        } => class_of(alloc, adjectives, name, superclasses, slots),
        Form::Constant { target, value, .. } => constant_of(alloc, target, value),
        Form::Variable { target, value, .. } => {
            let term = term_of(alloc, value)?;
            Ok(Draft::Top(initial(alloc, false, target, term)?))
        }
        Form::Generic {
            adjectives,
            name,
            parameters,
            ..
        } => generic_of(alloc, adjectives, name, parameters),
        Form::Method {
            adjectives,
            word,
            name,
            parameters,
            body,
            ..
        } => method_of(alloc, adjectives, word, name, parameters, body),
        Form::Function {
            adjectives,
            name,
            parameters,
            body,
            ..
        } => {
            let adjectives = copy_all(alloc, adjectives)?;
            let name = name.copy()?;
            let code = lambda_of(alloc, parameters, body)?;
            Ok(Draft::Variable(DraftVariable::Function(adjectives, name, code)))
        }
        Form::Domain { name, types, .. } => {
            let generic = name.copy()?;
            let types = types_of(alloc, types)?;
            Ok(Draft::Domain(DraftDomain { generic, types }))
        }
    }
}

/// A class.
fn class_of(
    alloc: Global,
    adjectives: &Vec<Token>,
    name: &Token,
    superclasses: &Vec<Token>,
    slots: &Vec<Slot>,
) -> Result<Draft, AllocError>
    ensures { IfOk result (λ draft. seen_draft draft
        ≡ spec.class_of adjectives.now.items name.now superclasses.now.items
        (map seen_slot slots.now.items)) }
{
    Ok(Draft::Class(DraftClass {
        adjectives: copy_all(alloc, adjectives)?,
        name: name.copy()?,
        supers: copy_all(alloc, superclasses)?,
        slots: slots_of(alloc, slots)?,
    }))
}

/// A constant, which stands for a type where its value is written as one.
fn constant_of(alloc: Global, target: &Target, value: &Expression) -> Result<Draft, AllocError>
    ensures { IfOk result (λ draft. seen_draft draft
        ≡ spec.constant_of (seen_target target.now) (seen_tree value.now)) }
{
    match target {
        Target::One(variable) => match constant_type(alloc, value)? {
            Some(meant) => type_constant(alloc, variable, meant),
            None => constant_value(alloc, target, value),
        },
        Target::Several(_) => constant_value(alloc, target, value),
    }
}

/// A constant that stands for a type.
fn type_constant(alloc: Global, variable: &Variable, meant: DraftType) -> Result<Draft, AllocError>
    ensures { IfOk result (λ draft. seen_draft draft
        ≡ variable_row (type_constant variable.now.name (declared_of (seen_variable variable.now))
        (seen_type meant))) }
{
    let name = variable.name.copy()?;
    let declared = declared_of(alloc, variable)?;
    Ok(Draft::Variable(DraftVariable::Type(name, declared, meant)))
}

/// Constants that take the values of an expression.
fn constant_value(alloc: Global, target: &Target, value: &Expression) -> Result<Draft, AllocError>
    ensures { IfOk result (λ draft. seen_draft draft
        ≡ top_term (spec.initial true (seen_target target.now)
        (table.core_of (seen_tree value.now)))) }
{
    let term = term_of(alloc, value)?;
    Ok(Draft::Top(initial(alloc, true, target, term)?))
}

/// Variables or constants that take the values of a term.
fn initial(
    alloc: Global,
    is_constant: bool,
    target: &Target,
    term: DraftTerm,
) -> Result<DraftTop, AllocError>
    ensures { IfOk result (λ top. seen_top top
        ≡ spec.initial is_constant (seen_target target.now) (seen_term term)) }
{
    match target {
        Target::One(variable) => {
            let typed = typed_of(alloc, variable)?;
            let variables = vec![in alloc; typed]?;
            Ok(DraftTop::Init {
                is_constant,
                variables,
                term,
            })
        }
        Target::Several(found) => several(alloc, is_constant, found, term),
    }
}

/// Several variables or constants that take the values of a term.
fn several(
    alloc: Global,
    is_constant: bool,
    found: &Variables,
    term: DraftTerm,
) -> Result<DraftTop, AllocError>
    ensures { IfOk result (λ top. seen_top top
        ≡ spec.initial is_constant
        (source.several (map seen_variable found.now.variables.items) found.now.rest)
        (seen_term term)) }
{
    match &found.rest {
        None => {
            let variables = typed_in(alloc, &found.variables)?;
            Ok(DraftTop::Init {
                is_constant,
                variables,
                term,
            })
        }
        Some(rest) => {
            let mut variables = typed_in(alloc, &found.variables)?;
            variables.push((rest.copy()?, DraftType::Object))?;
            let term = with_rest(alloc, found.variables.len(), term)?;
            Ok(DraftTop::Init {
                is_constant,
                variables,
                term,
            })
        }
    }
}

/// Variables with their types.
fn typed_in(alloc: Global, variables: &Vec<Variable>) -> Result<Vec<(Token, DraftType)>, AllocError>
    ensures { IfOk result (λ typed. map seen_typed typed.items
        ≡ map typed_of (map seen_variable variables.now.items)) }
{
    let mut typed = Vec::new(alloc);
    for variable in variables {
        typed.push(typed_of(alloc, variable)?)?;
    }
    Ok(typed)
}

/// A generic function.
fn generic_of(
    alloc: Global,
    adjectives: &Vec<Token>,
    name: &Token,
    parameters: &Parameters,
) -> Result<Draft, AllocError>
    ensures { IfOk result (λ draft. seen_draft draft
        ≡ spec.generic_of adjectives.now.items name.now (seen_parameters parameters.now)) }
{
    Ok(Draft::Generic(DraftGeneric {
        adjectives: copy_all(alloc, adjectives)?,
        name: name.copy()?,
        params: params_of(alloc, parameters)?,
        results: returned_of(alloc, parameters)?,
    }))
}

/// The name of the next method where none is written.
fn next_of(alloc: Global, word: &Token, next: &Option<Token>) -> Result<Option<Token>, AllocError>
    ensures { IfOk result (λ name. name ≡ spec.next_of word.now next.now) }
{
    match next {
        None => Ok(Some(name_at(alloc, b"next-method", word)?)),
        Some(_) => Ok(None),
    }
}

/// A method of a generic function.
#[tactic(auto, using(crate::proofs::Lambdas::next_is))]
fn method_of(
    alloc: Global,
    adjectives: &Vec<Token>,
    word: &Token,
    name: &Token,
    parameters: &Parameters,
    body: &Vec<Item>,
) -> Result<Draft, AllocError>
    ensures { IfOk result (λ draft. seen_draft draft
        ≡ spec.method_of adjectives.now.items word.now name.now (seen_parameters parameters.now)
        (body_of (seen_items body.now.items))) }
{
    Ok(Draft::Method(DraftMethod {
        adjectives: copy_all(alloc, adjectives)?,
        generic: name.copy()?,
        next: next_of(alloc, word, &parameters.next)?,
        code: lambda_of(alloc, parameters, body)?,
    }))
}

/// A body with its parameters.
#[tactic(auto, using(crate::proofs::Lambdas::lambda_is))]
fn lambda_of(
    alloc: Global,
    parameters: &Parameters,
    body: &Vec<Item>,
) -> Result<DraftLambda, AllocError>
    ensures { IfOk result (λ code. seen_lambda code
        ≡ table.lambda_of (seen_parameters parameters.now) (body_of (seen_items body.now.items))) }
{
    let defaults = defaults_of(alloc, parameters)?;
    let body = body_of(alloc, body)?;
    lambda_from(alloc, parameters, defaults, body)
}

/// The types of a domain.
fn types_of(alloc: Global, forms: &Vec<TypeForm>) -> Result<Vec<DraftType>, AllocError>
    ensures { IfOk result (λ types. map seen_type types.items
        ≡ map type_of (map type_tree forms.now.items)) }
{
    let mut types = Vec::new(alloc);
    for form in forms {
        types.push(type_of(alloc, form)?)?;
    }
    Ok(types)
}
