//! Definitions.

ghost use Rattle.std.specs.Prelude.{◌≡◌, IfOk, option_map, option_and_then};
ghost use Rattle.dy_tree.specs.Fragments.{seen_fragments};
ghost use Rattle.dy_rules.specs.Depth as measure;
ghost use Rattle.dy_rules.specs.FormReading as reading;
ghost use Rattle.dy_rules.specs.Fragments.{items_of};
ghost use Rattle.dy_rules.specs.Signatures.{named_items};
ghost use Rattle.dy_read_parts.specs.Front.{seen_front};
ghost use Rattle.dy_read_outers.specs.Grown.{read_grown};
ghost use Rattle.dy_read_arms.specs.ReadBodies.{read_parameters};
ghost use Rattle.dy_read_forms.specs.ReadDefinitions as spec;
ghost use Rattle.dy_read_forms.specs.ReadDefinitions.{read_found};
ghost use Rattle.dy_read_forms.specs.ReadForms.{capped_form, slots_in, SlotsDepth};
ghost use Rattle.dy_read_statements.specs.ReadMethods.{read_named, NamedDepth};
ghost use Rattle.dy_read_bodies.specs.SignatureFronts.{seen_signature, SignatureDepth};
ghost use Rattle.dy_read_types.specs.Targets.{read_target};
ghost use Rattle.dy_read_types.specs.TypeFronts.{seen_types, TypesDepth};

use crate::form_read::{Binding, FormRead};
use crate::name_front::{NameFront, name_front};
use crate::slots::slots_items;
use dy_read_bodies::expressions::expression;
use dy_read_bodies::methods::named_method;
use dy_read_bodies::signatures::signature_front;
use dy_read_outers::grown::Grown;
use dy_read_parts::depth::{DEPTH_LIMIT, deepen};
use dy_read_parts::front::{Front, headed};
use dy_read_parts::names::names_inside;
use dy_read_parts::sides::sides_of_equals;
use dy_read_statements::method_read::NamedRead;
use dy_read_statements::signature_front::SignatureFront;
use dy_read_types::targets::target_items;
use dy_read_types::types::types_items;
use dy_tree::{Form, Fragment, Slot, Splitting, Target, Token, TypeForm};
use std::alloc::{AllocError, Global};

/// A class with its slots, of which the deepest is so deep.
fn class_of(
    define: &Token,
    adjectives: Vec<Token>,
    name: &Token,
    superclasses: Vec<Token>,
    slots: Option<Vec<Slot>>,
    depth: usize,
) -> Result<Option<FormRead>, AllocError>
    requires { SlotsDepth 0 depth slots }
    ensures { IfOk result (λ found. option_map read_found found
        ≡ option_map (reading.class_of define.now adjectives.items name.now superclasses.items)
        (option_map slots_in slots)) }
{
    match slots {
        Some(slots) => Ok(Some(FormRead {
            form: Form::Class {
                define: define.copy()?,
                adjectives,
                name: name.copy()?,
                superclasses,
                slots,
            },
            is_deep: depth >= DEPTH_LIMIT,
        })),
        None => Ok(None),
    }
}

/// The definition of a class, behind its word.
#[tactic(auto, using(crate::proofs::DefinitionParts::class_is, crate::proofs::DefinitionParts::class_through))]
pub(crate) fn class(
    alloc: Global,
    define: &Token,
    adjectives: Vec<Token>,
    fragments: &[Fragment],
) -> Result<Option<FormRead>, AllocError>
    ensures { IfOk result (λ found. option_map read_found found
        ≡ option_map capped_form (reading.class_items define.now adjectives.items
        (items_of (seen_fragments fragments.now)))) }
{
    match name_front(fragments) {
        Some(NameFront { name, rest }) => match headed(rest) {
            Some(front) => match names_inside(alloc, &front)? {
                Some(superclasses) => {
                    let mut depth = 0;
                    let slots = slots_items(alloc, front.rest, &mut depth)?;
                    class_of(define, adjectives, name, superclasses, slots, depth)
                }
                None => Ok(None),
            },
            None => Ok(None),
        },
        None => Ok(None),
    }
}

/// The definition of a method, whose parts are so deep.
#[tactic(auto, using(dy_rules_depth::proofs::Rows::row_body))]
fn method_of(
    define: &Token,
    adjectives: Vec<Token>,
    word: &Token,
    named: Option<NamedRead>,
    depth: usize,
) -> Result<Option<FormRead>, AllocError>
    requires { NamedDepth 0 depth named }
    ensures { IfOk result (λ found. option_map read_found found
        ≡ option_map (spec.method_parts define.now adjectives.items word.now)
        (option_map read_named named)) }
{
    match named {
        Some(named) => Ok(Some(FormRead {
            form: Form::Method {
                define: define.copy()?,
                adjectives,
                word: word.copy()?,
                name: named.name,
                parameters: named.method.parameters,
                body: named.method.body,
            },
            is_deep: depth >= DEPTH_LIMIT,
        })),
        None => Ok(None),
    }
}

/// The definition of a method, behind its word.
#[tactic(auto, using(crate::proofs::DefinitionParts::method_through))]
pub(crate) fn method(
    alloc: Global,
    define: &Token,
    adjectives: Vec<Token>,
    word: &Token,
    fragments: &[Fragment],
) -> Result<Option<FormRead>, AllocError>
    ensures { IfOk result (λ found. option_map read_found found
        ≡ option_map capped_form (option_map
        (reading.method_of_form define.now adjectives.items word.now)
        (named_items (items_of (seen_fragments fragments.now))))) }
{
    let mut depth = 0;
    let named = named_method(alloc, fragments, &mut depth)?;
    method_of(define, adjectives, word, named, depth)
}

/// The definition of a function, whose parts are so deep.
#[tactic(auto, using(dy_rules_depth::proofs::Rows::row_body))]
fn function_of(
    define: &Token,
    adjectives: Vec<Token>,
    named: Option<NamedRead>,
    depth: usize,
) -> Result<Option<FormRead>, AllocError>
    requires { NamedDepth 0 depth named }
    ensures { IfOk result (λ found. option_map read_found found
        ≡ option_map (spec.function_parts define.now adjectives.items)
        (option_map read_named named)) }
{
    match named {
        Some(named) => Ok(Some(FormRead {
            form: Form::Function {
                define: define.copy()?,
                adjectives,
                name: named.name,
                parameters: named.method.parameters,
                body: named.method.body,
            },
            is_deep: depth >= DEPTH_LIMIT,
        })),
        None => Ok(None),
    }
}

/// The definition of a function, behind its word.
#[tactic(auto, using(crate::proofs::DefinitionParts::function_through))]
pub(crate) fn function(
    alloc: Global,
    define: &Token,
    adjectives: Vec<Token>,
    fragments: &[Fragment],
) -> Result<Option<FormRead>, AllocError>
    ensures { IfOk result (λ found. option_map read_found found
        ≡ option_map capped_form (option_map (reading.function_of_form define.now adjectives.items)
        (named_items (items_of (seen_fragments fragments.now))))) }
{
    let mut depth = 0;
    let named = named_method(alloc, fragments, &mut depth)?;
    function_of(define, adjectives, named, depth)
}

/// A target that is so deep, bound to a value.
fn bound_to(target: Target, value: Option<Grown>, depth: usize) -> Option<Binding>
    requires { depth ≡ measure.target_depth (read_target target) }
    ensures { option_map spec.read_bound result
        ≡ option_map (spec.bound_of (read_target target)) (option_map read_grown value) }
{
    match value {
        Some(grown) => {
            let mut deepest = depth;
            deepen(&mut deepest, grown.depth);
            Some(Binding {
                target,
                value: Box::into_inner(grown.tree),
                depth: deepest,
            })
        }
        None => None,
    }
}

/// A target and what it is bound to.
#[tactic(auto, using(crate::proofs::DefinitionParts::no_target))]
fn bound(alloc: Global, fragments: &[Fragment]) -> Result<Option<Binding>, AllocError>
    ensures { IfOk result (λ found. option_map spec.read_bound found
        ≡ option_map spec.capped_bound
        (spec.bound_parts (items_of (seen_fragments fragments.now)))) }
{
    match sides_of_equals(fragments) {
        Some(sides) => {
            let mut depth = 0;
            match target_items(alloc, sides.before, &mut depth)? {
                Some(target) => {
                    let value = expression(alloc, Splitting::Nothing, sides.after)?;
                    Ok(bound_to(target, value, depth))
                }
                None => Ok(None),
            }
        }
        None => Ok(None),
    }
}

fn constant_of(define: &Token, bound: Option<Binding>) -> Result<Option<FormRead>, AllocError>
    ensures { IfOk result (λ found. option_map read_found found
        ≡ option_map (spec.bound_form (reading.constant_of_form define.now))
        (option_map spec.read_bound bound)) }
{
    match bound {
        Some(bound) => Ok(Some(FormRead {
            form: Form::Constant {
                define: define.copy()?,
                target: bound.target,
                value: bound.value,
            },
            is_deep: bound.depth >= DEPTH_LIMIT,
        })),
        None => Ok(None),
    }
}

/// The definition of a constant, behind its word.
#[tactic(auto, using(crate::proofs::DefinitionParts::constant_through))]
pub(crate) fn constant(
    alloc: Global,
    define: &Token,
    fragments: &[Fragment],
) -> Result<Option<FormRead>, AllocError>
    ensures { IfOk result (λ found. option_map read_found found
        ≡ option_map capped_form (reading.bound_items_of (reading.constant_of_form define.now)
        (items_of (seen_fragments fragments.now)))) }
{
    constant_of(define, bound(alloc, fragments)?)
}

fn variable_of(define: &Token, bound: Option<Binding>) -> Result<Option<FormRead>, AllocError>
    ensures { IfOk result (λ found. option_map read_found found
        ≡ option_map (spec.bound_form (reading.variable_of_form define.now))
        (option_map spec.read_bound bound)) }
{
    match bound {
        Some(bound) => Ok(Some(FormRead {
            form: Form::Variable {
                define: define.copy()?,
                target: bound.target,
                value: bound.value,
            },
            is_deep: bound.depth >= DEPTH_LIMIT,
        })),
        None => Ok(None),
    }
}

/// The definition of a variable, behind its word.
#[tactic(auto, using(crate::proofs::DefinitionParts::variable_through))]
pub(crate) fn variable(
    alloc: Global,
    define: &Token,
    fragments: &[Fragment],
) -> Result<Option<FormRead>, AllocError>
    ensures { IfOk result (λ found. option_map read_found found
        ≡ option_map capped_form (reading.bound_items_of (reading.variable_of_form define.now)
        (items_of (seen_fragments fragments.now)))) }
{
    variable_of(define, bound(alloc, fragments)?)
}

/// The definition of a generic function, whose parameters are so deep, where nothing stands behind
/// them.
#[tactic(auto, using(crate::proofs::Ends::generic_ended, crate::proofs::Ends::generic_followed))]
fn generic_end(
    define: &Token,
    adjectives: Vec<Token>,
    name: &Token,
    signature: SignatureFront,
    depth: usize,
) -> Result<Option<FormRead>, AllocError>
    requires { depth ≡ measure.parameters_depth (read_parameters signature.parameters) }
    ensures { IfOk result (λ found. option_map read_found found
        ≡ spec.generic_end define.now adjectives.items name.now (seen_signature signature.entry)
        (items_of (seen_fragments signature.entry.rest.now))) }
{
    if signature.rest.is_empty() {
        Ok(Some(FormRead {
            form: Form::Generic {
                define: define.copy()?,
                adjectives,
                name: name.copy()?,
                parameters: signature.parameters,
            },
            is_deep: depth >= DEPTH_LIMIT,
        }))
    } else {
        Ok(None)
    }
}

/// The definition of a generic function, whose parameters are so deep.
fn generic_of(
    define: &Token,
    adjectives: Vec<Token>,
    name: &Token,
    signature: Option<SignatureFront>,
    depth: usize,
) -> Result<Option<FormRead>, AllocError>
    requires { SignatureDepth 0 depth signature }
    ensures { IfOk result (λ found. option_map read_found found
        ≡ option_and_then (spec.generic_if define.now adjectives.items name.now)
        (option_map seen_signature signature.entry)) }
{
    match signature {
        Some(signature) => {
            if signature.is_plain {
                generic_end(define, adjectives, name, signature, depth)
            } else {
                Ok(None)
            }
        }
        None => Ok(None),
    }
}

/// The definition of a generic function, behind its word.
#[tactic(auto, using(crate::proofs::DefinitionParts::generic_is, crate::proofs::DefinitionParts::generic_through))]
pub(crate) fn generic(
    alloc: Global,
    define: &Token,
    adjectives: Vec<Token>,
    fragments: &[Fragment],
) -> Result<Option<FormRead>, AllocError>
    ensures { IfOk result (λ found. option_map read_found found
        ≡ option_map capped_form (reading.generic_items define.now adjectives.items
        (items_of (seen_fragments fragments.now)))) }
{
    match name_front(fragments) {
        Some(NameFront { name, rest }) => {
            let mut depth = 0;
            let signature = signature_front(alloc, rest, &mut depth)?;
            generic_of(define, adjectives, name, signature, depth)
        }
        None => Ok(None),
    }
}

/// The definition of a domain with its types, of which the deepest is so deep.
#[tactic(auto, using(crate::proofs::DefinitionParts::types_in, crate::proofs::DefinitionParts::domain_deep))]
fn domain_of(
    define: &Token,
    name: &Token,
    types: Option<Vec<TypeForm>>,
    depth: usize,
) -> Result<Option<FormRead>, AllocError>
    requires { TypesDepth 0 depth types }
    ensures { IfOk result (λ found. option_map read_found found
        ≡ option_map (reading.domain_of define.now name.now) (option_map seen_types types)) }
{
    match types {
        Some(types) => Ok(Some(FormRead {
            form: Form::Domain {
                define: define.copy()?,
                name: name.copy()?,
                types,
            },
            is_deep: depth >= DEPTH_LIMIT,
        })),
        None => Ok(None),
    }
}

/// The definition of a domain behind its name, where nothing stands behind its types.
#[tactic(auto, using(crate::proofs::DefinitionParts::domain_through, crate::proofs::Ends::domain_ended, crate::proofs::Ends::domain_followed))]
fn domain_front(
    alloc: Global,
    define: &Token,
    name: &Token,
    front: &Front<'_>,
) -> Result<Option<FormRead>, AllocError>
    ensures { IfOk result (λ found. option_map read_found found
        ≡ option_map capped_form (reading.domain_headed define.now name.now
        (seen_front front.now))) }
{
    if front.rest.is_empty() {
        let mut depth = 0;
        let types = types_items(alloc, front.inner, &mut depth)?;
        domain_of(define, name, types, depth)
    } else {
        Ok(None)
    }
}

/// The definition of a domain, behind its word.
#[tactic(auto, using(crate::proofs::DefinitionParts::domain_is))]
pub(crate) fn domain(
    alloc: Global,
    define: &Token,
    fragments: &[Fragment],
) -> Result<Option<FormRead>, AllocError>
    ensures { IfOk result (λ found. option_map read_found found
        ≡ option_map capped_form (reading.domain_items define.now
        (items_of (seen_fragments fragments.now)))) }
{
    match name_front(fragments) {
        Some(NameFront { name, rest }) => match headed(rest) {
            Some(front) => domain_front(alloc, define, name, &front),
            None => Ok(None),
        },
        None => Ok(None),
    }
}
