//! Expressions as terms of the core (DRM 4).

ghost use Rattle.std.specs.Prelude.{◌≡◌, map, flat_map, IfOk};
ghost use Rattle.dy_term.specs.Drafts.{no_place, seen_term, seen_option};
ghost use Rattle.dy_drafts.specs.Parts.{setting, setter_at};
ghost use Rattle.dy_rules.specs.SeenForms.{seen_tree};
ghost use Rattle.dy_desugar.specs.Table as table;
ghost use Rattle.dy_desugar.specs.Lists.{argument_terms, maybe_tree};

use crate::first::{first_token, name_in};
use crate::statements::statement_of;
use dy_drafts::{
    element, keyword_of, list_of, literal_of, logical, member, operation, set_element, set_member,
    setter_at, setting, unary, vector_of,
};
use dy_term::{DraftTerm, call_draft, no_place_draft, set_draft};
use dy_tree::{Argument, Expression, Precedence, Token};
use std::alloc::{AllocError, Global};

/// The term of an expression.
#[cycle(terms)]
pub fn term_of(alloc: Global, expression: &Expression) -> Result<DraftTerm, AllocError>
    ensures { IfOk result (λ term. seen_term term ≡ table.core_of (seen_tree expression.now)) }
{
    match expression {
        Expression::Assign { place, value } => {
            let value = term_of(alloc, value)?;
            assignment_of(alloc, place, value)
        }
        Expression::Operation {
            precedence,
            left,
            operator,
            right,
        } => {
            let left = term_of(alloc, left)?;
            let right = term_of(alloc, right)?;
            operation_of(alloc, *precedence, left, operator, right)
        }
        Expression::Unary { operator, operand } => unary(alloc, operator, term_of(alloc, operand)?),
        Expression::Call {
            function,
            arguments,
        } => {
            let function = term_of(alloc, function)?;
            let arguments = arguments_of(alloc, arguments)?;
            call_draft(alloc, function, arguments)
        }
        Expression::Element {
            object,
            opener,
            index,
        } => {
            let object = term_of(alloc, object)?;
            let index = term_of(alloc, index)?;
            element(alloc, object, opener, index)
        }
        Expression::Member { object, name } => member(alloc, term_of(alloc, object)?, name),
        Expression::Literal(form) => Ok(DraftTerm::Lit(literal_of(alloc, form)?)),
        Expression::Name(token) => Ok(DraftTerm::Name(token.copy()?)),
        Expression::List { items, tail, .. } => Ok(DraftTerm::Lit(list_of(alloc, items, tail)?)),
        Expression::Vector { items, .. } => Ok(DraftTerm::Lit(vector_of(alloc, items)?)),
        Expression::Statement(statement) => statement_of(alloc, statement),
    }
}

/// The term of an expression that may be left out.
#[cycle(terms)]
pub(crate) fn maybe_term_of(
    alloc: Global,
    expression: &Option<Expression>,
) -> Result<Option<DraftTerm>, AllocError>
    ensures { IfOk result (λ term. seen_option term ≡ maybe_tree expression.now) }
{
    match expression {
        None => Ok(None),
        Some(expression) => Ok(Some(term_of(alloc, expression)?)),
    }
}

/// An operation of two operands, from their terms.
fn operation_of(
    alloc: Global,
    precedence: Precedence,
    left: DraftTerm,
    operator: &Token,
    right: DraftTerm,
) -> Result<DraftTerm, AllocError>
    ensures { IfOk result (λ term. seen_term term
        ≡ table.operation_core precedence operator.now (seen_term left) (seen_term right)) }
{
    match precedence {
        Precedence::Logical => logical(alloc, left, operator, right),
        Precedence::Comparison | Precedence::Sum => operation(alloc, left, operator, right),
        Precedence::Product | Precedence::Power => operation(alloc, left, operator, right),
    }
}

/// The term of an assignment, from that of its value.
#[cycle(terms)]
fn assignment_of(
    alloc: Global,
    place: &Expression,
    value: DraftTerm,
) -> Result<DraftTerm, AllocError>
    ensures { IfOk result (λ term. seen_term term
        ≡ table.assignment_of (seen_tree place.now) (table.core_of (seen_tree place.now))
        (seen_term value)) }
{
    match place {
        Expression::Name(token) => set_draft(alloc, token.copy()?, value),
        Expression::Element {
            object,
            opener,
            index,
        } => {
            let object = term_of(alloc, object)?;
            let index = term_of(alloc, index)?;
            set_element(alloc, object, opener, index, value)
        }
        Expression::Member { object, name } => {
            let object = term_of(alloc, object)?;
            set_member(alloc, object, name, value)
        }
        Expression::Call {
            function,
            arguments,
        } => match name_in(function) {
            Some(name) => {
                let operands = arguments_of(alloc, arguments)?;
                set_call(alloc, name, operands, value)
            }
            None => no_place_of(alloc, place, value),
        },
        _ => no_place_of(alloc, place, value),
    }
}

/// An assignment to a call of a name, from the terms of its arguments.
fn set_call(
    alloc: Global,
    name: &Token,
    operands: Vec<DraftTerm>,
    value: DraftTerm,
) -> Result<DraftTerm, AllocError>
    ensures { IfOk result (λ term. seen_term term
        ≡ setting (setter_at name.now) (map seen_term operands.items) (seen_term value)) }
{
    let setter = setter_at(alloc, name)?;
    setting(alloc, setter, operands, value)
}

/// The term of an assignment to what is no place.
#[cycle(terms)]
fn no_place_of(alloc: Global, place: &Expression, value: DraftTerm) -> Result<DraftTerm, AllocError>
    ensures { IfOk result (λ term. seen_term term
        ≡ no_place (table.first_token (seen_tree place.now)) (table.core_of (seen_tree place.now))
        (seen_term value)) }
{
    let token = first_token(place).copy()?;
    let found = term_of(alloc, place)?;
    no_place_draft(alloc, token, found, value)
}

/// The terms of arguments: a keyword and its value are two.
#[cycle(terms)]
fn arguments_of(alloc: Global, arguments: &Vec<Argument>) -> Result<Vec<DraftTerm>, AllocError>
    ensures { IfOk result (λ terms. map seen_term terms.items
        ≡ flat_map argument_terms arguments.now.items) }
{
    let mut terms = Vec::new(alloc);
    for argument in arguments {
        match argument {
            Argument::Keyword { keyword, value } => {
                let keyword = keyword_of(alloc, keyword)?;
                let value = term_of(alloc, value)?;
                terms.push(keyword)?;
                terms.push(value)?;
            }
            Argument::Value(value) => {
                terms.push(term_of(alloc, value)?)?;
            }
        }
    }
    Ok(terms)
}
