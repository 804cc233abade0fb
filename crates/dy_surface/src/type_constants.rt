//! Constants that stand for types (own; the forms of DRM 4, "Types").

ghost use Rattle.std.specs.Prelude.{◌≡◌, map, option_map, IfOk};
ghost use Rattle.dy_term.specs.Types.{seen_type};
ghost use Rattle.dy_rules.specs.ConstantTrees.{constants_of, is_nil, tail_of};
ghost use Rattle.dy_rules.specs.SeenTypes.{seen_constant};
ghost use Rattle.dy_rules.specs.SeenForms.{seen_tree, seen_argument};
ghost use Rattle.dy_surface.specs.TypeConstants as spec;
ghost use Rattle.dy_rules.specs.Trees.{Tree, arguments_of};

use dy_desugar::name_in;
use dy_drafts::{integer_of, literal_of};
use dy_term::{DraftType, Literal, union_draft};
use dy_tree::{Argument, ConstantForm, Expression, LiteralForm, Token};
use std::alloc::{AllocError, Global};

/// Whether a list is `#()`.
fn is_nil(items: &[ConstantForm], tail: &Option<ConstantForm>) -> bool
    ensures { result ≡ is_nil (constants_of (map seen_constant items.now))
        (tail_of (option_map seen_constant tail.now)) }
{
    match items.split_first() {
        Some(_) => false,
        None => match tail {
            Some(_) => false,
            None => true,
        },
    }
}

/// The type of `singleton`, of an expression.
fn only_value(
    alloc: Global,
    word: &Token,
    expression: &Expression,
) -> Result<Option<DraftType>, AllocError>
    ensures { IfOk result (λ found. option_map seen_type found
        ≡ spec.only_value word.now (seen_tree expression.now)) }
{
    match expression {
        Expression::Literal(form) => Ok(Some(DraftType::Single(literal_of(alloc, form)?))),
        Expression::List { items, tail, .. } => {
            if is_nil(items, tail) {
                Ok(Some(DraftType::Single(Literal::Nil)))
            } else {
                Ok(None)
            }
        }
        Expression::Name(token) => Ok(Some(DraftType::SingleName(word.copy()?, token.copy()?))),
        _ => Ok(None),
    }
}

/// `singleton(value)`
fn singleton_type(
    alloc: Global,
    word: &Token,
    arguments: &[Argument],
) -> Result<Option<DraftType>, AllocError>
    ensures { IfOk result (λ found. option_map seen_type found
        ≡ spec.singleton_type word.now (map seen_argument arguments.now)) }
{
    if arguments.len() != 1 {
        return Ok(None);
    }
    match &arguments[0] {
        Argument::Value(value) => only_value(alloc, word, value),
        Argument::Keyword { .. } => Ok(None),
    }
}

/// `type-union(type, ..)`, of the types that the arguments are.
fn union_type(word: &Token, types: Option<Vec<DraftType>>) -> Result<Option<DraftType>, AllocError>
    ensures { IfOk result (λ found. option_map seen_type found
        ≡ spec.union_type word.now (option_map (λ types. map seen_type types.items) types)) }
{
    match types {
        None => Ok(None),
        Some(types) => {
            if types.is_empty() {
                Ok(None)
            } else {
                Ok(Some(union_draft(word.copy()?, types)))
            }
        }
    }
}

/// The number that a literal is, if it is one.
fn number_of(form: &LiteralForm) -> Option<i64>
    ensures { result ≡ spec.number_in (Tree.literal form.now) }
{
    match form {
        LiteralForm::Int(form) => Some(integer_of(form)),
        _ => None,
    }
}

/// The number that an expression is, if it is one.
fn number_in(expression: &Expression) -> Option<i64>
    ensures { result ≡ spec.number_in (seen_tree expression.now) }
{
    match expression {
        Expression::Literal(form) => number_of(form),
        _ => None,
    }
}

/// The number of the keyword argument with this keyword, if it is one.
fn limit_in(text: &[u8], argument: &Argument) -> Option<i64>
    ensures { result ≡ spec.limit_in text.now (seen_argument argument.now) }
{
    match argument {
        Argument::Keyword { keyword, value } => {
            if keyword.is_spelled(text) {
                number_in(value)
            } else {
                None
            }
        }
        Argument::Value(_) => None,
    }
}

/// From a least to a greatest number, where there is one.
fn between(
    word: &Token,
    least: Option<i64>,
    greatest: Option<i64>,
) -> Result<Option<DraftType>, AllocError>
    ensures { IfOk result (λ found. option_map seen_type found
        ≡ spec.between word.now least greatest) }
{
    match (least, greatest) {
        (Some(least), Some(greatest)) => {
            Ok(Some(DraftType::Range(word.copy()?, least, greatest)))
        }
        _ => Ok(None),
    }
}

/// The range with one bound.
fn bounded_by(word: &Token, bound: &Argument) -> Result<Option<DraftType>, AllocError>
    ensures { IfOk result (λ found. option_map seen_type found
        ≡ spec.bounded_by word.now (seen_argument bound.now)) }
{
    match between(word, limit_in(b"min", bound), Some(i64::MAX))? {
        Some(found) => Ok(Some(found)),
        None => between(word, Some(i64::MIN), limit_in(b"max", bound)),
    }
}

/// The range with two bounds, in either order.
fn bounded_by_both(
    word: &Token,
    bound: &Argument,
    other: &Argument,
) -> Result<Option<DraftType>, AllocError>
    ensures { IfOk result (λ found. option_map seen_type found
        ≡ spec.bounded_by_both word.now (seen_argument bound.now) (seen_argument other.now)) }
{
    match between(word, limit_in(b"min", bound), limit_in(b"max", other))? {
        Some(found) => Ok(Some(found)),
        None => between(word, limit_in(b"min", other), limit_in(b"max", bound)),
    }
}

/// Whether an argument is the class `<integer>`, by its text.
fn is_integer_class(argument: &Argument) -> bool
    ensures { result ≡ spec.is_integer_class (seen_argument argument.now) }
{
    match argument {
        Argument::Keyword { .. } => false,
        Argument::Value(value) => match name_in(value) {
            Some(token) => token.is_spelled(b"<integer>"),
            None => false,
        },
    }
}

/// `limited(<integer>, min: number, max: number)`
#[tactic(auto, using(crate::proofs::Fronts::limited_other))]
fn limited_type(word: &Token, arguments: &[Argument]) -> Result<Option<DraftType>, AllocError>
    ensures { IfOk result (λ found. option_map seen_type found
        ≡ spec.limited_type word.now (map seen_argument arguments.now)) }
{
    if arguments.is_empty() || !is_integer_class(&arguments[0]) {
        return Ok(None);
    }
    let count = arguments.len();
    if count == 1 {
        Ok(Some(DraftType::Range(word.copy()?, i64::MIN, i64::MAX)))
    } else if count == 2 {
        bounded_by(word, &arguments[1])
    } else if count == 3 {
        bounded_by_both(word, &arguments[1], &arguments[2])
    } else {
        Ok(None)
    }
}

/// The type that a call of a word is, if it is one.
#[cycle(types)]
fn form_type(
    alloc: Global,
    arguments: &Vec<Argument>,
    word: &Token,
) -> Result<Option<DraftType>, AllocError>
    ensures { IfOk result (λ found. option_map seen_type found
        ≡ spec.form_type word.now (map seen_argument arguments.now.items)
        (spec.types_in (arguments_of (map seen_argument arguments.now.items)))) }
{
    if word.is_word(b"singleton") {
        singleton_type(alloc, word, arguments)
    } else if word.is_word(b"type-union") {
        let types = types_in(alloc, arguments)?;
        union_type(word, types)
    } else if word.is_word(b"limited") {
        limited_type(word, arguments)
    } else {
        Ok(None)
    }
}

/// The type that an expression is written as, if it is one.
#[cycle(types)]
fn type_in(alloc: Global, expression: &Expression) -> Result<Option<DraftType>, AllocError>
    ensures { IfOk result (λ found. option_map seen_type found
        ≡ spec.type_in (seen_tree expression.now)) }
{
    match expression {
        Expression::Name(token) => Ok(Some(DraftType::Name(token.copy()?))),
        Expression::Call {
            function,
            arguments,
        } => match name_in(function) {
            Some(word) => form_type(alloc, arguments, word),
            None => Ok(None),
        },
        _ => Ok(None),
    }
}

/// The types that arguments are, if all are types.
#[cycle(types)]
fn types_in(alloc: Global, arguments: &Vec<Argument>) -> Result<Option<Vec<DraftType>>, AllocError>
    ensures { IfOk result (λ found. option_map (λ types. map seen_type types.items) found
        ≡ spec.types_in (arguments_of (map seen_argument arguments.now.items))) }
{
    let mut types = Vec::new(alloc);
    for argument in arguments {
        match argument_type(alloc, argument)? {
            Some(found) => types.push(found)?,
            None => return Ok(None),
        }
    }
    Ok(Some(types))
}

/// The type that an argument is, if it is one.
#[cycle(types)]
fn argument_type(alloc: Global, argument: &Argument) -> Result<Option<DraftType>, AllocError>
    ensures { IfOk result (λ found. option_map seen_type found
        ≡ spec.argument_type (seen_argument argument.now)) }
{
    match argument {
        Argument::Keyword { .. } => Ok(None),
        Argument::Value(value) => type_in(alloc, value),
    }
}

/// The type that a constant with this value stands for, if it is one.
pub(crate) fn constant_type(
    alloc: Global,
    expression: &Expression,
) -> Result<Option<DraftType>, AllocError>
    ensures { IfOk result (λ found. option_map seen_type found
        ≡ spec.constant_type (seen_tree expression.now)) }
{
    match expression {
        Expression::Call { .. } => type_in(alloc, expression),
        _ => Ok(None),
    }
}
