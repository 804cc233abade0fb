//! The constructs of whole forms (DRM 5 and 6).

ghost use Rattle.std.specs.Prelude.{◌≡◌, map, flat_map, option_map};
ghost use Rattle.dy_rules.specs.Trees.{arguments_of};
ghost use Rattle.dy_rules.specs.SeenForms.{seen_argument, seen_form, seen_option, seen_slot};
ghost use Rattle.dy_rules.specs.SeenForms.{seen_tree};
ghost use Rattle.dy_construct_parts.specs.Table as table;
ghost use Rattle.dy_construct_parts.specs.Words as words;
ghost use Rattle.dy_constructs.specs.Forms as spec;
ghost use Rattle.dy_constructs.specs.Bodies.{in_each_argument};

use crate::bodies::in_body;
use crate::expressions::{in_argument, in_maybe, in_value};
use crate::parameters::in_parameters;
use dy_construct_parts::bindings::{in_declared, in_target};
use dy_construct_parts::construct::{Construct, absent, where_true};
use dy_construct_parts::directives::has_directives;
use dy_construct_parts::types::in_types;
use dy_construct_parts::words::{adjective, slot_adjective};
use dy_tree::{Argument, Expression, Form, LiteralForm, Slot, SlotOption, Token};

/// Adjectives of a definition.
fn in_adjectives(adjectives: &Vec<Token>) -> Option<Construct>
    ensures { result ≡ table.first_absent (map words.adjective adjectives.now.items) }
{
    let mut found = None;
    for word in adjectives {
        found = found.or(adjective(word));
    }
    found
}

fn in_slot_adjectives(adjectives: &Vec<Token>) -> Option<Construct>
    ensures { result ≡ table.first_absent (map words.slot_adjective adjectives.now.items) }
{
    let mut found = None;
    for word in adjectives {
        found = found.or(slot_adjective(word));
    }
    found
}

fn in_option(option: &SlotOption) -> Option<Construct>
    ensures { result ≡ table.first_absent (spec.in_option (seen_option option.now)) }
{
    match option {
        SlotOption::InitKeyword(_) => absent(Construct::InitKeyword),
        SlotOption::RequiredInitKeyword(_) => absent(Construct::RequiredInitKeyword),
        SlotOption::InitValue(value) => absent(Construct::InitialValue).or(in_value(value)),
        SlotOption::InitFunction(value) => absent(Construct::InitFunction).or(in_value(value)),
        SlotOption::Setter(_) => absent(Construct::NamedSetter),
    }
}

fn in_options(options: &Vec<SlotOption>) -> Option<Construct>
    ensures { result
        ≡ table.first_absent (flat_map spec.in_option (map seen_option options.now.items)) }
{
    let mut found = None;
    for option in options {
        found = found.or(in_option(option));
    }
    found
}

fn in_slot(slot: &Slot) -> Option<Construct>
    ensures { result ≡ table.first_absent (spec.in_slot (seen_slot slot.now)) }
{
    absent(Construct::Slot)
        .or(in_slot_adjectives(&slot.adjectives))
        .or(in_declared(Construct::TypedSlot, &slot.declared))
        .or(in_maybe(Construct::InitialValue, &slot.value))
        .or(in_options(&slot.options))
}

fn in_slots(slots: &Vec<Slot>) -> Option<Construct>
    ensures { result ≡ table.first_absent (flat_map spec.in_slot (map seen_slot slots.now.items)) }
{
    let mut found = None;
    for slot in slots {
        found = found.or(in_slot(slot));
    }
    found
}

#[tactic(auto, using(crate::proofs::Unnamed::statement_unnamed))]
fn names_format_out(function: &Expression) -> bool
    ensures { result ≡ spec.names_format_out (seen_tree function.now) }
{
    match function {
        Expression::Name(token) => token.is_spelled(b"format-out"),
        Expression::Assign { .. }
        | Expression::Operation { .. }
        | Expression::Unary { .. }
        | Expression::Call { .. }
        | Expression::Element { .. }
        | Expression::Member { .. }
        | Expression::Literal(_)
        | Expression::List { .. }
        | Expression::Vector { .. }
        | Expression::Statement(_) => false,
    }
}

fn literal_text(form: &LiteralForm) -> Option<&Token>
    ensures { option_map (λ token. token.now) result ≡ spec.literal_text form.now }
{
    match form {
        LiteralForm::Str(token) => Some(token),
        LiteralForm::Int(_)
        | LiteralForm::Char(_)
        | LiteralForm::Bool(_)
        | LiteralForm::Symbol(_) => None,
    }
}

#[tactic(auto, using(crate::proofs::Unnamed::statement_no_text))]
fn text_in(expression: &Expression) -> Option<&Token>
    ensures { option_map (λ token. token.now) result ≡ spec.text_in (seen_tree expression.now) }
{
    match expression {
        Expression::Literal(form) => literal_text(form),
        Expression::Assign { .. }
        | Expression::Operation { .. }
        | Expression::Unary { .. }
        | Expression::Call { .. }
        | Expression::Element { .. }
        | Expression::Member { .. }
        | Expression::Name(_)
        | Expression::List { .. }
        | Expression::Vector { .. }
        | Expression::Statement(_) => None,
    }
}

fn argument_text(argument: &Argument) -> Option<&Token>
    ensures { option_map (λ token. token.now) result
        ≡ spec.argument_text (seen_argument argument.now) }
{
    match argument {
        Argument::Value(value) => text_in(value),
        Argument::Keyword { .. } => None,
    }
}

/// A string literal, and the arguments behind it.
fn text_first(arguments: &[Argument]) -> Option<(&Token, &[Argument])>
    ensures { option_map (λ found.
        (found.0.now, arguments_of (map seen_argument found.1.now))) result
        ≡ spec.text_first (arguments_of (map seen_argument arguments.now)) }
{
    match arguments.split_first() {
        None => None,
        Some((first, rest)) => match argument_text(first) {
            None => None,
            Some(text) => Some((text, rest)),
        },
    }
}

/// The text of a printing call, and the arguments behind it.
#[tactic(auto, using(crate::proofs::Unnamed::statement_prints_nothing))]
fn printing(expression: &Expression) -> Option<(&Token, &[Argument])>
    ensures { option_map (λ found.
        (found.0.now, arguments_of (map seen_argument found.1.now))) result
        ≡ spec.printing (seen_tree expression.now) }
{
    match expression {
        Expression::Call {
            function,
            arguments,
        } => {
            if names_format_out(function) {
                text_first(arguments)
            } else {
                None
            }
        }
        Expression::Assign { .. }
        | Expression::Operation { .. }
        | Expression::Unary { .. }
        | Expression::Element { .. }
        | Expression::Member { .. }
        | Expression::Literal(_)
        | Expression::Name(_)
        | Expression::List { .. }
        | Expression::Vector { .. }
        | Expression::Statement(_) => None,
    }
}

fn in_rest(arguments: &[Argument]) -> Option<Construct>
    ensures { result
        ≡ table.first_absent (in_each_argument (arguments_of (map seen_argument arguments.now))) }
{
    let mut found = None;
    for argument in arguments {
        found = found.or(in_argument(argument));
    }
    found
}

/// A printing call.
fn in_printing(text: &Token, rest: &[Argument]) -> Option<Construct>
    ensures { result
        ≡ table.first_absent
        (spec.in_printing text.now (arguments_of (map seen_argument rest.now))) }
{
    let fits = has_directives(text.text.bytes(), rest.len());
    absent(Construct::PrintingCall)
        .or(where_true(Construct::OtherDirectives, !fits))
        .or(in_rest(rest))
}

/// An expression as a form.
fn in_expression_form(expression: &Expression) -> Option<Construct>
    ensures { result
        ≡ table.first_absent
        (spec.in_expression_form (seen_tree expression.now)
        (spec.printing (seen_tree expression.now))) }
{
    match printing(expression) {
        None => absent(Construct::ExpressionForm).or(in_value(expression)),
        Some((text, rest)) => in_printing(text, rest),
    }
}

/// The first construct that a form holds and that has not come: what it is itself, then what its
/// parts hold, in the order of the text (DRM, appendix A). `None` says that every construct that it
/// holds has come. It recurs no deeper than the form's tree, and takes no memory.
pub fn absent_construct(form: &Form) -> Option<Construct>
    ensures { result ≡ table.first_absent (spec.in_form (seen_form form.now)) }
{
    match form {
        Form::Expression(expression) => in_expression_form(expression),
        Form::Class {
            adjectives,
            slots,
            ..
        } => absent(Construct::ClassDefinition)
            .or(in_adjectives(adjectives))
            .or(in_slots(slots)),
        Form::Constant { target, value, .. } => absent(Construct::ConstantDefinition)
            .or(in_target(target))
            .or(in_value(value)),
        Form::Variable { target, value, .. } => absent(Construct::VariableDefinition)
            .or(in_target(target))
            .or(in_value(value)),
        Form::Generic {
            adjectives,
            parameters,
            ..
        } => absent(Construct::GenericDefinition)
            .or(in_adjectives(adjectives))
            .or(in_parameters(parameters)),
        Form::Method {
            adjectives,
            parameters,
            body,
            ..
        } => absent(Construct::MethodDefinition)
            .or(in_adjectives(adjectives))
            .or(in_parameters(parameters))
            .or(in_body(body)),
        Form::Function {
            adjectives,
            parameters,
            body,
            ..
        } => absent(Construct::FunctionDefinition)
            .or(in_adjectives(adjectives))
            .or(in_parameters(parameters))
            .or(in_body(body)),
        Form::Domain { types, .. } => absent(Construct::DomainDefinition).or(in_types(types)),
    }
}
