//! Whole forms.

ghost use Rattle.std.specs.Prelude.{◌≡◌, ◌++◌, [], ◌∷◌, map, codes, OnOk};
ghost use Rattle.dy_tree.specs.Fragments.{one, seen_fragments};
ghost use Rattle.dy_rules.specs.Trees.{body_of};
ghost use Rattle.dy_rules.specs.Forms.{class_form, generic_form, method_form};
ghost use Rattle.dy_rules.specs.Forms.{function_form, domain_form};
ghost use Rattle.dy_rules.specs.Marks.{equals_mark, semicolon_mark, statement_group, word_mark};
ghost use Rattle.dy_rules.specs.TypeWriting.{written_target};
ghost use Rattle.dy_rules.specs.Writing.{written, written_body, written_signature};
ghost use Rattle.dy_rules.specs.FormWriting.{written_form};
ghost use Rattle.dy_rules.specs.SeenTypes.{seen_target, seen_type};
ghost use Rattle.dy_rules.specs.SeenForms.{seen_form, seen_item, seen_parameters, seen_slot};
ghost use Rattle.dy_rules.specs.SeenForms.{seen_tree};

use crate::write::bodies::push_body;
use crate::write::expressions::push_whole;
use crate::write::parameters::push_signature;
use crate::write::slots::push_slots;
use dy_tree::{
    Expression, Form, Fragment, Item, Parameters, Slot, Target, Token, TokenKind, TypeForm,
};
use dy_write_parts::mark::{
    made, push_group, push_mark, push_operator, push_round, push_token, push_word,
};
use dy_write_parts::names::{push_adjectives, push_names};
use dy_write_parts::targets::push_target;
use dy_write_parts::types::push_types;
use std::alloc::{AllocError, Global};

/// Adds a definition that has an end.
fn push_definition(
    alloc: Global,
    define: &Token,
    inner: Vec<Fragment>,
    out: &mut Vec<Fragment>,
) -> Result<(), AllocError>
    ensures { OnOk result (seen_fragments out.new.items
        ≡ seen_fragments out.old.items ++ statement_group define.now (seen_fragments inner.items)
        ∷ []) }
{
    let opener = define.copy()?;
    let closer = made(alloc, TokenKind::Name, b"end")?;
    push_group(out, opener, inner, closer)
}

/// Adds the adjectives of a definition, its word and its name.
fn push_head(
    alloc: Global,
    adjectives: &Vec<Token>,
    word: &[u8],
    name: &Token,
    out: &mut Vec<Fragment>,
) -> Result<(), AllocError>
    ensures { OnOk result (seen_fragments out.new.items
        ≡ seen_fragments out.old.items
        ++ (map one adjectives.now.items ++ word_mark word.now ∷ one name.now ∷ [])) }
{
    push_adjectives(adjectives, out)?;
    push_word(alloc, out, word)?;
    push_token(out, name.copy()?)
}

/// Adds the adjectives of a method's definition, its word, which is kept, and its name.
fn push_method_head(
    adjectives: &Vec<Token>,
    word: &Token,
    name: &Token,
    out: &mut Vec<Fragment>,
) -> Result<(), AllocError>
    ensures { OnOk result (seen_fragments out.new.items
        ≡ seen_fragments out.old.items
        ++ (map one adjectives.now.items ++ one word.now ∷ one name.now ∷ [])) }
{
    push_adjectives(adjectives, out)?;
    push_token(out, word.copy()?)?;
    push_token(out, name.copy()?)
}

/// Adds the parameters and the body of a method or a function.
fn push_code(
    alloc: Global,
    parameters: &Parameters,
    body: &Vec<Item>,
    out: &mut Vec<Fragment>,
) -> Result<(), AllocError>
    ensures { OnOk result (seen_fragments out.new.items
        ≡ seen_fragments out.old.items
        ++ (written_signature (seen_parameters parameters.now) ++ semicolon_mark
        ∷ written_body (body_of (map seen_item body.now.items)))) }
{
    push_signature(alloc, parameters, out)?;
    push_mark(alloc, out, b";")?;
    push_body(alloc, body, out)
}

/// Adds the definition of a class.
fn push_class(
    alloc: Global,
    define: &Token,
    adjectives: &Vec<Token>,
    name: &Token,
    superclasses: &Vec<Token>,
    slots: &Vec<Slot>,
    out: &mut Vec<Fragment>,
) -> Result<(), AllocError>
    ensures { OnOk result (seen_fragments out.new.items
        ≡ seen_fragments out.old.items
        ++ written_form (class_form define.now adjectives.now.items name.now superclasses.now.items
        (map seen_slot slots.now.items))) }
{
    let mut inner = Vec::new(alloc);
    push_head(alloc, adjectives, b"class", name, &mut inner)?;
    let mut names = Vec::new(alloc);
    push_names(alloc, superclasses, &mut names)?;
    push_round(alloc, &mut inner, names)?;
    push_slots(alloc, slots, &mut inner)?;
    push_definition(alloc, define, inner, out)
}

/// Adds the definition of a constant or a variable.
fn push_binding(
    alloc: Global,
    define: &Token,
    word: &[u8],
    target: &Target,
    value: &Expression,
    out: &mut Vec<Fragment>,
) -> Result<(), AllocError>
    ensures { OnOk result (seen_fragments out.new.items
        ≡ seen_fragments out.old.items ++ one define.now ∷ word_mark word.now
        ∷ (written_target (seen_target target.now) ++ equals_mark
        ∷ written (seen_tree value.now))) }
{
    push_token(out, define.copy()?)?;
    push_word(alloc, out, word)?;
    push_target(alloc, target, out)?;
    push_operator(alloc, out, b"=")?;
    push_whole(alloc, value, out)
}

/// Adds the definition of a generic function.
fn push_generic(
    alloc: Global,
    define: &Token,
    adjectives: &Vec<Token>,
    name: &Token,
    parameters: &Parameters,
    out: &mut Vec<Fragment>,
) -> Result<(), AllocError>
    ensures { OnOk result (seen_fragments out.new.items
        ≡ seen_fragments out.old.items
        ++ written_form (generic_form define.now adjectives.now.items name.now
        (seen_parameters parameters.now))) }
{
    push_token(out, define.copy()?)?;
    push_head(alloc, adjectives, b"generic", name, out)?;
    push_signature(alloc, parameters, out)
}

/// Adds the definition of a method.
fn push_method(
    alloc: Global,
    define: &Token,
    adjectives: &Vec<Token>,
    word: &Token,
    name: &Token,
    parameters: &Parameters,
    body: &Vec<Item>,
    out: &mut Vec<Fragment>,
) -> Result<(), AllocError>
    ensures { OnOk result (seen_fragments out.new.items
        ≡ seen_fragments out.old.items
        ++ written_form (method_form define.now adjectives.now.items word.now name.now
        (seen_parameters parameters.now) (body_of (map seen_item body.now.items)))) }
{
    let mut inner = Vec::new(alloc);
    push_method_head(adjectives, word, name, &mut inner)?;
    push_code(alloc, parameters, body, &mut inner)?;
    push_definition(alloc, define, inner, out)
}

/// Adds the definition of a function.
fn push_function(
    alloc: Global,
    define: &Token,
    adjectives: &Vec<Token>,
    name: &Token,
    parameters: &Parameters,
    body: &Vec<Item>,
    out: &mut Vec<Fragment>,
) -> Result<(), AllocError>
    ensures { OnOk result (seen_fragments out.new.items
        ≡ seen_fragments out.old.items
        ++ written_form (function_form define.now adjectives.now.items name.now
        (seen_parameters parameters.now) (body_of (map seen_item body.now.items)))) }
{
    let mut inner = Vec::new(alloc);
    push_head(alloc, adjectives, b"function", name, &mut inner)?;
    push_code(alloc, parameters, body, &mut inner)?;
    push_definition(alloc, define, inner, out)
}

/// Adds the definition of a sealed domain.
fn push_domain(
    alloc: Global,
    define: &Token,
    name: &Token,
    types: &Vec<TypeForm>,
    out: &mut Vec<Fragment>,
) -> Result<(), AllocError>
    ensures { OnOk result (seen_fragments out.new.items
        ≡ seen_fragments out.old.items
        ++ written_form (domain_form define.now name.now (map seen_type types.now.items))) }
{
    push_token(out, define.copy()?)?;
    push_word(alloc, out, b"sealed")?;
    push_word(alloc, out, b"domain")?;
    push_token(out, name.copy()?)?;
    let mut inner = Vec::new(alloc);
    push_types(alloc, types, &mut inner)?;
    push_round(alloc, out, inner)
}

/// Adds the canonical fragments of a form. The only error is that memory did not suffice.
pub fn push_form(alloc: Global, form: &Form, out: &mut Vec<Fragment>) -> Result<(), AllocError>
    ensures { OnOk result (seen_fragments out.new.items
        ≡ seen_fragments out.old.items ++ written_form (seen_form form.now)) }
{
    match form {
        Form::Expression(value) => push_whole(alloc, value, out),
        Form::Class {
            define,
            adjectives,
            name,
            superclasses,
            slots,
        } => push_class(alloc, define, adjectives, name, superclasses, slots, out),
        Form::Constant {
            define,
            target,
            value,
        } => push_binding(alloc, define, b"constant", target, value, out),
        Form::Variable {
            define,
            target,
            value,
        } => push_binding(alloc, define, b"variable", target, value, out),
        Form::Generic {
            define,
            adjectives,
            name,
            parameters,
        } => push_generic(alloc, define, adjectives, name, parameters, out),
        Form::Method {
            define,
            adjectives,
            word,
            name,
            parameters,
            body,
        } => push_method(alloc, define, adjectives, word, name, parameters, body, out),
        Form::Function {
            define,
            adjectives,
            name,
            parameters,
            body,
        } => push_function(alloc, define, adjectives, name, parameters, body, out),
        Form::Domain {
            define,
            name,
            types,
        } => push_domain(alloc, define, name, types, out),
    }
}
