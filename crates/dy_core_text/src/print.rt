//! Drafts of the core as texts: a bracket, what it is, and its parts. Each part stands behind the
//! word that is given with it.

mod terms;
mod types;

use crate::written::Written;
use dy_term::{Draft, DraftClass, DraftInit, DraftSlot, DraftTop, DraftVariable, SlotKind};
use terms::{write_lambda, write_term};
use types::{write_declared, write_params, write_results, write_type, write_typed, write_types};

fn kind_word(kind: SlotKind) -> &'static str {
    match kind {
        SlotKind::Instance => " (Instance",
        SlotKind::Shared => " (Shared",
        SlotKind::EachSubclass => " (EachSubclass",
        SlotKind::Virtual => " (Virtual",
    }
}

fn write_slot(out: &mut Written, slot: &DraftSlot) {
    out.word(kind_word(slot.kind));
    out.token(" ", &slot.getter);
    write_declared(out, &slot.slot_type);
    out.maybe(" setter ", &slot.setter);
    out.maybe(" keyword ", &slot.keyword);
    out.flag(" required", slot.required);
    match &slot.init {
        None => {}
        Some(DraftInit::Each(term)) => write_term(out, " = ", term),
        Some(DraftInit::Calling(term)) => write_term(out, " by ", term),
    }
    out.word(")");
}

fn write_class(out: &mut Written, class: &DraftClass) {
    out.token("(class ", &class.name);
    out.word(" (supers");
    out.tokens(&class.supers);
    out.word(")");
    out.tokens(&class.adjectives);
    for slot in &class.slots {
        write_slot(out, slot);
    }
}

fn write_top(out: &mut Written, top: &DraftTop) {
    match top {
        DraftTop::Run(term) => write_term(out, "(run ", term),
        DraftTop::Init {
            is_constant,
            variables,
            term,
        } => {
            out.flag("(constant", *is_constant);
            out.flag("(variable", !*is_constant);
            write_typed(out, variables);
            write_term(out, " = ", term);
        }
    }
}

fn write_variable(out: &mut Written, variable: &DraftVariable) {
    match variable {
        DraftVariable::Function(adjectives, name, code) => {
            out.token("(function ", name);
            out.tokens(adjectives);
            write_lambda(out, " ", code);
        }
        DraftVariable::Type(name, declared, meant) => {
            out.token("(type ", name);
            write_declared(out, declared);
            write_type(out, " = ", meant);
        }
    }
}

/// Adds a draft of a form.
pub fn write_draft(out: &mut Written, draft: &Draft) {
    match draft {
        Draft::Class(class) => write_class(out, class),
        Draft::Generic(generic) => {
            out.token("(generic ", &generic.name);
            out.tokens(&generic.adjectives);
            write_params(out, &generic.params);
            write_results(out, &generic.results);
        }
        Draft::Method(method) => {
            out.token("(method-of ", &method.generic);
            out.tokens(&method.adjectives);
            out.maybe(" next ", &method.next);
            write_lambda(out, " ", &method.code);
        }
        Draft::Domain(domain) => {
            out.token("(domain ", &domain.generic);
            write_types(out, &domain.types);
        }
        Draft::Variable(variable) => write_variable(out, variable),
        Draft::Top(top) => write_top(out, top),
    }
    out.word(")");
}
