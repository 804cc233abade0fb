//! Rows as texts.

use crate::print::{write_lambda, write_term};
use crate::written::Written;
use dy_base::Items;
use dy_term::{Init, Lambda, MethodCode, Row, SlotRow, TopTerm};

fn write_init(out: &mut Written, init: &Option<Init>) {
    match init {
        None => {}
        Some(Init::Each(term)) => {
            out.word("=");
            write_term(out, term);
        }
        Some(Init::Calling(function)) => {
            out.word("by");
            write_term(out, function);
        }
    }
}

fn write_slots(out: &mut Written, slots: &Items<SlotRow>) {
    for slot in slots.as_slice() {
        out.word("slot");
        write_init(out, &slot.init);
    }
}

fn write_code(out: &mut Written, code: &MethodCode) {
    match code {
        MethodCode::Dylan(lambda) => write_lambda(out, lambda),
        MethodCode::Getter(_, _) | MethodCode::Setter(_, _) | MethodCode::Builtin(_) => {}
    }
}

fn write_function(out: &mut Written, function: &Option<Lambda>) {
    match function {
        None => {}
        Some(lambda) => write_lambda(out, lambda),
    }
}

fn write_top(out: &mut Written, top: &TopTerm) {
    match top {
        TopTerm::Init(_, term) => {
            out.word("=");
            write_term(out, term);
        }
        TopTerm::Run(term) => write_term(out, term),
    }
}

/// What a row defines, and its terms.
pub fn write_row(out: &mut Written, row: &Row) {
    match row {
        Row::Class(class) => {
            out.word("class");
            write_slots(out, &class.slots);
        }
        Row::Generic(_) => out.word("generic"),
        Row::Method(method) => {
            out.word("method");
            write_code(out, &method.code);
        }
        Row::Domain(_) => out.word("domain"),
        Row::Variable(variable) => {
            out.word("variable");
            write_function(out, &variable.function);
        }
        Row::Top(top) => write_top(out, top),
    }
}
