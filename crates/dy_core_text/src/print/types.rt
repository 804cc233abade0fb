//! Literals, types and parameter lists.

use crate::written::Written;
use dy_base::Items;
use dy_term::{DraftParams, DraftResults, DraftType, Literal};
use dy_tree::Token;

#[cycle(literals)]
pub(super) fn write_literal(out: &mut Written, word: &str, literal: &Literal) {
    out.word(word);
    match literal {
        Literal::Int(value) => out.number(*value),
        Literal::Char(byte) => {
            out.word("'");
            out.bytes(&[*byte]);
            out.word("'");
        }
        Literal::Bool(value) => {
            out.flag("#t", *value);
            out.flag("#f", !*value);
        }
        Literal::Symbol(name) => {
            out.bytes(name.bytes());
            out.word(":");
        }
        Literal::Nil => out.word("#()"),
        Literal::Str(text) => {
            out.word("\"");
            out.bytes(text.bytes());
            out.word("\"");
        }
        Literal::List(items, tail) => {
            write_literals(out, "(list", items);
            if let Some(last) = tail {
                write_literal(out, " . ", last);
            }
            out.word(")");
        }
        Literal::Vector(items) => {
            write_literals(out, "(vector", items);
            out.word(")");
        }
    }
}

#[cycle(literals)]
fn write_literals(out: &mut Written, word: &str, items: &Items<Literal>) {
    out.word(word);
    for item in items.as_slice() {
        write_literal(out, " ", item);
    }
}

#[cycle(types)]
pub(super) fn write_type(out: &mut Written, word: &str, draft: &DraftType) {
    out.word(word);
    match draft {
        DraftType::Object => out.word("any"),
        DraftType::Integer => out.word("integer"),
        DraftType::Name(token) => out.token("", token),
        DraftType::Single(literal) => {
            write_literal(out, "(single ", literal);
            out.word(")");
        }
        DraftType::SingleName(_, token) => {
            out.token("(single ", token);
            out.word(")");
        }
        DraftType::Union(_, parts) => {
            out.word("(union");
            write_types(out, parts);
            out.word(")");
        }
        DraftType::Range(_, least, greatest) => {
            out.word("(range ");
            out.number(*least);
            out.word(" ");
            out.number(*greatest);
            out.word(")");
        }
    }
}

#[cycle(types)]
pub(super) fn write_types(out: &mut Written, types: &Vec<DraftType>) {
    for draft in types {
        write_type(out, " ", draft);
    }
}

/// The type of what stands before it, where that is not `<object>` unwritten.
pub(super) fn write_declared(out: &mut Written, draft: &DraftType) {
    match draft {
        DraftType::Object => {}
        _ => write_type(out, "::", draft),
    }
}

/// Names with their types.
pub(super) fn write_typed(out: &mut Written, names: &[(Token, DraftType)]) {
    for (name, draft) in names {
        out.token(" ", name);
        write_declared(out, draft);
    }
}

pub(super) fn write_params(out: &mut Written, params: &DraftParams) {
    out.word(" (params");
    write_typed(out, &params.required);
    out.maybe(" #next ", &params.next);
    out.maybe(" #rest ", &params.rest);
    if let Some(keys) = &params.keys {
        out.word(" #key");
        for key in keys {
            out.token(" ", &key.keyword);
            out.token(":", &key.variable);
            write_declared(out, &key.declared);
        }
    }
    out.flag(" #all-keys", params.all_keys);
    out.word(")");
}

pub(super) fn write_results(out: &mut Written, results: &DraftResults) {
    out.word(" (results");
    write_types(out, &results.required);
    if let Some(rest) = &results.rest {
        write_type(out, " #rest ", rest);
    }
    out.word(")");
}
