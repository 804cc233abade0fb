//! Literals as a program writes them.

use crate::names::write_bytes;
use dy_base::Items;
use dy_core_text::Written;
use dy_term::Literal;

#[cycle(literals)]
pub(crate) fn write_literal(out: &mut Written, literal: &Literal) {
    match literal {
        Literal::Int(value) => out.number(*value),
        Literal::Char(byte) => {
            out.word("'");
            write_bytes(out, &[*byte]);
            out.word("'");
        }
        Literal::Bool(value) => out.word(if *value { "#t" } else { "#f" }),
        Literal::Symbol(name) => {
            write_bytes(out, name.bytes());
            out.word(":");
        }
        Literal::Nil => out.word("#()"),
        Literal::Str(text) => {
            out.word("\"");
            write_bytes(out, text.bytes());
            out.word("\"");
        }
        Literal::List(items, tail) => {
            out.word("#(");
            write_literals(out, items);
            if let Some(last) = tail {
                out.word(" . ");
                write_literal(out, last);
            }
            out.word(")");
        }
        Literal::Vector(items) => {
            out.word("#[");
            write_literals(out, items);
            out.word("]");
        }
    }
}

/// Adds literals, with commas between them.
#[cycle(literals)]
fn write_literals(out: &mut Written, items: &Items<Literal>) {
    let mut is_first = true;
    for item in items.as_slice() {
        out.word(if is_first { "" } else { ", " });
        is_first = false;
        write_literal(out, item);
    }
}
