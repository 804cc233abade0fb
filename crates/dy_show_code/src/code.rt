//! Code as text.

use crate::literals::write_literal;
use crate::names::write_name;
use dy_base::{BindingId, GenericId, What};
use dy_core_text::Written;
use dy_lower_parts::{Buffer, Flat};
use dy_term::Program;

/// A word, and a number.
fn write_number(out: &mut Written, word: &str, number: u32) {
    out.word(word);
    out.number(i64::from(number));
}

/// A word, and how many there are, and perhaps others behind them.
fn write_count(out: &mut Written, word: &str, count: usize, has_rest: bool) {
    out.word(word);
    out.number(i64::try_from(count).unwrap_or(-1));
    if has_rest {
        out.word(" #rest");
    }
}

/// A word, what is called, and with how many operands.
fn write_call(out: &mut Written, program: &Program, word: &str, named: BindingId, count: u32) {
    out.word(word);
    write_name(out, program, named);
    write_number(out, " ", count);
}

/// A word, and what an instruction names.
fn write_named(out: &mut Written, program: &Program, word: &str, named: BindingId) {
    out.word(word);
    write_name(out, program, named);
}

/// The name of a generic function.
fn generic_named(generic: GenericId) -> BindingId {
    BindingId {
        what: What::Generic,
        at: generic.0,
    }
}

/// What an instruction without operands is called.
fn word_of(flat: &Flat) -> &'static str {
    match flat {
        Flat::Push => "push",
        Flat::Tick => "tick",
        Flat::Return => "return",
        Flat::Save => "save",
        Flat::Restore => "restore",
        Flat::NoMatch => "no-match",
        _ => "?",
    }
}

/// Adds an instruction about a local, a captured value or operands.
fn write_places(out: &mut Written, flat: &Flat) {
    match flat {
        Flat::Local(local) => write_number(out, "local ", *local),
        Flat::SetLocal(local) => write_number(out, "set-local ", *local),
        Flat::NewCell(local) => write_number(out, "new-cell ", *local),
        Flat::CellGet(local) => write_number(out, "cell-get ", *local),
        Flat::CellSet(local) => write_number(out, "cell-set ", *local),
        Flat::Free(capture) => write_number(out, "free ", *capture),
        Flat::FreeGet(capture) => write_number(out, "free-get ", *capture),
        Flat::FreeSet(capture) => write_number(out, "free-set ", *capture),
        Flat::CallValue(count) => write_number(out, "call-value ", *count),
        Flat::Values(count) => write_number(out, "values ", *count),
        Flat::Unhandle(count) => write_number(out, "unhandle ", *count),
        _ => out.word(word_of(flat)),
    }
}

/// Adds an instruction.
fn write_flat(out: &mut Written, program: &Program, flat: &Flat) {
    match flat {
        Flat::Const(literal) => {
            out.word("const ");
            write_literal(out, literal);
        }
        Flat::Truth(value) => out.word(if *value { "const #t" } else { "const #f" }),
        Flat::Number(value) => {
            out.word("const ");
            out.number(*value);
        }
        Flat::Global(named) => write_named(out, program, "global ", *named),
        Flat::SetGlobal(named) => write_named(out, program, "set-global ", *named),
        Flat::Jump(distance) => {
            out.word("jump ");
            out.number(*distance);
        }
        Flat::JumpFalse(distance) => {
            out.word("jump-false ");
            out.number(*distance);
        }
        Flat::Closure(body, count) => {
            write_number(out, "closure ", *body);
            write_number(out, " ", *count);
        }
        Flat::Search(generic, count) => {
            write_call(out, program, "search ", generic_named(*generic), *count);
        }
        Flat::CallKnown(named, count) => write_call(out, program, "call-known ", *named, *count),
        Flat::Spread(count, collects) => {
            write_number(out, "spread ", *count);
            out.word(if *collects { " #rest" } else { "" });
        }
        Flat::CheckResults(results) => {
            let has_rest = results.rest.is_some();
            write_count(out, "check-results ", results.required.len(), has_rest);
        }
        Flat::Handle(condition) => write_count(out, "handle ", condition.members.len(), false),
        Flat::Args(params) => write_count(out, "args ", params.required.len(), params.rest),
        Flat::Op(operation, count) => {
            write_number(out, "op ", u32::from(*operation));
            write_number(out, " ", *count);
        }
        _ => write_places(out, flat),
    }
}

/// Adds code: its instructions in order. What an operand names stands as itself, a local and a
/// captured value as its number, and where a jump leads as its distance from the next instruction.
pub fn write_code(out: &mut Written, program: &Program, code: &Buffer) {
    let mut is_first = true;
    for flat in code.flats() {
        out.word(if is_first { "" } else { "; " });
        is_first = false;
        write_flat(out, program, flat);
    }
}
