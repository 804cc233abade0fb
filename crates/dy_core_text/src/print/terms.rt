//! Terms, bodies and methods.

use super::types::{write_declared, write_literal, write_params, write_results, write_type};
use crate::written::Written;
use dy_term::{
    DraftArm, DraftBlock, DraftFor, DraftForClause, DraftItem, DraftLambda, DraftTerm, DraftType,
    Limit, Local,
};

fn write_local(out: &mut Written, word: &str, local: &Local) {
    match local {
        Local::Named(token) => out.token(word, token),
        Local::Hidden(number) => {
            out.word(word);
            out.hidden(*number);
        }
    }
}

fn write_locals(out: &mut Written, locals: &[(Local, DraftType)], rest: &Option<Local>) {
    for (local, draft) in locals {
        write_local(out, " ", local);
        write_declared(out, draft);
    }
    if let Some(rest) = rest {
        write_local(out, " #rest ", rest);
    }
}

/// The bracket of a term of two parts, and what it is.
fn opening(term: &DraftTerm) -> &'static str {
    match term {
        DraftTerm::NoPlace(_, _, _) => "(no-place ",
        DraftTerm::And(_, _) => "(and ",
        DraftTerm::Or(_, _) => "(or ",
        _ => "(loop ",
    }
}

#[cycle(terms)]
pub(super) fn write_term(out: &mut Written, word: &str, term: &DraftTerm) {
    out.word(word);
    match term {
        DraftTerm::Lit(literal) => write_literal(out, "", literal),
        DraftTerm::Name(token) => out.token("", token),
        DraftTerm::Hidden(number) => out.hidden(*number),
        DraftTerm::Set(name, value) => {
            out.token("(set ", name);
            write_term(out, " ", value);
            out.word(")");
        }
        DraftTerm::NoPlace(_, first, second)
        | DraftTerm::And(first, second)
        | DraftTerm::Or(first, second)
        | DraftTerm::Loop(first, second) => {
            write_term(out, opening(term), first);
            write_term(out, " ", second);
            out.word(")");
        }
        DraftTerm::Call(function, arguments) => {
            write_term(out, "(call ", function);
            write_terms(out, "", arguments);
            out.word(")");
        }
        DraftTerm::Values(terms) => {
            write_terms(out, "(values", terms);
            out.word(")");
        }
        DraftTerm::Cond(branches, last) => {
            write_branches(out, branches);
            write_term(out, " ", last);
            out.word(")");
        }
        DraftTerm::Select(value, test, arms, last) => {
            write_term(out, "(select ", value);
            write_boxed(out, " by ", test);
            write_arms(out, arms);
            write_boxed(out, " otherwise ", last);
            out.word(")");
        }
        DraftTerm::Body(items) => write_body(out, items),
        DraftTerm::For(row) => write_for(out, row),
        DraftTerm::Method(lambda) => write_lambda(out, "", lambda),
        DraftTerm::Block(block) => write_block(out, block),
    }
}

#[cycle(terms)]
fn write_terms(out: &mut Written, word: &str, terms: &Vec<DraftTerm>) {
    out.word(word);
    for term in terms {
        write_term(out, " ", term);
    }
}

/// A word and a term, if there is one.
#[cycle(terms)]
fn write_boxed(out: &mut Written, word: &str, term: &Option<Box<DraftTerm>>) {
    if let Some(term) = term {
        write_term(out, word, term);
    }
}

/// A word and a term, if there is one.
#[cycle(terms)]
fn write_part(out: &mut Written, word: &str, term: &Option<DraftTerm>) {
    if let Some(term) = term {
        write_term(out, word, term);
    }
}

/// Each test with its body.
#[cycle(terms)]
fn write_branches(out: &mut Written, branches: &Vec<(DraftTerm, DraftTerm)>) {
    out.word("(cond");
    for (test, body) in branches {
        write_term(out, " (", test);
        write_term(out, " ", body);
        out.word(")");
    }
}

#[cycle(terms)]
fn write_arms(out: &mut Written, arms: &Vec<DraftArm>) {
    for arm in arms {
        write_terms(out, " (arm", &arm.values);
        write_term(out, " => ", &arm.body);
        out.word(")");
    }
}

#[cycle(terms)]
fn write_body(out: &mut Written, items: &Vec<DraftItem>) {
    out.word("(body");
    for item in items {
        write_item(out, item);
    }
    out.word(")");
}

#[cycle(terms)]
fn write_item(out: &mut Written, item: &DraftItem) {
    match item {
        DraftItem::Run(term) => write_term(out, " ", term),
        DraftItem::Let(locals, rest, value) => {
            out.word(" (let");
            write_locals(out, locals, rest);
            write_term(out, " = ", value);
            out.word(")");
        }
        DraftItem::LetMethods(methods) => {
            out.word(" (local");
            for (name, lambda) in methods {
                out.token(" ", name);
                write_lambda(out, " ", lambda);
            }
            out.word(")");
        }
        DraftItem::Handler(condition, handler) => {
            write_type(out, " (handler ", condition);
            write_term(out, " ", handler);
            out.word(")");
        }
    }
}

#[cycle(terms)]
pub(super) fn write_lambda(out: &mut Written, word: &str, lambda: &DraftLambda) {
    out.word(word);
    out.word("(method");
    write_params(out, &lambda.params);
    write_terms(out, " (defaults", &lambda.defaults);
    out.word(")");
    write_results(out, &lambda.results);
    write_term(out, " ", &lambda.body);
    out.word(")");
}

#[cycle(terms)]
fn write_for(out: &mut Written, row: &DraftFor) {
    out.word("(for");
    for clause in &row.clauses {
        write_for_clause(out, clause);
    }
    if let Some((ends_where_true, test)) = &row.test {
        out.flag(" until ", *ends_where_true);
        out.flag(" while ", !*ends_where_true);
        write_term(out, "", test);
    }
    write_term(out, " ", &row.body);
    write_part(out, " finally ", &row.finally);
    out.word(")");
}

fn limit_word(limit: Limit) -> &'static str {
    match limit {
        Limit::To => " to ",
        Limit::Above => " above ",
        Limit::Below => " below ",
    }
}

#[cycle(terms)]
fn write_for_clause(out: &mut Written, clause: &DraftForClause) {
    match clause {
        DraftForClause::Then(name, draft, first, next) => {
            out.token(" (", name);
            write_declared(out, draft);
            write_term(out, " = ", first);
            write_term(out, " then ", next);
        }
        DraftForClause::In(name, draft, collection) => {
            out.token(" (", name);
            write_declared(out, draft);
            write_term(out, " in ", collection);
        }
        DraftForClause::From(name, draft, start, limit, step) => {
            out.token(" (", name);
            write_declared(out, draft);
            write_term(out, " from ", start);
            if let Some((limit, bound)) = limit {
                write_term(out, limit_word(*limit), bound);
            }
            write_part(out, " by ", step);
        }
    }
    out.word(")");
}

#[cycle(terms)]
fn write_block(out: &mut Written, block: &DraftBlock) {
    out.word("(block");
    out.maybe(" exit ", &block.exit);
    write_term(out, " ", &block.body);
    write_part(out, " afterwards ", &block.afterwards);
    write_part(out, " cleanup ", &block.cleanup);
    for clause in &block.clauses {
        out.word(" (exception");
        out.maybe(" ", &clause.variable);
        write_type(out, " ", &clause.condition);
        write_term(out, " ", &clause.body);
        out.word(")");
    }
    out.word(")");
}
