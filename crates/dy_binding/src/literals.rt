//! Copies of literals.

ghost use Rattle.std.specs.Prelude.{◌≡◌, IfOk};

use dy_base::{Boxed, Items, Text, fold};
use dy_term::Literal;
use std::alloc::{AllocError, Global};

/// The same literal, in memory of its own. The one error is want of memory.
#[cycle(copies)]
pub fn copy_literal(alloc: Global, literal: &Literal) -> Result<Literal, AllocError>
    ensures { IfOk result (λ copy. copy ≡ literal.now) }
{
    match literal {
        Literal::Int(value) => Ok(Literal::Int(*value)),
        Literal::Char(value) => Ok(Literal::Char(*value)),
        Literal::Bool(value) => Ok(Literal::Bool(*value)),
        Literal::Symbol(name) => Ok(Literal::Symbol(fold(alloc, name.bytes())?)),
        Literal::Nil => Ok(Literal::Nil),
        Literal::Str(text) => Ok(Literal::Str(Text::of(alloc, text.bytes())?)),
        Literal::List(items, tail) => {
            let items = copy_literals(alloc, items)?;
            let tail = copy_tail(alloc, tail)?;
            Ok(Literal::List(items, tail))
        }
        Literal::Vector(items) => Ok(Literal::Vector(copy_literals(alloc, items)?)),
    }
}

#[cycle(copies)]
fn copy_literals(alloc: Global, literals: &Items<Literal>) -> Result<Items<Literal>, AllocError>
    ensures { IfOk result (λ copies. copies ≡ literals.now) }
{
    let mut copies = Items::new(alloc);
    for literal in literals.as_slice() {
        copies.push(copy_literal(alloc, literal)?)?;
    }
    Ok(copies)
}

#[cycle(copies)]
fn copy_tail(
    alloc: Global,
    tail: &Option<Boxed<Literal>>,
) -> Result<Option<Boxed<Literal>>, AllocError>
    ensures { IfOk result (λ copy. copy ≡ tail.now) }
{
    match tail {
        None => Ok(None),
        Some(last) => {
            let last = copy_literal(alloc, last)?;
            Ok(Some(Boxed::new(alloc, last)?))
        }
    }
}
