//! What a program writes down as itself (DRM 3, "Literal constants").

ghost use Rattle.std.specs.Prelude.{◌≡◌, IfOk};

use dy_base::{Boxed, Items, Name, Text};
use std::alloc::{AllocError, Global};

/// A literal.
#[derive(Debug, Drop)]
pub enum Literal {
    /// A whole number of 64 bits, with a sign.
    Int(i64),
    /// A character of one byte.
    Char(u8),
    /// `#t` or `#f`
    Bool(bool),
    Symbol(Name),
    /// The empty list.
    Nil,
    /// The bytes that a string literal stands for.
    Str(Text),
    /// A list that is not empty, with what follows a dot at its end.
    List(Items<Literal>, Option<Boxed<Literal>>),
    Vector(Items<Literal>),
}

/// A list that is not empty, with what follows a dot at its end. The one error is want of memory.
pub fn list_literal(
    alloc: Global,
    items: Items<Literal>,
    tail: Option<Literal>,
) -> Result<Literal, AllocError>
    ensures { IfOk result (λ literal. literal ≡ Literal.List items tail) }
{
    match tail {
        None => Ok(Literal::List(items, None)),
        Some(last) => {
            let last = Boxed::new(alloc, last)?;
            Ok(Literal::List(items, Some(last)))
        }
    }
}
