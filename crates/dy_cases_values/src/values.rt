//! Values by words.

use dy_base::{BindingId, ClassId, Fuel, GenericId, Items, Ref, Text, What};
use dy_term::Literal;
use dy_values::{ObjectRow, Store, Value, Variant, make_literal};
use std::alloc::{AllocError, Global};

/// A row of the library `dylan`.
fn row(row: u32) -> Ref {
    Ref { library: 0, row }
}

/// The value of a word that is no literal and no object.
fn variant(word: &str) -> Option<Variant> {
    match word {
        "<integer>" => Some(Variant::Class(ClassId(row(9)))),
        "+" => Some(Variant::Generic(GenericId(row(0)))),
        "function" => Some(Variant::Function(BindingId {
            what: What::Function,
            at: row(0),
        })),
        "built-in" => Some(Variant::Builtin(61)),
        _ => None,
    }
}

fn string(alloc: Global, bytes: &[u8]) -> Result<Option<ObjectRow>, AllocError> {
    Ok(Some(ObjectRow::Bytes(Items::from_vec(bytes.to_vec(alloc)?))))
}

/// A new object of a word that is no literal: a closure, a string of two lines, or a string with a
/// byte of each kind that escapes tell apart.
fn object(alloc: Global, word: &str) -> Result<Option<ObjectRow>, AllocError> {
    match word {
        "closure" => Ok(Some(ObjectRow::Closure(7, Items::new(alloc)))),
        "lines" => string(alloc, b"two\nlines"),
        "kinds" => string(alloc, b"\"\\\n\r\t\0'~\x7f\xff"),
        _ => Ok(None),
    }
}

/// What a literal gives: a number, a character, a string or a symbol between quotes, `#t`, `#f` or
/// `#()`. It is `None` where too few units are left, and for another word.
fn literal(
    alloc: Global,
    word: &str,
    store: &mut Store,
    fuel: &mut Fuel,
) -> Result<Option<Value>, AllocError> {
    match word.as_bytes() {
        [b'#', b't'] => make_literal(alloc, &Literal::Bool(true), store, fuel),
        [b'#', b'f'] => make_literal(alloc, &Literal::Bool(false), store, fuel),
        [b'#', b'(', b')'] => make_literal(alloc, &Literal::Nil, store, fuel),
        [b'\'', code, b'\''] => make_literal(alloc, &Literal::Char(*code), store, fuel),
        [b'#', b'"', name @ .., b'"'] => {
            let place = store.symbols.add(alloc, name)? as u64;
            Ok(Some(Value::of(Variant::Symbol(place))))
        }
        [b'"', bytes @ .., b'"'] => {
            let text = Text::of(alloc, bytes)?;
            make_literal(alloc, &Literal::Str(text), store, fuel)
        }
        _ => match word.parse::<i64>() {
            Ok(number) => make_literal(alloc, &Literal::Int(number), store, fuel),
            Err(_) => Ok(None),
        },
    }
}

/// A pair of the last two values, or a vector of all of them. It stands in their place.
fn held(
    alloc: Global,
    word: &str,
    values: &mut Vec<Value>,
) -> Result<Option<ObjectRow>, AllocError> {
    match word {
        "pair" => {
            let (Some(tail), Some(head)) = (values.pop(), values.pop()) else {
                return Ok(None);
            };
            Ok(Some(ObjectRow::Pair(head, tail)))
        }
        "vector" | "stretchy" => {
            let items = Items::from_vec(values.to_vec(alloc)?);
            values.clear();
            Ok(Some(ObjectRow::Vector(word == "stretchy", items)))
        }
        _ => Ok(None),
    }
}

/// A vector that holds a vector, and so on, of so many levels. The last one is empty.
fn levels(alloc: Global, count: u64, store: &mut Store) -> Result<Value, AllocError> {
    let mut outer = store.add(ObjectRow::Vector(false, Items::new(alloc)))?;
    for _ in 1..count {
        let mut items = Items::new(alloc);
        items.push(outer)?;
        outer = store.add(ObjectRow::Vector(false, items))?;
    }
    Ok(outer)
}

/// A vector of so many sevens.
fn sevens(alloc: Global, count: u64, store: &mut Store) -> Result<Value, AllocError> {
    let mut items = Items::new(alloc);
    for _ in 0..count {
        items.push(Value::of(Variant::Int(7)))?;
    }
    store.add(ObjectRow::Vector(false, items))
}

/// Ones without an end: a pair whose tail is the pair itself.
fn endless(store: &mut Store) -> Result<Value, AllocError> {
    let place = store.objects.len() as u64;
    let itself = Value::of(Variant::Object(place));
    store.add(ObjectRow::Pair(Value::of(Variant::Int(1)), itself))
}

/// A value that is built by a number: `levels N`, `sevens N`, or `endless`.
fn built(alloc: Global, word: &str, store: &mut Store) -> Result<Option<Value>, AllocError> {
    let (kind, behind) = word.split_once(' ').unwrap_or((word, "0"));
    let Ok(count) = behind.parse::<u64>() else {
        return Ok(None);
    };
    match kind {
        "levels" => Ok(Some(levels(alloc, count, store)?)),
        "sevens" => Ok(Some(sevens(alloc, count, store)?)),
        "endless" => Ok(Some(endless(store)?)),
        _ => Ok(None),
    }
}

/// The value of a word. `again` stands for the value before it, and what holds values before it
/// stands in their place.
fn value(
    alloc: Global,
    word: &str,
    before: &mut Vec<Value>,
    store: &mut Store,
    fuel: &mut Fuel,
) -> Result<Option<Value>, AllocError> {
    if word == "again" {
        return Ok(before.last().copied());
    }
    if let Some(variant) = variant(word) {
        return Ok(Some(Value::of(variant)));
    }
    if let Some(row) = held(alloc, word, before)? {
        return Ok(Some(store.add(row)?));
    }
    if let Some(value) = built(alloc, word, store)? {
        return Ok(Some(value));
    }
    match object(alloc, word)? {
        Some(row) => Ok(Some(store.add(row)?)),
        None => literal(alloc, word, store, fuel),
    }
}

/// The values of words with bars between, up to the first word that gives none.
pub(crate) fn values(
    alloc: Global,
    words: &str,
    store: &mut Store,
    fuel: &mut Fuel,
) -> Result<Vec<Value>, AllocError> {
    let mut values = Vec::new(alloc);
    for word in words.split('|') {
        match value(alloc, word, &mut values, store, fuel)? {
            Some(value) => values.push(value)?,
            None => return Ok(values),
        }
    }
    Ok(values)
}
