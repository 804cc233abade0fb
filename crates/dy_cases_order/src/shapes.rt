//! Methods as texts: parameters and results in letters, with bars between. They are the types of
//! the required parameters, `r` for `#rest`, the keywords or `-` for none, with `*` for
//! `#all-keys`, the types of the results, and that of `#rest`.

use crate::rows::{OBJECT, class};
use dy_base::{Items, Name, fold};
use dy_term::{DyType, Literal, Member, Params, Results};
use std::alloc::{AllocError, Global};

/// A letter's type: `<object>`, `<a>`, `<b>` below it, 5, the numbers from 0 to 9 or from 5 to 5,
/// the class `<a>` itself, or `<b>` or `<a>`.
fn type_of(alloc: Global, letter: u8) -> Result<DyType, AllocError> {
    let mut members = Items::new(alloc);
    match letter {
        b'a' => members.push(Member::Class(class(1, 0)))?,
        b'b' => members.push(Member::Class(class(1, 1)))?,
        b'5' => members.push(Member::Single(Literal::Int(5)))?,
        b'n' => members.push(Member::Range(0, 9))?,
        b'e' => members.push(Member::Range(5, 5))?,
        b's' => members.push(Member::SingleClass(class(1, 0)))?,
        b'u' => {
            members.push(Member::Class(class(1, 1)))?;
            members.push(Member::Class(class(1, 0)))?;
        }
        _ => members.push(Member::Class(OBJECT))?,
    }
    Ok(DyType { members })
}

pub(crate) fn types_of(alloc: Global, letters: &str) -> Result<Items<DyType>, AllocError> {
    let mut types = Items::new(alloc);
    for letter in letters.bytes() {
        types.push(type_of(alloc, letter)?)?;
    }
    Ok(types)
}

fn part(shape: &str, place: usize) -> &str {
    shape.split('|').nth(place).unwrap_or("")
}

fn keys_of(alloc: Global, letters: &str) -> Result<Option<Items<Name>>, AllocError> {
    if letters == "-" {
        return Ok(None);
    }
    let mut keys = Items::new(alloc);
    for letter in letters.bytes() {
        if letter != b'*' {
            keys.push(fold(alloc, [letter].as_slice())?)?;
        }
    }
    Ok(Some(keys))
}

pub(crate) fn params_of(alloc: Global, shape: &str) -> Result<Params, AllocError> {
    let keys = part(shape, 2);
    Ok(Params {
        required: types_of(alloc, part(shape, 0))?,
        rest: part(shape, 1) == "r",
        keys: keys_of(alloc, keys)?,
        all_keys: keys.bytes().any(|letter| letter == b'*'),
    })
}

pub(crate) fn results_of(alloc: Global, shape: &str) -> Result<Results, AllocError> {
    let mut rest = None;
    for letter in part(shape, 4).bytes() {
        rest = Some(type_of(alloc, letter)?);
    }
    Ok(Results {
        required: types_of(alloc, part(shape, 3))?,
        rest,
    })
}
