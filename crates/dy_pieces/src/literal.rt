//! What literals stand for.

ghost use Rattle.std.specs.Prelude.{◌≡◌, ◌∷◌, [], ◌+◌, ◌*◌, ◌++◌, ◌≤◌, ◌<◌, ◌^◌, length, drop};
ghost use Rattle.std.specs.Prelude.{IfOk, IfSome, option_map, pos, false};
ghost use Rattle.dy_base.specs.Folding.{folded};
ghost use Rattle.dy_pieces.specs.Bytes as bytes;
ghost use Rattle.dy_pieces.specs.Scan.{escape_of, is_plain, decoded, spelling_step, IsSmall};
ghost use Rattle.dy_pieces.specs.Scan.{IsSmallRead};
ghost use Rattle.dy_pieces.specs.Literals.{appended};
ghost use Rattle.dy_pieces.specs.Numbers.{value_from, value_of, value_after_hash, fitting, or_zero};

use crate::class::{base_of, digit_of};
use crate::spelling::{Read, Spelling};
use dy_base::Text;
use std::alloc::{AllocError, Global};

fn lower_case(alloc: Global, bytes: &[u8]) -> Result<Vec<u8>, AllocError>
    ensures { IfOk result (λ lower. lower.items ≡ folded bytes.now) }
{
    bytes
        .iter()
        .map(|byte| byte.to_ascii_lowercase())
        .collect(alloc)
}

/// The text of these bytes in lower case.
pub fn folded(alloc: Global, bytes: &[u8]) -> Result<Text, AllocError>
    ensures { IfOk result (λ text. text ≡ folded bytes.now) }
{
    Ok(Text::from_vec(lower_case(alloc, bytes)?))
}

/// What a character after a backslash stands for.
fn escape_of(b: u8) -> Option<u8>
    ensures { result ≡ escape_of b }
{
    match b {
        b'\\' | b'"' | b'\'' => Some(b),
        b'n' => Some(10),
        b'r' => Some(13),
        b't' => Some(9),
        b'0' => Some(0),
        b'a' => Some(7),
        b'b' => Some(8),
        b'e' => Some(27),
        b'f' => Some(12),
        _ => None,
    }
}

fn is_plain(tabs: bool, b: u8) -> bool
    ensures { result ≡ is_plain tabs b }
{
    match b {
        9 => tabs,
        0..=31 => false,
        127 => false,
        _ => true,
    }
}

/// After a backslash.
fn escape_step(b: u8) -> Read
    ensures value { result ≡ spelling_step false Spelling.Escape b }
    ensures small { IsSmallRead result }
{
    if b == b'<' {
        return Read::GoesOn(Spelling::Open);
    }
    match escape_of(b) {
        Some(v) => Read::Value(v),
        None => Read::Wrong,
    }
}

/// After `\<` and a digit with the value `v`.
fn digit_step(v: u8, b: u8) -> Read
    requires { v ≤ 15 }
    ensures value { result ≡ spelling_step false (Spelling.Digit v) b }
    ensures small { IsSmallRead result }
{
    if b == b'>' {
        return Read::Value(v);
    }
    match digit_of(b) {
        Some(w) => Read::GoesOn(Spelling::Digits(16 * v + w)),
        None => Read::Wrong,
    }
}

fn spelling_step(tabs: bool, state: Spelling, b: u8) -> Read
    requires { IsSmall state }
    ensures value { result ≡ spelling_step tabs state b }
    ensures small { IsSmallRead result }
{
    match state {
        Spelling::Plain => {
            if b == b'\\' {
                Read::GoesOn(Spelling::Escape)
            } else if is_plain(tabs, b) {
                Read::Value(b)
            } else {
                Read::Wrong
            }
        }
        Spelling::Escape => escape_step(b),
        Spelling::Open => match digit_of(b) {
            Some(v) => Read::GoesOn(Spelling::Digit(v)),
            None => Read::Wrong,
        },
        Spelling::Digit(v) => digit_step(v, b),
        Spelling::Digits(v) => {
            if b == b'>' {
                Read::Value(v)
            } else {
                Read::Wrong
            }
        }
    }
}

/// The bytes that the characters between the quotes of a literal stand for, behind those of `into`;
/// nothing where a character is misspelled. `tabs` says whether a tab stands for itself, as it does
/// in a string.
pub fn decoded(tabs: bool, into: Vec<u8>, bytes: &[u8]) -> Result<Option<Vec<u8>>, AllocError>
    ensures { IfOk result (λ v. option_map (λ w. w.items) v
        ≡ appended into.items (decoded tabs bytes.now)) }
{
    let mut values = into;
    let mut state = Spelling::Plain;
    for b in bytes {
        match spelling_step(tabs, state, *b) {
            Read::Value(v) => {
                values.push(v)?;
                state = Spelling::Plain;
            }
            Read::GoesOn(next) => state = next,
            Read::Wrong => return Ok(None),
        }
    }
    match state {
        Spelling::Plain => Ok(Some(values)),
        Spelling::Escape => Ok(None),
        Spelling::Open => Ok(None),
        Spelling::Digit(_) => Ok(None),
        Spelling::Digits(_) => Ok(None),
    }
}

fn digit_value(b: u8) -> u8
    ensures value { result ≡ or_zero (bytes.digit_of b) }
    ensures small { result ≤ 15 }
{
    match digit_of(b) {
        Some(d) => d,
        None => 0,
    }
}

/// The value of the digits, if it fits 64 bits with a sign.
fn value_from(base: u64, digits: &[u8]) -> Option<u64>
    requires some { 2 ≤ base }
    requires small { base ≤ 16 }
    ensures value { result ≡ fitting (value_from base 0 digits.now) }
    ensures within { IfSome result (λ n. n < 2 ^ 63) }
{
    let mut n: u64 = 0;
    for b in digits {
        let d = u64::from(digit_value(*b));
        if (9223372036854775807 - d) / base < n {
            return None;
        }
        n = n * base + d;
    }
    Some(n)
}

fn value_after_hash(bytes: &[u8]) -> Option<u64>
    ensures value { result ≡ fitting (value_after_hash bytes.now) }
    ensures within { IfSome result (λ n. n < 2 ^ 63) }
{
    match bytes {
        [] => Some(0),
        [b, rest @ ..] => match base_of(*b) {
            Some(base) => value_from(u64::from(base), rest),
            None => Some(0),
        },
    }
}

/// The value of an integer as it is written, in decimal or behind `#b`, `#o` or `#x`; nothing where
/// it is above 9223372036854775807.
pub fn value_of(bytes: &[u8]) -> Option<u64>
    ensures value { result ≡ fitting (value_of bytes.now) }
    ensures within { IfSome result (λ n. n < 2 ^ 63) }
{
    match bytes {
        [] => Some(0),
        [b'#', rest @ ..] => value_after_hash(rest),
        [_, ..] => value_from(10, bytes),
    }
}
