//! Fragments as texts: a blank stands between two tokens.

use dy_base::Fault;
use dy_tree::{Fragment, Token, TokenKind};
use std::alloc::AllocError;

/// What stands in front of a token's text and behind it.
fn quotes(kind: TokenKind) -> (&'static str, &'static str) {
    match kind {
        TokenKind::Escaped => ("\\", ""),
        TokenKind::Symbol => ("", ":"),
        TokenKind::Char => ("'", "'"),
        TokenKind::Str => ("\"", "\""),
        _ => ("", ""),
    }
}

fn write_token(out: &mut String, token: &Token) -> Result<(), AllocError> {
    if !out.is_empty() {
        out.push(' ')?;
    }
    let (before, behind) = quotes(token.kind);
    out.push_str(before)?;
    for byte in token.text.bytes() {
        out.push(char::from(*byte))?;
    }
    out.push_str(behind)
}

#[cycle(show)]
fn write_fragment(out: &mut String, fragment: &Fragment) -> Result<(), AllocError> {
    match fragment {
        Fragment::One(token) => write_token(out, token),
        Fragment::Group {
            opener,
            inner,
            closer,
        } => {
            write_token(out, opener)?;
            write_fragments(out, inner)?;
            write_token(out, closer)
        }
    }
}

#[cycle(show)]
pub(crate) fn write_fragments(
    out: &mut String,
    fragments: &Vec<Fragment>,
) -> Result<(), AllocError> {
    for fragment in fragments {
        write_fragment(out, fragment)?;
    }
    Ok(())
}

/// The kind of a fault, and its place behind the header.
pub(crate) fn write_fault(out: &mut String, fault: &Fault) -> Result<(), AllocError> {
    let kind = fault.kind;
    let at = match fault.place {
        Some(place) => place.offset.saturating_sub(11),
        None => 999,
    };
    write!(out, "{kind:?} @{at}").map_err(|_| AllocError)
}
