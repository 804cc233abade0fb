//! How a form begins.

ghost use Rattle.std.specs.Prelude.{◌≡◌, ◌∷◌};
ghost use Rattle.dy_tree.specs.Fragments.{pack, seen_fragment, seen_fragments};
ghost use Rattle.dy_rules.specs.FormReading as spec;
ghost use Rattle.dy_rules.specs.Roles as rules;
ghost use Rattle.dy_read_parts.specs.FormFront.{seen_form_front};

use dy_read_words::bracket::bracket_of;
use dy_read_words::role::role_of;
use dy_tree::{Bracket, Fragment, Keyword, Role, Token};

/// How a form begins.
#[derive(Clone, Copy, Debug)]
pub enum FormFront<'a> {
    Expression,
    /// A definition with an `end`.
    Group {
        define: &'a Token,
        inner: &'a [Fragment],
    },
    /// A definition without an `end`.
    Flat {
        define: &'a Token,
        rest: &'a [Fragment],
    },
}

fn front_of_group<'a>(opener: &'a Token, inner: &'a [Fragment], closer: &'a Token) -> FormFront<'a>
    ensures { seen_form_front result
        ≡ spec.front_of_group (rules.bracket_of opener.now closer.now) opener.now
        (pack (seen_fragments inner.now)) }
{
    match bracket_of(opener, closer) {
        Bracket::Statement(Keyword::Define) => FormFront::Group {
            define: opener,
            inner,
        },
        _ => FormFront::Expression,
    }
}

fn front_of_token<'a>(token: &'a Token, rest: &'a [Fragment]) -> FormFront<'a>
    ensures { seen_form_front result
        ≡ spec.front_of_token (rules.role_of token.now) token.now (seen_fragments rest.now) }
{
    match role_of(token) {
        Role::Defines => FormFront::Flat {
            define: token,
            rest,
        },
        _ => FormFront::Expression,
    }
}

fn front_from<'a>(first: &'a Fragment, rest: &'a [Fragment]) -> FormFront<'a>
    ensures { seen_form_front result
        ≡ spec.form_front (seen_fragment first.now ∷ seen_fragments rest.now) }
{
    match first {
        Fragment::One(token) => front_of_token(token, rest),
        Fragment::Group {
            opener,
            inner,
            closer,
        } if rest.is_empty() => front_of_group(opener, inner.as_slice(), closer),
        Fragment::Group { .. } => FormFront::Expression,
    }
}

/// How the fragments of a form begin.
pub fn form_front(fragments: &[Fragment]) -> FormFront<'_>
    ensures { seen_form_front result ≡ spec.form_front (seen_fragments fragments.now) }
{
    match fragments.split_first() {
        Some((first, rest)) => front_from(first, rest),
        None => FormFront::Expression,
    }
}
