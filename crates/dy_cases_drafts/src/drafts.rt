//! Texts as drafts.

ghost use Rattle.std.specs.Prelude.{◌<◌, ◌^◌, length};

use dy_base::{Place, Refusal};
use dy_cases_text::fragments_of;
use dy_reader::parse;
use dy_surface::to_core;
use dy_term::Draft;
use dy_tree::Fragment;
use std::alloc::Global;

fn is_semicolon(fragment: &Fragment) -> bool {
    match fragment {
        Fragment::One(token) => token.is_sign(b";"),
        Fragment::Group { .. } => false,
    }
}

fn place_of(fragment: &Fragment) -> Place {
    match fragment {
        Fragment::One(token) => token.place,
        Fragment::Group { opener, .. } => opener.place,
    }
}

/// What a form is in the core, and where it begins.
fn read_form(alloc: Global, form: &Vec<Fragment>) -> Result<Option<(Place, Draft)>, Refusal> {
    match form.first() {
        None => Ok(None),
        Some(first) => {
            let tree = parse(alloc, form)?;
            Ok(Some((place_of(first), to_core(alloc, &tree)?)))
        }
    }
}

/// What the forms of a text, between its semicolons, are in the core, and where each begins. The
/// offsets count the 11 bytes of the header too. A refusal has the first fault of the tokens, else
/// that of the groups, else that of the first form; or it says that memory did not suffice.
pub fn drafts_of(alloc: Global, text: &str) -> Result<Vec<(Place, Draft)>, Refusal>
    requires { length text.now < 2 ^ 31 }
{
    let mut forms = Vec::new(alloc);
    let mut form = Vec::new(alloc);
    for fragment in fragments_of(alloc, text)?.into_vec() {
        if is_semicolon(&fragment) {
            if let Some(read) = read_form(alloc, &form)? {
                forms.push(read)?;
            }
            form = Vec::new(alloc);
        } else {
            form.push(fragment)?;
        }
    }
    if let Some(read) = read_form(alloc, &form)? {
        forms.push(read)?;
    }
    Ok(forms)
}
