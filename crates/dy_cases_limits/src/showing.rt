//! What is shown of a case.

ghost use Rattle.std.specs.Prelude.{◌<◌, ◌^◌, length};

use dy_base::Refusal;
use dy_cases_text::fragments_of;
use dy_token_limit::first_over;
use dy_tree::Fragment;
use std::alloc::{AllocError, Global};

/// Whether a fragment is a semicolon.
fn is_semicolon(fragment: &Fragment) -> bool {
    match fragment {
        Fragment::One(token) => token.is_sign(b";"),
        Fragment::Group { .. } => false,
    }
}

/// What stands in front of each semicolon, and of the end.
fn forms_of(alloc: Global, fragments: &[Fragment]) -> Result<Vec<&[Fragment]>, AllocError> {
    let mut forms = Vec::new(alloc);
    for form in fragments.split(is_semicolon) {
        forms.push(form)?;
    }
    Ok(forms)
}

/// The number, from 1, of the first form with which there are more than so many tokens.
fn shown_number(alloc: Global, most: u64, text: &str) -> Result<String, Refusal>
    requires { length text.now < 2 ^ 31 }
{
    let fragments = fragments_of(alloc, text)?;
    let forms = forms_of(alloc, fragments.as_slice())?;
    match first_over(&forms, most) {
        Some(number) => Ok(format!(in alloc; "form {}", number.saturating_add(1))?),
        None => Ok(String::from_str(alloc, "fits")?),
    }
}

/// What is shown of a case: a line with a limit, and then forms, as those of a file of which nothing
/// is left out. It is `form N` where with the form N, counted from 1, they have more tokens than the
/// limit, and `fits` where they have no more.
pub fn show(alloc: Global, text: &str) -> Result<String, AllocError>
    requires { length text.now < 2 ^ 31 }
{
    let (most, forms) = text.split_once('\n').unwrap_or((text, ""));
    match shown_number(alloc, most.parse().unwrap_or(0), forms) {
        Ok(shown) => Ok(shown),
        Err(Refusal::Fault(_)) => String::from_str(alloc, "refused"),
        Err(Refusal::Memory) => Err(AllocError),
    }
}
