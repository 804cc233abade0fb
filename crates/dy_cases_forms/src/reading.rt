//! Texts as forms.

ghost use Rattle.std.specs.Prelude.{◌<◌, ◌^◌, length};

use dy_base::Refusal;
use dy_cases_text::fragments_of;
use dy_grammar::parse;
use dy_tree::Form;
use std::alloc::Global;

/// What a text is read as, or its first fault.
pub(crate) fn form_of(alloc: Global, text: &str) -> Result<Form, Refusal>
    requires { length text.now < 2 ^ 31 }
{
    let fragments = fragments_of(alloc, text)?.into_vec();
    parse(alloc, &fragments)
}
