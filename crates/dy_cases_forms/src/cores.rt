//! Forms in the core.

use dy_core_text::{Written, write_draft};
use dy_surface::to_core;
use dy_term::{Draft, DraftTerm, DraftTop};
use dy_tree::Form;
use std::alloc::{AllocError, Global};

/// The core of a form.
pub(crate) fn core_text(alloc: Global, form: &Form) -> Result<String, AllocError> {
    let mut out = Written::new(alloc);
    write_draft(&mut out, &to_core(alloc, form)?);
    out.whole()
}

/// Where the name stands that the core of a form calls.
pub(crate) fn place_text(alloc: Global, form: &Form) -> Result<String, AllocError> {
    let mut out = Written::new(alloc);
    out.number(called_at(&to_core(alloc, form)?));
    out.whole()
}

/// Where the called name of a form stands behind the header, and -1 where no name is called.
fn called_at(draft: &Draft) -> i64 {
    if let Draft::Top(DraftTop::Run(DraftTerm::Call(function, _))) = draft {
        if let DraftTerm::Name(token) = &**function {
            return i64::from(token.place.offset.saturating_sub(11));
        }
    }
    -1
}
