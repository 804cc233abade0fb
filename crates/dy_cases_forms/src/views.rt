//! What the tables show of forms.

use crate::cores::{core_text, place_text};
use crate::write::{write_fault, write_fragments};
use dy_base::Fault;
use dy_constructs::absent_construct;
use dy_grammar::unparse;
use dy_tree::Form;
use std::alloc::{AllocError, Global};

/// What a table shows of a form.
#[derive(Clone, Copy)]
pub(crate) enum View {
    /// Its canonical text.
    Canonical,
    /// The first construct that it holds and that does not run yet.
    Construct,
    /// Its core.
    Core,
    /// Where the name stands that its core calls.
    Place,
}

impl View {
    /// What the table of this name shows, by the folder that it stands in.
    pub(crate) fn of(table: &str) -> View {
        match table.split_once('/') {
            Some(("constructs", _)) => View::Construct,
            Some(("core", "places")) => View::Place,
            Some(("core", _)) => View::Core,
            _ => View::Canonical,
        }
    }

    /// What is shown of a form.
    pub(crate) fn form(self, alloc: Global, form: &Form) -> Result<String, AllocError> {
        match self {
            View::Canonical => canonical_text(alloc, form),
            View::Construct => construct_text(alloc, form),
            View::Core => core_text(alloc, form),
            View::Place => place_text(alloc, form),
        }
    }

    /// What is shown of a text that is no form.
    pub(crate) fn fault(self, alloc: Global, fault: &Fault) -> Result<String, AllocError> {
        let mut shown = String::new(alloc);
        match self {
            View::Canonical => write_fault(&mut shown, fault)?,
            View::Construct => write!(shown, "{:?}", fault.kind).map_err(|_| AllocError)?,
            View::Core | View::Place => shown.push_str("refused")?,
        }
        Ok(shown)
    }
}

fn canonical_text(alloc: Global, form: &Form) -> Result<String, AllocError> {
    let mut shown = String::new(alloc);
    write_fragments(&mut shown, &unparse(alloc, form)?)?;
    Ok(shown)
}

fn construct_text(alloc: Global, form: &Form) -> Result<String, AllocError> {
    let mut shown = String::new(alloc);
    match absent_construct(form) {
        Some(construct) => write!(shown, "{construct:?}").map_err(|_| AllocError)?,
        None => shown.push_str("runs")?,
    }
    Ok(shown)
}
