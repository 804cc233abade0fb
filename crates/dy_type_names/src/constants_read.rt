//! The type constants among the forms of a library.

ghost use Rattle.std.specs.Prelude.{◌≡◌, map, IfOk};
ghost use Rattle.dy_term.specs.Rows.{seen_draft};
ghost use Rattle.dy_type_names.specs.Constants.{constants_of, row_of, row_owned};
ghost use Rattle.dy_type_names.specs.RowTables.{seen_constant};

use dy_base::{BindingId, Place, What};
use dy_term::{Draft, DraftType, DraftVariable};
use dy_tree::Token;
use std::alloc::{AllocError, Global};

/// The type constants of these forms, in the order of the text: the name of each, and the type
/// that it is written as.
pub(crate) fn constants_of<'a>(
    alloc: Global,
    forms: &'a [(Place, Draft)],
) -> Result<Vec<(&'a Token, &'a DraftType)>, AllocError>
    ensures { IfOk result (λ found. map seen_constant found.items
        ≡ constants_of (map (λ f. (f.0, seen_draft f.1)) forms.now)) }
{
    let mut constants = Vec::new(alloc);
    for (_place, draft) in forms {
        if let Draft::Variable(DraftVariable::Type(name, _declared, meant)) = draft {
            constants.push((name, meant))?;
        }
    }
    Ok(constants)
}

fn row_of(library: u32, binding: BindingId) -> Option<u32>
    ensures { result ≡ row_of library binding }
{
    match binding.what {
        What::Constant => {
            if binding.at.library == library {
                Some(binding.at.row)
            } else {
                None
            }
        }
        What::Class | What::Generic | What::Variable | What::Function | What::Macro => None,
    }
}

/// The row that an owner is, if it is a constant of this library.
pub(crate) fn row_owned(library: u32, owner: Option<BindingId>) -> Option<u32>
    ensures { result ≡ row_owned library owner }
{
    match owner {
        None => None,
        Some(binding) => row_of(library, binding),
    }
}
