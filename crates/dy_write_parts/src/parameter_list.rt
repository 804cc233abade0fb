//! The brackets of a parameter list.

ghost use Rattle.std.specs.Prelude.{◌≡◌, ◌++◌, [], ◌∷◌, map, OnOk};
ghost use Rattle.dy_tree.specs.Fragments.{seen_fragments};
ghost use Rattle.dy_rules.specs.Marks.{comma_mark, in_round};
ghost use Rattle.dy_rules.specs.TypeWriting.{written_required, required_joined, next_joined};
ghost use Rattle.dy_rules.specs.TypeWriting.{rest_joined};
ghost use Rattle.dy_rules.specs.SeenTypes.{seen_required};
ghost use Rattle.dy_write_parts.specs.Separated.{separated, joined_last};

use crate::literals::push_single;
use crate::mark::{push_operator, push_round, push_token};
use crate::targets::push_marked_name;
use crate::types::{push_comma, push_variable};
use dy_tree::{Fragment, Required, Token};
use std::alloc::{AllocError, Global};

/// Adds a required parameter.
fn push_required(
    alloc: Global,
    required: &Required,
    out: &mut Vec<Fragment>,
) -> Result<(), AllocError>
    ensures { OnOk result (seen_fragments out.new.items
        ≡ seen_fragments out.old.items ++ written_required (seen_required required.now)) }
{
    match required {
        Required::Variable(variable) => push_variable(alloc, variable, out),
        Required::Single { name, single } => {
            push_token(out, name.copy()?)?;
            push_operator(alloc, out, b"==")?;
            push_single(alloc, out, single)
        }
    }
}

/// Adds required parameters with commas between them.
fn push_each_required(
    alloc: Global,
    parameters: &Vec<Required>,
    out: &mut Vec<Fragment>,
) -> Result<(), AllocError>
    ensures { OnOk result (seen_fragments out.new.items
        ≡ seen_fragments out.old.items
        ++ separated comma_mark written_required (map seen_required parameters.now.items)) }
{
    let mut first = true;
    for parameter in parameters {
        push_comma(alloc, out, first)?;
        push_required(alloc, parameter, out)?;
        first = false;
    }
    Ok(())
}

/// Adds fragments, if there are any, with a comma before them unless they are the first.
fn push_last(
    alloc: Global,
    out: &mut Vec<Fragment>,
    first: bool,
    mut last: Vec<Fragment>,
) -> Result<(), AllocError>
    ensures { OnOk result (seen_fragments out.new.items
        ≡ seen_fragments out.old.items ++ joined_last first (seen_fragments last.items)) }
{
    if last.is_empty() {
        return Ok(());
    }
    push_comma(alloc, out, first)?;
    out.append(&mut last)
}

/// Adds the brackets of a parameter list, in which `keys` stands last.
pub fn push_listed(
    alloc: Global,
    required: &Vec<Required>,
    next: &Option<Token>,
    rest: &Option<Token>,
    keys: Vec<Fragment>,
    out: &mut Vec<Fragment>,
) -> Result<(), AllocError>
    ensures { OnOk result (seen_fragments out.new.items
        ≡ seen_fragments out.old.items
        ++ in_round (required_joined (map seen_required required.now.items)
        (next_joined next.now (rest_joined rest.now (seen_fragments keys.items)))) ∷ []) }
{
    let mut inner = Vec::new(alloc);
    push_each_required(alloc, required, &mut inner)?;
    let first = required.is_empty();
    push_marked_name(alloc, &mut inner, first, b"#next", next)?;
    let first = first && next.is_none();
    push_marked_name(alloc, &mut inner, first, b"#rest", rest)?;
    let first = first && rest.is_none();
    push_last(alloc, &mut inner, first, keys)?;
    push_round(alloc, out, inner)
}
