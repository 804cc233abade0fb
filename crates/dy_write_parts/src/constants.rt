//! Lists and vectors of literals.

ghost use Rattle.std.specs.Prelude.{◌≡◌, ◌++◌, [], ◌∷◌, map, option_map, OnOk};
ghost use Rattle.dy_tree.specs.Fragments.{seen_fragments};
ghost use Rattle.dy_rules.specs.ConstantTrees.{constants_of, tail_of};
ghost use Rattle.dy_rules.specs.Marks.{list_group, square_group};
ghost use Rattle.dy_rules.specs.Writing.{written_constant, written_items, written_tail};
ghost use Rattle.dy_rules.specs.SeenTypes.{seen_constant};

use crate::literals::push_literal;
use crate::mark::{push_list_group, push_mark, push_square_group};
use crate::types::push_comma;
use dy_tree::{ConstantForm, Fragment, Token};
use std::alloc::{AllocError, Global};

/// Adds an item of a list or a vector.
#[cycle(constants)]
fn push_constant(
    alloc: Global,
    form: &ConstantForm,
    out: &mut Vec<Fragment>,
) -> Result<(), AllocError>
    ensures { OnOk result (seen_fragments out.new.items
        ≡ seen_fragments out.old.items ++ written_constant (seen_constant form.now)) }
{
    match form {
        ConstantForm::Literal(literal) => push_literal(out, literal),
        ConstantForm::List {
            opener,
            items,
            tail,
        } => {
            let mut inner = Vec::new(alloc);
            push_items(alloc, items, &mut inner)?;
            push_boxed_tail(alloc, tail, &mut inner)?;
            push_list_group(alloc, out, opener, inner)
        }
        ConstantForm::Vector { opener, items } => {
            let mut inner = Vec::new(alloc);
            push_items(alloc, items, &mut inner)?;
            push_square_group(alloc, out, opener, inner)
        }
    }
}

/// Adds items with commas between them.
#[cycle(constants)]
pub fn push_items(
    alloc: Global,
    forms: &Vec<ConstantForm>,
    out: &mut Vec<Fragment>,
) -> Result<(), AllocError>
    ensures { OnOk result (seen_fragments out.new.items
        ≡ seen_fragments out.old.items
        ++ written_items (constants_of (map seen_constant forms.now.items))) }
{
    let mut first = true;
    for form in forms {
        push_comma(alloc, out, first)?;
        push_constant(alloc, form, out)?;
        first = false;
    }
    Ok(())
}

/// Adds the tail of a list inside of a literal, behind its dot.
#[cycle(constants)]
fn push_boxed_tail(
    alloc: Global,
    last: &Option<Box<ConstantForm>>,
    out: &mut Vec<Fragment>,
) -> Result<(), AllocError>
    ensures { OnOk result (seen_fragments out.new.items
        ≡ seen_fragments out.old.items
        ++ written_tail (tail_of (option_map (λ boxed. seen_constant boxed.value) last.now))) }
{
    match last {
        Some(last) => {
            push_mark(alloc, out, b".")?;
            push_constant(alloc, last, out)
        }
        None => Ok(()),
    }
}

/// Adds the tail of a list behind its dot, if there is one.
pub fn push_tail(
    alloc: Global,
    last: &Option<ConstantForm>,
    out: &mut Vec<Fragment>,
) -> Result<(), AllocError>
    ensures { OnOk result (seen_fragments out.new.items
        ≡ seen_fragments out.old.items
        ++ written_tail (tail_of (option_map seen_constant last.now))) }
{
    match last {
        Some(last) => {
            push_mark(alloc, out, b".")?;
            push_constant(alloc, last, out)
        }
        None => Ok(()),
    }
}

/// Adds a list.
pub fn push_list(
    alloc: Global,
    opener: &Token,
    items: &Vec<ConstantForm>,
    tail: &Option<ConstantForm>,
    out: &mut Vec<Fragment>,
) -> Result<(), AllocError>
    ensures { OnOk result (seen_fragments out.new.items
        ≡ seen_fragments out.old.items
        ++ list_group opener.now (written_items (constants_of (map seen_constant items.now.items))
        ++ written_tail (tail_of (option_map seen_constant tail.now))) ∷ []) }
{
    let mut inner = Vec::new(alloc);
    push_items(alloc, items, &mut inner)?;
    push_tail(alloc, tail, &mut inner)?;
    push_list_group(alloc, out, opener, inner)
}

/// Adds a vector.
pub fn push_vector(
    alloc: Global,
    opener: &Token,
    items: &Vec<ConstantForm>,
    out: &mut Vec<Fragment>,
) -> Result<(), AllocError>
    ensures { OnOk result (seen_fragments out.new.items
        ≡ seen_fragments out.old.items
        ++ square_group opener.now
        (written_items (constants_of (map seen_constant items.now.items))) ∷ []) }
{
    let mut inner = Vec::new(alloc);
    push_items(alloc, items, &mut inner)?;
    push_square_group(alloc, out, opener, inner)
}
