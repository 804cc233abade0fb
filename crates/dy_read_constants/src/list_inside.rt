//! What stands inside of a list.

ghost use Rattle.std.specs.Prelude.{◌≡◌, option_map, option_and_then};
ghost use Rattle.dy_read_constants.specs.ConstantCaps.{read_constant};
ghost use Rattle.dy_read_constants.specs.ConstantFronts.{read_inside, read_vector};
ghost use Rattle.dy_read_constants.specs.ConstantLists as spec;

use dy_tree::ConstantForm;

/// The items of a list, and what stands behind its dot.
#[derive(Debug, Drop)]
pub struct ListInside {
    pub items: Vec<ConstantForm>,
    pub last: Option<ConstantForm>,
}

/// A list with something behind its dot.
pub fn with_tail(items: Vec<ConstantForm>, last: Option<ConstantForm>) -> Option<ListInside>
    ensures { option_map read_inside result
        ≡ option_map (spec.with_tail (read_vector items)) (option_map read_constant last) }
{
    match last {
        Some(last) => Some(ListInside {
            items,
            last: Some(last),
        }),
        None => None,
    }
}

/// The items of a list that has no dot.
pub fn proper(found: Option<ListInside>) -> Option<Vec<ConstantForm>>
    ensures { option_map read_vector result
        ≡ option_and_then spec.proper (option_map read_inside found) }
{
    match found {
        Some(ListInside { items, last: None }) => Some(items),
        _ => None,
    }
}
