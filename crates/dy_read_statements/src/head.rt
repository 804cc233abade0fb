//! What stands between the brackets of a `select`.

ghost use Rattle.std.specs.Prelude.{◌≡◌, false, option_map};
ghost use Rattle.dy_tree.specs.Fragments.{seen_fragments};
ghost use Rattle.dy_tree.specs.declared.splitters.Splitting.TheVariants as splittings;
ghost use Rattle.dy_rules.specs.Choices as choices;
ghost use Rattle.dy_rules.specs.Cutting.{cut, is_splitter};
ghost use Rattle.dy_rules.specs.Fragments.{items_of};
ghost use Rattle.dy_read_statements.specs.Heads.{read_head};
ghost use Rattle.dy_read_outers.specs.Grown.{read_grown};
ghost use Rattle.dy_read_statements.specs.Heads.{head_cut, seen_head, IsHeadWithin};
ghost use Rattle.dy_read_parts.specs.Nesting.{nesting};
ghost use Rattle.dy_read_statements.specs.ReadStatements.{both};

use dy_read_outers::grown::Grown;
use dy_read_parts::cutting::split_piece;
use dy_read_parts::separator::Separator;
use dy_tree::{Fragment, Splitting};

/// The value of a `select`, and what it is compared by.
#[derive(Drop)]
pub struct Head {
    pub selected: Grown,
    pub test: Option<Grown>,
}

/// What stands between the brackets of a `select`.
#[derive(Clone, Copy, Debug)]
pub enum HeadShape<'a> {
    /// The value.
    Alone(&'a [Fragment]),
    /// The value, and the test behind `by`.
    Tested {
        selected: &'a [Fragment],
        test: &'a [Fragment],
    },
    /// None of these.
    Absent,
}

/// What stands between the brackets of a `select`.
pub fn head_shape(fragments: &[Fragment]) -> HeadShape<'_>
    ensures head { seen_head result
        ≡ head_cut (cut (is_splitter splittings.Tests) false
        (items_of (seen_fragments fragments.now))) }
    ensures nested { IsHeadWithin (nesting (seen_fragments fragments.now)) result }
{
    let (selected, others) = split_piece(Separator::Splitter(Splitting::Tests), false, fragments);
    match others.split_first() {
        None => HeadShape::Alone(selected),
        Some((_, behind)) => {
            let (test, others) = split_piece(Separator::Splitter(Splitting::Tests), false, behind);
            if others.is_empty() {
                HeadShape::Tested { selected, test }
            } else {
                HeadShape::Absent
            }
        }
    }
}

/// A value alone.
pub fn alone(selected: Option<Grown>) -> Option<Head>
    ensures { option_map read_head result
        ≡ option_map choices.head_alone (option_map read_grown selected) }
{
    match selected {
        Some(selected) => Some(Head {
            selected,
            test: None,
        }),
        None => None,
    }
}

/// A value with what it is compared by.
pub fn by_test(selected: Option<Grown>, test: Option<Grown>) -> Option<Head>
    ensures { option_map read_head result
        ≡ both choices.head_by (option_map read_grown selected) (option_map read_grown test) }
{
    let Some(selected) = selected else {
        return None;
    };
    match test {
        Some(test) => Some(Head {
            selected,
            test: Some(test),
        }),
        None => None,
    }
}
