//! The bounds of limited types.

ghost use Rattle.std.specs.Prelude.{◌≡◌, map};
ghost use Rattle.dy_rules.specs.SeenTypes.{seen_bound};
ghost use Rattle.dy_rules.specs.Tests.{at_most_one};
ghost use Rattle.dy_rules.specs.Types.{each_once, is_bound_of};

use dy_tree::BoundForm;

/// Whether at most one of the bounds has this keyword.
#[tactic(auto, using(dy_rules::proofs::Lists::at_most_one_seen))]
fn has_at_most_one(keyword: &[u8], bounds: &[BoundForm]) -> bool
    ensures { result ≡ at_most_one (is_bound_of keyword.now) (map seen_bound bounds.now) }
{
    let found = bounds
        .iter()
        .filter(|bound| bound.keyword.is_spelled(keyword));
    found.count() < 2
}

/// Whether `min:` stands once at most, and `max:` too.
pub fn stand_once(bounds: &[BoundForm]) -> bool
    ensures { result ≡ each_once (map seen_bound bounds.now) }
{
    has_at_most_one(b"min", bounds) && has_at_most_one(b"max", bounds)
}
