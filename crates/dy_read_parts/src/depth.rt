//! How deep trees are.

ghost use Rattle.std.specs.Prelude.{◌≡◌, max};

/// How deep a tree may be.
pub const DEPTH_LIMIT: usize = 200;

/// The greater one of two depths.
pub fn deepest(first: usize, second: usize) -> usize
    ensures { result ≡ max first second }
{
    if first < second { second } else { first }
}

/// Raises a depth to another that is greater.
pub fn deepen(depth: &mut usize, other: usize)
    ensures { depth.new ≡ max depth.old other }
{
    if *depth < other {
        *depth = other;
    }
}
