//! Where libraries stand in another view.

ghost use Rattle.std.specs.Prelude.{◌≡◌};
ghost use Rattle.dy_seen_rows.specs.Places.{placed};

use dy_base::Items;

/// Where the libraries stand that have their places in a view.
#[derive(Drop)]
pub enum Places {
    /// Where they stood.
    Kept,
    /// For each place the new one, and the one of all places behind those.
    Moved(Items<u32>, u32),
}

impl Places {
    /// The new place of the library at this place.
    pub fn at(&self, library: u32) -> u32
        ensures { result ≡ placed self.now library }
    {
        match self {
            Places::Kept => library,
            Places::Moved(places, behind) => match places.as_slice().get(library as usize) {
                Some(place) => *place,
                None => *behind,
            },
        }
    }
}
