//! Fuel, which bounds a run.

ghost use Rattle.std.specs.Prelude.{◌≡◌, ◌-◌, ◌<◌, ◌↔◌, IsTrue};

/// How many units a run may still spend.
#[derive(Clone, Copy, Debug, PartialEq, Eq)]
pub struct Fuel {
    pub left: u64,
}

impl Fuel {
    /// Spends a unit. It is false exactly where none is left, and then nothing changes.
    pub fn take(&mut self) -> bool
        ensures taken { IsTrue result ↔ (0 < self.old.left) }
        ensures left { self.new.left ≡ self.old.left - 1 }
    {
        if self.left == 0 {
            return false;
        }
        self.left -= 1;
        true
    }
}
