//! The calls of an object, counted from 1, and those of them that are to fail.

ghost use Rattle.std.specs.Prelude.{◌≡◌, ◌↔◌, [], ◌∷◌, ◌++◌, OnOk, OnErr, IsTrue};
ghost use Rattle.dy_io.specs.Causes.{one_more, FailsNext};

use std::alloc::{AllocError, Global};

/// How many calls were made, and the numbers of those that are to fail.
#[derive(Drop)]
pub struct Calls {
    pub made: u64,
    pub failing: Vec<u64>,
}

impl Calls {
    /// No call was made, and none is to fail.
    pub fn new(alloc: Global) -> Self
        ensures made { result.made ≡ 0 }
        ensures failing { result.failing.items ≡ [] }
    {
        Calls {
            made: 0,
            failing: Vec::new(alloc),
        }
    }

    /// Names a call that is to fail, by its number.
    pub fn fail_at(&mut self, call: u64) -> Result<(), AllocError>
        ensures ok { OnOk result (self.new.failing.items ≡ self.old.failing.items ++ call ∷ []) }
        ensures err { OnErr result (self.new.failing.items ≡ self.old.failing.items) }
        ensures made { self.new.made ≡ self.old.made }
    {
        self.failing.push(call)?;
        Ok(())
    }

    /// Counts one more call, and says whether it is to fail.
    pub fn next_fails(&mut self) -> bool
        ensures fails { IsTrue result ↔ FailsNext self.old.made self.old.failing.items }
        ensures made { self.new.made ≡ one_more self.old.made }
        ensures failing { self.new.failing.items ≡ self.old.failing.items }
    {
        self.made = self.made.saturating_add(1);
        self.failing.contains(&self.made)
    }
}
