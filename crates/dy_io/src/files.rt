//! Files by name.

ghost use Rattle.std.specs.Prelude.{◌≡◌, ℕ, ◌≤◌, Option, IfOk, OnOk, OnErr};
ghost use Rattle.dy_io.specs.Causes.{Rose};
ghost use Rattle.dy_io.specs.Files.{FileMap, Answers, Writes, ChangesOnly};

use crate::fail::{ReadFail, WriteFail};
use std::alloc::Global;

/// Whether a file is there.
#[derive(Clone, Copy, Debug, PartialEq, Eq)]
pub enum Found {
    Here,
    Absent,
}

/// Files that are read and written by name.
pub trait Files {
    /// What the files hold, where they tell it.
    ghost contents: { Self → Option FileMap };

    /// How often a read or a write has failed.
    ghost faults: { Self → ℕ };

    /// How often a file was not there.
    ghost misses: { Self → ℕ };

    /// Reads the first `most` bytes of a file, or all where it is shorter, behind what `into`
    /// holds. After an error `into` is as before.
    fn read(
        &mut self,
        alloc: Global,
        name: &str,
        most: u64,
        into: &mut Vec<u8>,
    ) -> Result<Found, ReadFail>
        ensures contents { contents self.new ≡ contents self.old }
        ensures answers { IfOk result
            (Answers (contents self.old) name.now most into.old.items into.new.items) }
        ensures refused { OnErr result (into.new.items ≡ into.old.items) }

        // A file is reported absent only where the misses rose, and failed only where the faults
        // did.
        ensures absent { result ≡ Ok Found.Absent → Rose (misses self.old) (misses self.new) }
        ensures failed { result ≡ Err ReadFail.Failed → Rose (faults self.old) (faults self.new) }
        ensures misses { misses self.old ≤ misses self.new }
        ensures faults { faults self.old ≤ faults self.new };

    /// Makes these bytes the contents of a file. After a failure that file may hold anything, or be
    /// gone; after want of memory nothing has changed.
    fn write(&mut self, name: &str, bytes: &[u8]) -> Result<(), WriteFail>
        ensures written { OnOk result
            (Writes (contents self.old) (contents self.new) name.now bytes.now) }
        ensures others { OnErr result
            (ChangesOnly (contents self.old) (contents self.new) name.now) }
        ensures memory { result ≡ Err WriteFail.Memory → contents self.new ≡ contents self.old }
        ensures failed { result ≡ Err WriteFail.Failed → Rose (faults self.old) (faults self.new) }
        ensures misses { misses self.old ≤ misses self.new }
        ensures faults { faults self.old ≤ faults self.new };
}
