//! Where output goes.

ghost use Rattle.std.specs.Prelude.{◌≡◌, ℕ, ◌≤◌, List, Option, OnOk, OnErr};
ghost use Rattle.std.specs.Io.KnownBytes.{Appends, Keeps};
ghost use Rattle.dy_io.specs.Causes.{Rose};
ghost use Rattle.dy_io.specs.Sinks.{AppendsFront};

use crate::fail::WriteFail;

/// A place to which bytes are sent.
pub trait Sink {
    /// What was sent, where the sink tells it.
    ghost contents: { Self → Option (List ℕ) };

    /// How often a call has failed.
    ghost faults: { Self → ℕ };

    /// Sends these bytes behind those that were sent before. After a failure some of them, from
    /// their front on, may have been sent; after want of memory none has.
    fn put(&mut self, bytes: &[u8]) -> Result<(), WriteFail>
        ensures sent { OnOk result (Appends (contents self.old) (contents self.new) bytes.now) }
        ensures front { OnErr result
            (AppendsFront (contents self.old) (contents self.new) bytes.now) }
        ensures memory { result ≡ Err WriteFail.Memory
            → Keeps (contents self.old) (contents self.new) }
        ensures failed { result ≡ Err WriteFail.Failed → Rose (faults self.old) (faults self.new) }
        ensures faults { faults self.old ≤ faults self.new };
}
