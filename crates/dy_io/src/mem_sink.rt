//! A sink in memory.

ghost use Rattle.std.specs.Prelude.{Some, ◌≡◌, ◌≢◌, ◌≤◌, ◌↔◌, [], ◌∷◌, ◌++◌, OnOk, OnErr};
ghost use Rattle.std.specs.Io.KnownBytes.{Appends, Keeps};
ghost use Rattle.dy_io.specs.Causes.{Rose, one_more, FailsNext};
ghost use Rattle.dy_io.specs.Sinks.{AppendsFront};

use crate::calls::Calls;
use crate::fail::WriteFail;
use crate::sink::Sink;
use std::alloc::{AllocError, Global};
use std::marker::Model;

/// A sink that keeps what is sent to it. Its calls of `put` are counted from 1, and those that
/// `fail_at` names fail.
#[derive(Drop)]
pub struct MemSink {
    sent: Vec<u8>,
    calls: Calls,
    faults: u64,
}

impl Model for MemSink {
    ghost use Rattle.dy_io.specs.Memory.{SinkState};

    ghost Value = { SinkState };

    ghost view = { λ s. record {
      bytes = s.sent.items;
      calls = s.calls.made;
      failing = s.calls.failing.items;
      faults = s.faults;
    } };
}

impl MemSink {
    /// A sink to which nothing was sent, and of which no call is to fail. It takes no memory.
    pub fn new(alloc: Global) -> Self
        ensures bytes { result.bytes ≡ [] }
        ensures calls { result.calls ≡ 0 }
        ensures failing { result.failing ≡ [] }
        ensures faults { result.faults ≡ 0 }
    {
        MemSink {
            sent: Vec::new(alloc),
            calls: Calls::new(alloc),
            faults: 0,
        }
    }

    /// Names a call of `put` that is to fail, by its number from 1 on. After want of memory nothing
    /// has changed.
    pub fn fail_at(&mut self, call: u64) -> Result<(), AllocError>
        ensures ok { OnOk result (self.new
            ≡ record self.old { failing = self.old.failing ++ call ∷ [] }) }
        ensures err { OnErr result (self.new ≡ self.old) }
    {
        self.calls.fail_at(call)
    }

    /// All that was sent.
    pub fn bytes(&self) -> &[u8]
        ensures { result.now ≡ self.now.bytes }
    {
        &self.sent
    }
}

impl Sink for MemSink {
    ghost contents = { λ s. Some s.bytes };

    ghost faults = { λ s. s.faults };

    /// `Failed` comes exactly at the calls that were named, and such a call sends nothing.
    fn put(&mut self, bytes: &[u8]) -> Result<(), WriteFail>
        ensures sent { OnOk result (Appends (Some self.old.bytes) (Some self.new.bytes) bytes.now) }
        ensures front { OnErr result
            (AppendsFront (Some self.old.bytes) (Some self.new.bytes) bytes.now) }
        ensures memory { result ≡ Err WriteFail.Memory
            → Keeps (Some self.old.bytes) (Some self.new.bytes) }
        ensures failed { result ≡ Err WriteFail.Failed → Rose self.old.faults self.new.faults }
        ensures faults { self.old.faults ≤ self.new.faults }

        // What each call does to what the sink keeps.
        ensures fails { (result ≡ Err WriteFail.Failed)
            ↔ FailsNext self.old.calls self.old.failing }
        ensures kept { OnErr result (self.new.bytes ≡ self.old.bytes) }
        ensures calls { self.new.calls ≡ one_more self.old.calls }
        ensures failing { self.new.failing ≡ self.old.failing }
        ensures counted { result ≡ Err WriteFail.Failed
            → self.new.faults ≡ one_more self.old.faults }
        ensures uncounted { result ≢ Err WriteFail.Failed → self.new.faults ≡ self.old.faults }
    {
        if self.calls.next_fails() {
            self.faults = self.faults.saturating_add(1);
            return Err(WriteFail::Failed);
        }
        if self.sent.extend_from_slice(bytes).is_err() {
            return Err(WriteFail::Memory);
        }
        Ok(())
    }
}
