//! A sink over a writer.

ghost use Rattle.std.specs.Prelude.{None, ◌≡◌, ◌≤◌, OnOk, OnErr};
ghost use Rattle.std.specs.Io.KnownBytes.{Appends, Keeps};
ghost use Rattle.dy_io.specs.Causes.{Rose, one_more};
ghost use Rattle.dy_io.specs.Sinks.{AppendsFront};

use crate::fail::WriteFail;
use crate::sink::Sink;
use crate::transfer::write_whole;
use std::io::Write;

/// A sink that passes what is sent to a writer, and flushes the writer each time. It tells no
/// contents, and counts how often a call has failed.
#[derive(Drop)]
pub struct HostSink<W> {
    writer: W,
    faults: u64,
}

impl<W: Write + Drop> HostSink<W> {
    ghost use Rattle.dy_io.specs.Host.{sink_writer, sink_faults};

    /// A sink over this writer, of which no call has failed.
    pub fn new(writer: W) -> Self
        ensures writer { sink_writer result ≡ writer }
        ensures faults { sink_faults result ≡ 0 }
    {
        HostSink { writer, faults: 0 }
    }
}

impl<W: Write + Drop> Sink for HostSink<W> {
    ghost use Rattle.dy_io.specs.Host.{sink_writer, sink_faults};

    ghost contents = { λ _. None };

    ghost faults = { λ s. s.faults };

    /// `Failed` comes where a write or the flush failed, or where the writer took nothing of bytes
    /// that were left.
    fn put(&mut self, bytes: &[u8]) -> Result<(), WriteFail>
        ensures failed { result ≡ Err WriteFail.Failed
            → Rose (sink_faults self.old) (sink_faults self.new) }
        ensures faults { sink_faults self.old ≤ sink_faults self.new }

        // What the writer holds, where it tells it, and each failure is counted.
        ensures written { OnOk result
            (Appends (W.contents (sink_writer self.old))
            (W.contents (sink_writer self.new)) bytes.now) }
        ensures part { OnErr result
            (AppendsFront (W.contents (sink_writer self.old))
            (W.contents (sink_writer self.new)) bytes.now) }
        ensures cause { OnErr result (result ≡ Err WriteFail.Failed) }
        ensures counted { OnErr result (sink_faults self.new ≡ one_more (sink_faults self.old)) }
        ensures uncounted { OnOk result (sink_faults self.new ≡ sink_faults self.old) }
    {
        match write_whole(&mut self.writer, bytes) {
            Ok(()) => Ok(()),
            Err(fail) => {
                self.faults = self.faults.saturating_add(1);
                Err(fail)
            }
        }
    }
}
