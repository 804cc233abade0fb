//! Files of the host.

ghost use Rattle.std.specs.Prelude.{None, ◌≡◌, ◌≢◌, ◌≤◌, IfOk, OnErr};
ghost use Rattle.dy_io.specs.Causes.{Rose, one_more};
ghost use Rattle.dy_io.specs.Files.{Answers};

use crate::fail::{ReadFail, WriteFail};
use crate::files::{Files, Found};
use crate::transfer::{read_fail, read_front, write_whole};
use std::alloc::Global;
use std::io::ErrorKind;
use std::{fs, rt};

/// The files of the host, by their paths. They tell no contents, and count how often a call has
/// failed and how often a file was not there.
#[derive(Drop)]
pub struct HostFiles<'a, R> {
    rt: &'a R,
    faults: u64,
    misses: u64,
}

impl<'a, R: rt::Files> HostFiles<'a, R> {
    ghost use Rattle.dy_io.specs.Host.{files_faults, files_misses};

    /// The files that this runtime reaches, where no call has failed and no file was missed.
    pub fn new(rt: &'a R) -> Self
        ensures faults { files_faults result ≡ 0 }
        ensures misses { files_misses result ≡ 0 }
    {
        HostFiles {
            rt,
            faults: 0,
            misses: 0,
        }
    }
}

impl<'a, R: rt::Files> Files for HostFiles<'a, R> {
    ghost use Rattle.dy_io.specs.Host.{files_faults, files_misses};

    ghost contents = { λ _. None };

    ghost faults = { λ f. f.faults };

    ghost misses = { λ f. f.misses };

    /// A file that is not there is `Absent`. `Failed` comes where it could not be opened or read,
    /// as a folder, or where its name is none that the system takes.
    fn read(
        &mut self,
        _alloc: Global,
        name: &str,
        most: u64,
        into: &mut Vec<u8>,
    ) -> Result<Found, ReadFail>
        ensures answers { IfOk result (Answers None name.now most into.old.items into.new.items) }
        ensures refused { OnErr result (into.new.items ≡ into.old.items) }
        ensures absent { result ≡ Ok Found.Absent
            → Rose (files_misses self.old) (files_misses self.new) }
        ensures failed { result ≡ Err ReadFail.Failed
            → Rose (files_faults self.old) (files_faults self.new) }
        ensures misses { files_misses self.old ≤ files_misses self.new }
        ensures faults { files_faults self.old ≤ files_faults self.new }

        // Each miss and each failure is counted, and nothing else is.
        ensures missed { result ≡ Ok Found.Absent
            → files_misses self.new ≡ one_more (files_misses self.old) }
        ensures not_missed { result ≢ Ok Found.Absent
            → files_misses self.new ≡ files_misses self.old }
        ensures counted { result ≡ Err ReadFail.Failed
            → files_faults self.new ≡ one_more (files_faults self.old) }
        ensures uncounted { result ≢ Err ReadFail.Failed
            → files_faults self.new ≡ files_faults self.old }
    {
        let answer = read_named(self.rt, name, most, into);
        match answer {
            Ok(Found::Absent) => self.misses = self.misses.saturating_add(1),
            Err(ReadFail::Failed) => self.faults = self.faults.saturating_add(1),
            Ok(Found::Here) | Err(ReadFail::Memory) => {}
        }
        answer
    }

    /// Makes the file where there is none. `Failed` comes where it could not be made or opened, or
    /// where a write or the flush failed.
    fn write(&mut self, name: &str, bytes: &[u8]) -> Result<(), WriteFail>
        ensures failed { result ≡ Err WriteFail.Failed
            → Rose (files_faults self.old) (files_faults self.new) }
        ensures misses { files_misses self.old ≤ files_misses self.new }
        ensures faults { files_faults self.old ≤ files_faults self.new }

        // Each failure is counted, nothing else is, and there is no other error.
        ensures cause { OnErr result (result ≡ Err WriteFail.Failed) }
        ensures counted { result ≡ Err WriteFail.Failed
            → files_faults self.new ≡ one_more (files_faults self.old) }
        ensures uncounted { result ≢ Err WriteFail.Failed
            → files_faults self.new ≡ files_faults self.old }
        ensures not_missed { files_misses self.new ≡ files_misses self.old }
    {
        let answer = write_named(self.rt, name, bytes);
        if answer.is_err() {
            self.faults = self.faults.saturating_add(1);
        }
        answer
    }
}

// A file that is not there is `Absent`. Another error of the system is `Failed`, or `Memory` where
// memory did not suffice.
fn read_named<R: rt::Files>(
    rt: &R,
    name: &str,
    most: u64,
    into: &mut Vec<u8>,
) -> Result<Found, ReadFail>
    ensures answers { IfOk result (Answers None name.now most into.old.items into.new.items) }
    ensures refused { OnErr result (into.new.items ≡ into.old.items) }
{
    match fs::open(rt, name) {
        Ok(mut file) => {
            read_front(&mut file, most, into)?;
            Ok(Found::Here)
        }
        Err(error) if error.kind() == ErrorKind::NotFound => Ok(Found::Absent),
        Err(error) => Err(read_fail(&error)),
    }
}

// An error at the opening or at the writing is `Failed`, the only error.
fn write_named<R: rt::Files>(rt: &R, name: &str, bytes: &[u8]) -> Result<(), WriteFail>
    ensures { OnErr result (result ≡ Err WriteFail.Failed) }
{
    match fs::create(rt, name) {
        Ok(mut file) => write_whole(&mut file, bytes),
        Err(_) => Err(WriteFail::Failed),
    }
}
