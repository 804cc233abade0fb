//! Files in memory.

ghost use Rattle.std.specs.Prelude.{Some, None, ◌≡◌, ◌≢◌, ◌≤◌, ◌↔◌, [], ◌∷◌, ◌++◌, IfOk, OnOk};
ghost use Rattle.std.specs.Prelude.{OnErr};
ghost use Rattle.std.specs.Option.{option_copied};
ghost use Rattle.std.specs.FinMap as map;
ghost use Rattle.dy_io.specs.Causes.{Rose, one_more, FailsNext};
ghost use Rattle.dy_io.specs.Files.{Answers, Writes, ChangesOnly};

use crate::calls::Calls;
use crate::fail::{ReadFail, WriteFail};
use crate::file_table::FileTable;
use crate::files::{Files, Found};
use std::alloc::{AllocError, Global};
use std::marker::Model;

/// Files that are kept in memory. The calls of `read` and `write` together are counted from 1, and
/// those that `fail_at` names fail.
#[derive(Drop)]
pub struct MemFiles {
    alloc: Global,
    table: FileTable,
    calls: Calls,
    faults: u64,
    misses: u64,
}

impl Model for MemFiles {
    ghost use Rattle.dy_io.specs.Memory.{FilesState, files_state_code};

    ghost Value = { FilesState };

    ghost coded = { files_state_code };

    ghost view = { λ f. record {
      files = f.table;
      calls = f.calls.made;
      failing = f.calls.failing.items;
      faults = f.faults;
      misses = f.misses;
    } };
}

impl MemFiles {
    /// No files, and no call that is to fail. It takes no memory.
    pub fn new(alloc: Global) -> Self
        ensures files { result.files ≡ map.empty }
        ensures calls { result.calls ≡ 0 }
        ensures failing { result.failing ≡ [] }
        ensures faults { result.faults ≡ 0 }
        ensures misses { result.misses ≡ 0 }
    {
        MemFiles {
            alloc,
            table: FileTable::new(alloc),
            calls: Calls::new(alloc),
            faults: 0,
            misses: 0,
        }
    }

    /// Makes these bytes the contents of a file. It counts as no call. After want of memory nothing
    /// has changed.
    pub fn add(&mut self, name: &str, bytes: &[u8]) -> Result<(), AllocError>
        ensures ok { OnOk result (self.new
            ≡ record self.old { files = map.insert self.old.files name.now bytes.now }) }
        ensures err { OnErr result (self.new ≡ self.old) }
    {
        self.table.set(self.alloc, name, bytes)
    }

    /// Names a call that is to fail, by its number from 1 on. After want of memory nothing has
    /// changed.
    pub fn fail_at(&mut self, call: u64) -> Result<(), AllocError>
        ensures ok { OnOk result (self.new
            ≡ record self.old { failing = self.old.failing ++ call ∷ [] }) }
        ensures err { OnErr result (self.new ≡ self.old) }
    {
        self.calls.fail_at(call)
    }

    /// The bytes of a file, or `None` where there is no such file. It counts as no call.
    pub fn get(&self, name: &str) -> Option<&[u8]>
        ensures { option_copied result ≡ map.get self.now.files name.now }
    {
        self.table.get(name)
    }
}

impl Files for MemFiles {
    ghost contents = { λ f. Some f.files };

    ghost faults = { λ f. f.faults };

    ghost misses = { λ f. f.misses };

    /// `Failed` comes exactly at the calls that were named.
    fn read(
        &mut self,
        _alloc: Global,
        name: &str,
        most: u64,
        into: &mut Vec<u8>,
    ) -> Result<Found, ReadFail>
        ensures contents { self.new.files ≡ self.old.files }
        ensures answers { IfOk result
            (Answers (Some self.old.files) name.now most into.old.items into.new.items) }
        ensures refused { OnErr result (into.new.items ≡ into.old.items) }
        ensures absent { result ≡ Ok Found.Absent → Rose self.old.misses self.new.misses }
        ensures failed { result ≡ Err ReadFail.Failed → Rose self.old.faults self.new.faults }
        ensures misses { self.old.misses ≤ self.new.misses }
        ensures faults { self.old.faults ≤ self.new.faults }

        // A missing name is absent, except at a call that is to fail.
        ensures fails { (result ≡ Err ReadFail.Failed) ↔ FailsNext self.old.calls self.old.failing }
        ensures lacks { (result ≡ Ok Found.Absent)
            ↔ ((map.get self.old.files name.now ≡ None) × (result ≢ Err ReadFail.Failed)) }
        ensures calls { self.new.calls ≡ one_more self.old.calls }
        ensures failing { self.new.failing ≡ self.old.failing }

        // Each miss and each failure is counted, and nothing else is.
        ensures missed { result ≡ Ok Found.Absent → self.new.misses ≡ one_more self.old.misses }
        ensures not_missed { result ≢ Ok Found.Absent → self.new.misses ≡ self.old.misses }
        ensures counted { result ≡ Err ReadFail.Failed
            → self.new.faults ≡ one_more self.old.faults }
        ensures uncounted { result ≢ Err ReadFail.Failed → self.new.faults ≡ self.old.faults }
    {
        if self.calls.next_fails() {
            self.faults = self.faults.saturating_add(1);
            return Err(ReadFail::Failed);
        }
        let Some(bytes) = self.table.get(name) else {
            self.misses = self.misses.saturating_add(1);
            return Ok(Found::Absent);
        };
        let front = (most as usize).min(bytes.len());
        if into.extend_from_slice(&bytes[..front]).is_err() {
            return Err(ReadFail::Memory);
        }
        Ok(Found::Here)
    }

    /// `Failed` comes exactly at the calls that were named, and such a call takes the file out.
    fn write(&mut self, name: &str, bytes: &[u8]) -> Result<(), WriteFail>
        ensures written { OnOk result
            (Writes (Some self.old.files) (Some self.new.files) name.now bytes.now) }
        ensures others { OnErr result
            (ChangesOnly (Some self.old.files) (Some self.new.files) name.now) }
        ensures memory { result ≡ Err WriteFail.Memory → self.new.files ≡ self.old.files }
        ensures failed { result ≡ Err WriteFail.Failed → Rose self.old.faults self.new.faults }
        ensures misses { self.old.misses ≤ self.new.misses }
        ensures faults { self.old.faults ≤ self.new.faults }

        // What a failing call does.
        ensures fails { (result ≡ Err WriteFail.Failed)
            ↔ FailsNext self.old.calls self.old.failing }
        ensures lost { result ≡ Err WriteFail.Failed
            → self.new.files ≡ map.remove self.old.files name.now }
        ensures calls { self.new.calls ≡ one_more self.old.calls }
        ensures failing { self.new.failing ≡ self.old.failing }

        // Each failure is counted, and nothing else is.
        ensures not_missed { self.new.misses ≡ self.old.misses }
        ensures counted { result ≡ Err WriteFail.Failed
            → self.new.faults ≡ one_more self.old.faults }
        ensures uncounted { result ≢ Err WriteFail.Failed → self.new.faults ≡ self.old.faults }
    {
        if self.calls.next_fails() {
            self.faults = self.faults.saturating_add(1);
            self.table.remove(name);
            return Err(WriteFail::Failed);
        }
        if self.table.set(self.alloc, name, bytes).is_err() {
            return Err(WriteFail::Memory);
        }
        Ok(())
    }
}
