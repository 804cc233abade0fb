//! A table of files in memory.

ghost use Rattle.std.specs.Prelude.{◌≡◌, OnOk, OnErr};
ghost use Rattle.std.specs.Option.{option_copied};
ghost use Rattle.std.specs.FinMap as map;

use std::alloc::{AllocError, Global};
use std::collections::BTreeMap;
use std::marker::Model;

/// The bytes of each file, by its name.
#[derive(Drop)]
pub struct FileTable {
    entries: BTreeMap<String, Vec<u8>>,
}

impl Model for FileTable {
    ghost use Rattle.dy_io.specs.Files.{FileMap};
    ghost use Rattle.dy_io.specs.Memory.{file_map_code, files_of};

    ghost Value = { FileMap };

    ghost coded = { file_map_code };

    ghost view = { λ t. files_of t.entries.entries };
}

impl FileTable {
    /// No files. It takes no memory.
    pub fn new(alloc: Global) -> Self
        ensures { result ≡ map.empty }
    {
        FileTable {
            entries: BTreeMap::new(alloc),
        }
    }

    /// The bytes of a file, or `None` where there is no such file.
    pub fn get(&self, name: &str) -> Option<&[u8]>
        ensures { option_copied result ≡ map.get self.now name.now }
    {
        match self.entries.get(name) {
            Some(bytes) => Some(bytes.as_slice()),
            None => None,
        }
    }

    /// Makes these bytes the contents of a file. After want of memory nothing has changed.
    pub fn set(&mut self, alloc: Global, name: &str, bytes: &[u8]) -> Result<(), AllocError>
        ensures ok { OnOk result (self.new ≡ map.insert self.old name.now bytes.now) }
        ensures err { OnErr result (self.new ≡ self.old) }
    {
        let name = String::from_str(alloc, name)?;
        let bytes = bytes.to_vec(alloc)?;
        self.entries.insert(name, bytes)?;
        Ok(())
    }

    /// Takes a file out, where there is one of this name.
    pub fn remove(&mut self, name: &str)
        ensures { self.new ≡ map.remove self.old name.now }
    {
        self.entries.remove(name);
    }
}
