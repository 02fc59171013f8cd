ghost use Rattle.std.specs.Prelude.{◌≡◌, ◌++◌, OnOk, OnErr};
ghost use Rattle.std.specs.Option.{option_copied};
ghost use Rattle.std.specs.FinMap as maps;
ghost use Rattle.dgn_desk.specs.Content.{bytes_of, with_file};

use std::alloc::{AllocError, Global};
use std::collections::BTreeMap;
use std::marker::Model;

// Files in memory, by name.
#[derive(Drop)]
pub(crate) struct FileMap {
    alloc: Global,
    kept: BTreeMap<String, Vec<u8>>,
}

impl Model for FileMap {
    ghost use Rattle.std.specs.Coded.{coded_ℕ, coded_list};
    ghost use Rattle.std.specs.FinMap as maps;
    ghost use Rattle.dgn_desk.specs.Content.{Files};
    ghost use Rattle.dgn_desk.specs.FileMap.{files_of};

    ghost Value = { Files };

    ghost coded = { maps.code (coded_list coded_ℕ) (coded_list coded_ℕ) };

    ghost view = { λ m. files_of m.kept.entries };
}

impl FileMap {
    // No files.
    pub(crate) fn new(alloc: Global) -> FileMap
        ensures { result ≡ maps.empty }
    {
        FileMap {
            alloc,
            kept: BTreeMap::new(alloc),
        }
    }

    // The bytes of a file. None where it isn't there.
    pub(crate) fn get(&self, name: &str) -> Option<&[u8]>
        ensures { option_copied result ≡ maps.get self.now name.now }
    {
        match self.kept.get(name) {
            Some(bytes) => Some(bytes.as_slice()),
            None => None,
        }
    }

    // Sets a file.
    pub(crate) fn set(&mut self, name: &str, bytes: Vec<u8>) -> Result<(), AllocError>
        ensures ok { OnOk result (self.new ≡ with_file name.now bytes.items self.old) }
        ensures err { OnErr result (self.new ≡ self.old) }
    {
        let key = String::from_str(self.alloc, name)?;
        self.kept.insert(key, bytes)?;
        Ok(())
    }

    // Appends to a file, which counts as empty where it isn't there.
    pub(crate) fn append(&mut self, name: &str, bytes: &[u8]) -> Result<(), AllocError>
        ensures ok { OnOk result (self.new ≡ with_file name.now (bytes_of self.old name.now ++ bytes.now) self.old) }
        ensures err { OnErr result (self.new ≡ self.old) }
    {
        match self.kept.get_mut(name) {
            Some(kept) => kept.extend_from_slice(bytes),
            None => {
                let bytes = Vec::from_slice(self.alloc, bytes)?;
                self.set(name, bytes)
            }
        }
    }
}
