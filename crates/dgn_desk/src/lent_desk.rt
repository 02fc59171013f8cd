ghost use Rattle.std.specs.Prelude.{◌≡◌, [], None, Some, Err, OnOk, IsTrue, true};
ghost use Rattle.std.proofs.Common.{rules};
ghost use Rattle.std.specs.Option.{option_copied};
ghost use Rattle.std.specs.FinMap as maps;
ghost use Rattle.dgn_desk.specs.Content.{all_said, HasFile, opened};
ghost use Rattle.dgn_desk.specs.Desk.{Counts, Changes, DoesNotFail};
ghost use Rattle.dgn_desk.specs.LentDesk.{lent_files};

use crate::failing::failed;
use crate::file_map::FileMap;
use crate::lent_file::LentFile;
use crate::{Desk, Stop};
use std::alloc::Global;
use std::marker::Model;

/// A desk of memory that reads from files that are lent to it, without a copy, and keeps what is written and said.
///
/// It is always willing: a call fails only where a file that isn't there is to be read, and else it can only want memory.
/// Of two files of one name the first counts, and one that was written counts before any that is lent. What is written
/// before a file is begun goes nowhere.
#[derive(Drop)]
pub struct LentDesk<'a> {
    alloc: Global,
    lent: &'a [LentFile<'a>],
    written: FileMap,
    // What is left to read: of a file that was written, from `at` on, and then of one that is lent.
    copied: Vec<u8>,
    at: usize,
    left: &'a [u8],
    target: Option<String>,
    said: Vec<u8>,
    // How many bytes had been said when a file was last begun.
    settled: usize,
    read_faults: u64,
}

impl<'a> Model for LentDesk<'a> {
    ghost use Rattle.std.specs.Prelude.{◌≤◌, ◌++◌, take, drop, vec_len, string_bytes, option_map};
    ghost use Rattle.dgn_desk.specs.LentDesk.{LentDesk, coded_lent, over, IsBegun};

    ghost Value = { LentDesk };

    ghost coded = { coded_lent };

    ghost view = { λ d. record {
      content = record {
        files = over d.written d.lent.now;
        left = drop d.at d.copied.items ++ d.left.now;
        target = option_map string_bytes d.target;
        settled = take d.settled d.said.items;
        since = drop d.settled d.said.items;
      };
      read_faults = d.read_faults;
    } };

    ghost invariant = { λ d. (d.at ≤ vec_len d.copied) × IsBegun (option_map string_bytes d.target) d.written
        × (d.settled ≤ vec_len d.said) };
}

impl<'a> LentDesk<'a> {
    /// A desk over these files, which has nothing left to read, has said nothing and counted no fault.
    #[tactic(auto, using(crate::proofs::LentFiles::over_empty))]
    pub fn new(alloc: Global, lent: &'a [LentFile<'a>]) -> LentDesk<'a>
        ensures { result ≡ record {
          content = record { files = lent_files lent.now; left = []; target = None; settled = []; since = [] };
          read_faults = 0;
        } }
    {
        LentDesk {
            alloc,
            lent,
            written: FileMap::new(alloc),
            copied: Vec::new(alloc),
            at: 0,
            left: &[],
            target: None,
            said: Vec::new(alloc),
            settled: 0,
            read_faults: 0,
        }
    }

    /// The bytes of a file: of one that was written, or else of one that is lent. None exactly where it isn't there.
    pub fn file(&self, name: &str) -> Option<&[u8]>
        ensures { option_copied result ≡ maps.get self.now.content.files name.now }
    {
        match self.written.get(name) {
            Some(bytes) => Some(bytes),
            None => find(self.lent, name.as_bytes()),
        }
    }

    /// All that was said.
    pub fn said(&self) -> &[u8]
        ensures { result.now ≡ all_said self.now.content }
    {
        self.said.as_slice()
    }
}

impl<'a> Desk for LentDesk<'a> {
    ghost read_faults = { λ d. d.read_faults };

    ghost write_faults = { λ _. 0 };

    ghost content = { λ d. Some d.content };

    ghost willing = { λ _. true };

    ghost strict = { true };

    ghost tells = { Prim.search rules };

    fn begin_read(&mut self, name: &str) -> Result<(), Stop>
        ensures cause { Counts self.old.read_faults self.new.read_faults result }
        ensures changes { Changes result (λ _. opened name.now) (Some self.old.content) (Some self.new.content) }
        ensures never_fails { HasFile name.now (Some self.old.content) → DoesNotFail result }
        ensures found { OnOk result (IsTrue true → HasFile name.now (Some self.old.content)) }
        ensures absent { maps.get self.old.content.files name.now ≡ None → result ≡ Err Stop.Failed }
    {
        match self.written.get(name) {
            Some(bytes) => {
                self.copied = Vec::from_slice(self.alloc, bytes)?;
                self.at = 0;
                self.left = &[];
                Ok(())
            }
            None => match find(self.lent, name.as_bytes()) {
                Some(bytes) => {
                    self.copied = Vec::new(self.alloc);
                    self.at = 0;
                    self.left = bytes;
                    Ok(())
                }
                None => failed(&mut self.read_faults),
            },
        }
    }

    fn read(&mut self, buf: &mut [u8]) -> Result<usize, Stop> {
        let (_, copied) = self.copied.as_slice().split_at(self.at);
        if copied.is_empty() {
            let count = self.left.len().min(buf.len());
            let (front, rest) = self.left.split_at(count);
            buf[..count].copy_from_slice(front);
            self.left = rest;
            return Ok(count);
        }
        let count = copied.len().min(buf.len());
        let (front, _) = copied.split_at(count);
        buf[..count].copy_from_slice(front);
        self.at += count;
        Ok(count)
    }

    #[tactic(auto, using(crate::proofs::LentFiles::over_with_file, crate::proofs::LentFiles::there_set))]
    fn begin_write(&mut self, name: &str) -> Result<(), Stop> {
        let target = String::from_str(self.alloc, name)?;
        self.written.set(name, Vec::new(self.alloc))?;
        self.target = Some(target);
        self.settled = self.said.len();
        Ok(())
    }

    #[tactic(auto, using(crate::proofs::LentFiles::over_with_file, crate::proofs::LentFiles::there_set, crate::proofs::LentFiles::bytes_of_over_written))]
    fn write(&mut self, bytes: &[u8]) -> Result<usize, Stop> {
        if let Some(target) = &self.target {
            self.written.append(target.as_str(), bytes)?;
        }
        Ok(bytes.len())
    }

    fn say(&mut self, bytes: &[u8]) -> Result<usize, Stop> {
        self.said.extend_from_slice(bytes)?;
        Ok(bytes.len())
    }
}

// The bytes of the first file of this name.
fn find<'a>(lent: &'a [LentFile<'a>], name: &[u8]) -> Option<&'a [u8]>
    ensures { option_copied result ≡ maps.get (lent_files lent.now) name.now }
{
    for file in lent {
        if name == file.name {
            return Some(file.bytes);
        }
    }
    None
}
