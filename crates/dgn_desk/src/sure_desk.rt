ghost use Rattle.std.specs.Prelude.{◌≡◌, ◌≤◌, [], length, take, Some, IfOk, OnOk, OnErr, true, false};
ghost use Rattle.std.proofs.Common.{rules};
ghost use Rattle.std.specs.Option.{option_copied};
ghost use Rattle.std.specs.FinMap as maps;
ghost use Rattle.dgn_desk.specs.Content.{all_said, with_file, opened, consumed, filed, written, spoken};
ghost use Rattle.dgn_desk.specs.Desk.{Changes, TakesFirst, TakesSome, DoesNotFail};

use crate::file_map::FileMap;
use crate::{Desk, Stop};
use std::alloc::{AllocError, Global};
use std::marker::Model;

/// A desk of memory that never fails and is always willing: it can only want memory.
///
/// A name that isn't there reads as an empty file, and writes go to the file of the empty name until
/// one is begun. `read`, `write` and `say` move at most as many bytes at once as it is made with.
#[derive(Drop)]
pub struct SureDesk {
    alloc: Global,
    piece: usize,
    files: FileMap,
    reading: Vec<u8>,
    at: usize,
    target: String,
    said: Vec<u8>,
    // How many bytes had been said when a file was last begun.
    settled: usize,
}

impl Model for SureDesk {
    ghost use Rattle.std.specs.Prelude.{◌≤◌, Some, take, drop, vec_len, string_bytes};
    ghost use Rattle.dgn_desk.specs.PieceDesk.{PieceDesk, coded_pieces};

    ghost Value = { PieceDesk };

    ghost coded = { coded_pieces };

    ghost view = { λ d. record {
      content = record {
        files = d.files;
        left = drop d.at d.reading.items;
        target = Some (string_bytes d.target);
        settled = take d.settled d.said.items;
        since = drop d.settled d.said.items;
      };
      piece = d.piece;
    } };

    ghost invariant = { λ d. (d.at ≤ vec_len d.reading) × (1 ≤ d.piece) × (d.settled ≤ vec_len d.said) };
}

impl SureDesk {
    /// A desk that holds no files, has nothing left to read and has said nothing. It moves at most
    /// `piece` bytes at once.
    pub fn new(alloc: Global, piece: usize) -> SureDesk
        requires { 1 ≤ piece }
        ensures { result ≡ record {
          content = record { files = maps.empty; left = []; target = Some []; settled = []; since = [] };
          piece = piece;
        } }
    {
        SureDesk {
            alloc,
            piece,
            files: FileMap::new(alloc),
            reading: Vec::new(alloc),
            at: 0,
            target: String::new(alloc),
            said: Vec::new(alloc),
            settled: 0,
        }
    }

    /// Sets a file. A reading of it that was begun goes on over its former bytes. An error says that there was no memory.
    pub fn add(&mut self, name: &str, bytes: Vec<u8>) -> Result<(), AllocError>
        ensures ok { OnOk result (self.new ≡ record self.old {
          content = record self.old.content {
            files = with_file name.now bytes.items self.old.content.files;
          };
        }) }
        ensures err { OnErr result (self.new ≡ self.old) }
    {
        self.files.set(name, bytes)
    }

    /// The bytes of a file. None exactly where it isn't there.
    pub fn file(&self, name: &str) -> Option<&[u8]>
        ensures { option_copied result ≡ maps.get self.now.content.files name.now }
    {
        self.files.get(name)
    }

    /// All that was said.
    pub fn said(&self) -> &[u8]
        ensures { result.now ≡ all_said self.now.content }
    {
        self.said.as_slice()
    }
}

impl Desk for SureDesk {
    ghost read_faults = { λ _. 0 };

    ghost write_faults = { λ _. 0 };

    ghost content = { λ d. Some d.content };

    ghost willing = { λ _. true };

    ghost strict = { false };

    ghost tells = { Prim.search rules };

    fn begin_read(&mut self, name: &str) -> Result<(), Stop>
        ensures changes { Changes result (λ _. opened name.now) (Some self.old.content) (Some self.new.content) }
        ensures never_fails { DoesNotFail result }
        ensures piece { self.new.piece ≡ self.old.piece }
    {
        let bytes = self.files.get(name).unwrap_or(&[]);
        self.reading = Vec::from_slice(self.alloc, bytes)?;
        self.at = 0;
        Ok(())
    }

    fn read(&mut self, buf: &mut [u8]) -> Result<usize, Stop>
        ensures within { IfOk result (λ count. count ≤ length buf.new) }
        ensures bytes { IfOk result (λ count. TakesFirst self.old.content.left buf.new count) }
        ensures changes { Changes result consumed (Some self.old.content) (Some self.new.content) }
        ensures never_fails { DoesNotFail result }
        ensures bounded { IfOk result (λ count. count ≤ self.old.piece) }
        ensures piece { self.new.piece ≡ self.old.piece }
    {
        let (_, left) = self.reading.as_slice().split_at(self.at);
        let count = left.len().min(buf.len()).min(self.piece);
        let (front, _) = left.split_at(count);
        buf[..count].copy_from_slice(front);
        self.at += count;
        Ok(count)
    }

    fn begin_write(&mut self, name: &str) -> Result<(), Stop>
        ensures changes { Changes result (λ _. filed name.now []) (Some self.old.content) (Some self.new.content) }
        ensures never_fails { DoesNotFail result }
        ensures piece { self.new.piece ≡ self.old.piece }
    {
        let target = String::from_str(self.alloc, name)?;
        self.files.set(name, Vec::new(self.alloc))?;
        self.target = target;
        self.settled = self.said.len();
        Ok(())
    }

    fn write(&mut self, bytes: &[u8]) -> Result<usize, Stop>
        ensures taken { IfOk result (TakesSome bytes.now) }
        ensures changes { Changes result (λ count. written (take count bytes.now)) (Some self.old.content) (Some self.new.content) }
        ensures never_fails { DoesNotFail result }
        ensures bounded { IfOk result (λ count. count ≤ self.old.piece) }
        ensures piece { self.new.piece ≡ self.old.piece }
    {
        let count = bytes.len().min(self.piece);
        let (front, _) = bytes.split_at(count);
        self.files.append(self.target.as_str(), front)?;
        Ok(count)
    }

    fn say(&mut self, bytes: &[u8]) -> Result<usize, Stop>
        ensures taken { IfOk result (TakesSome bytes.now) }
        ensures changes { Changes result (λ count. spoken (take count bytes.now)) (Some self.old.content) (Some self.new.content) }
        ensures never_fails { DoesNotFail result }
        ensures bounded { IfOk result (λ count. count ≤ self.old.piece) }
        ensures piece { self.new.piece ≡ self.old.piece }
    {
        let count = bytes.len().min(self.piece);
        let (front, _) = bytes.split_at(count);
        self.said.extend_from_slice(front)?;
        Ok(count)
    }
}
