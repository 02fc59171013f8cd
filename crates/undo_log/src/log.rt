// The log over one vector of entries.

ghost use Rattle.std.specs.Prelude.{◌≡◌, ◌↔◌, ◌+◌, ◌-◌, ◌≤◌, [], ◌∷◌, ◌++◌, length, reverse, true, false, vec_len, vec_capacity, IsFalse, OnOk};
ghost use Rattle.patch_bytes.specs.Puts.{write, AreWithin, AreApart};
ghost use Rattle.undo_log.specs.LogState.{LogState};
ghost use Rattle.undo_log.specs.Entries.{entry_of, NewestFits, IsUndone};

use crate::Entry;
use crate::swaps::swap_all;
use patch_bytes::{PatchList, write_back};
use std::alloc::{AllocError, Global};
use std::marker::Model;

/// The edits that were accepted and can be undone. A contract sees the list of entries, the oldest
/// first, and a number, spare: how many more entries there is room for.
#[derive(Debug, Drop)]
pub struct Log {
    kept: Vec<Entry>,
}

impl Model for Log {
    ghost Value = { LogState };

    ghost view = { λ l. record { entries = l.kept.items; spare = vec_capacity l.kept - vec_len l.kept } };
}

impl Log {
    /// A log without entries. It takes no memory.
    pub fn new(alloc: Global) -> Self
        ensures { result.entries ≡ [] }
    {
        Log {
            kept: Vec::new(alloc),
        }
    }

    /// Makes room for one more entry, and for `extra` more bytes in `buf`. Where there is no memory for
    /// it, entries and bytes are as before.
    pub fn reserve(&mut self, buf: &mut Vec<u8>, extra: usize) -> Result<(), AllocError>
        ensures entries { self.new.entries ≡ self.old.entries }
        ensures bytes { buf.new.items ≡ buf.old.items }
        ensures spare { OnOk result (1 ≤ self.new.spare) }
        ensures has_room { OnOk result (vec_len buf.new + extra ≤ vec_capacity buf.new) }

        // Room that there was is never given back.
        ensures keeps_room { self.old.spare ≤ self.new.spare }
        ensures wide { vec_capacity buf.old ≤ vec_capacity buf.new }
    {
        self.kept.reserve(1)?;
        buf.reserve(extra)
    }

    /// Writes `patches` into `buf`, puts `append` behind it, and adds the entry that takes both back:
    /// the bytes that stood where the patches wrote, and the length that `buf` had. It takes no memory.
    pub fn commit(&mut self, buf: &mut Vec<u8>, mut patches: PatchList, append: &[u8])
        requires spare { 1 ≤ self.old.spare }
        requires has_room { vec_len buf.old + length append.now ≤ vec_capacity buf.old }
        requires bounded { vec_len buf.old + length append.now ≤ 4294967295 }
        requires within { AreWithin (length buf.old.items) patches }
        requires apart { AreApart patches }
        ensures body { buf.new.items ≡ write buf.old.items patches ++ append.now }
        ensures entries { self.new.entries ≡ self.old.entries ++ entry_of buf.old.items patches ∷ [] }

        // No more than one entry's room is used.
        ensures spare { self.old.spare ≤ self.new.spare + 1 }
    {
        let len = buf.len() as u32;
        swap_all(buf, &mut patches);
        match buf.extend_from_slice(append) {
            Ok(()) => {}
            Err(_) => unreachable!(),
        }
        match self.kept.push(Entry { patches, len }) {
            Ok(()) => {}
            Err(_) => unreachable!(),
        }
    }

    /// Takes the last edit back: cuts `buf` to the length that it had, writes the old bytes back, the
    /// last first, and drops the entry. False exactly where there is no entry, and then nothing changes.
    /// It takes no memory.
    pub fn undo(&mut self, buf: &mut Vec<u8>) -> bool
        requires { NewestFits (length buf.old.items) (reverse self.old.entries) }
        ensures exactly { IsFalse result ↔ (self.old.entries ≡ []) }
        ensures undone { result ≡ true
            → IsUndone self.old.entries buf.old.items self.new.entries buf.new.items }
        ensures keeps_room { vec_capacity buf.new ≡ vec_capacity buf.old }
        ensures freed { result ≡ true → self.new.spare ≡ self.old.spare + 1 }
        ensures kept { result ≡ false → self.new ≡ self.old }
        ensures same { result ≡ false → buf.new ≡ buf.old }
    {
        match self.kept.pop() {
            Some(entry) => {
                buf.truncate(entry.len as usize);
                write_back(buf, entry.patches.as_slice());
                true
            }
            None => false,
        }
    }

    /// The entries, the oldest first.
    pub fn entries(&self) -> &[Entry]
        ensures { result.now ≡ self.now.entries }
    {
        self.kept.as_slice()
    }
}
