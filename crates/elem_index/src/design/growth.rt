// The kept offsets, bytes and totals follow a body that others have written to. Only `reserve_index` takes memory.

ghost use Rattle.std.specs.Prelude.{◌≡◌, ◌≤◌, ◌<◌, vec_len, vec_capacity, length, OnOk};
ghost use Rattle.elem_index.specs.Kinds.{kind_with, SaysTotal};
ghost use Rattle.elem_index.specs.Offsets.{offset_of};
ghost use Rattle.elem_index.specs.Design.{elements, kept_of, kinds_of, spare_of, IsWhole, HasGrown, HasShrunk, IsKeptAlso, SameText};

use super::Design;
use crate::beginning::size_said;
use crate::kind_byte::{kind_byte, total_said};
use std::alloc::AllocError;

impl Design {
    /// Makes room for what is kept of `n` more elements. With either answer all else is as before: the
    /// dimension, body and tail with their own room, and the kept offsets, bytes and totals.
    /// An error says that there was no memory.
    pub fn reserve_index(&mut self, n: u32) -> Result<(), AllocError>
        ensures spare { OnOk result (n ≤ spare_of self.new) }
        ensures kept { kept_of self.new ≡ kept_of self.old }
        ensures kinds { kinds_of self.new ≡ kinds_of self.old }
        ensures text { SameText self.old self.new }

        // Room that there was is never given back.
        ensures keeps_room { spare_of self.old ≤ spare_of self.new }
    {
        self.kept.reserve(n as usize)?;
        self.kinds.reserve(n as usize)
    }

    /// Makes the design whole where elements were put behind those whose offsets are kept: keeps
    /// offset, type, bit C and total of the new ones too. Body and tail have to open, and spare has to be enough for
    /// them. It takes no memory.
    pub fn grow(&mut self)
        requires { HasGrown self.old }
        ensures whole { IsWhole self.new }
        ensures text { SameText self.old self.new }
    {
        let mut at = self.kept_end();
        'elements: while at < self.body.len() {
            let (_, rest) = self.body.split_at(at);
            let size = size_said(rest);
            let byte = kind_byte(rest);
            let total = total_said(rest);
            self.keep(at as u32, byte, total);
            at += size;
        }
    }

    // The byte of the body behind the elements whose offsets are kept: the last of them says its size.
    fn kept_end(&self) -> usize
        requires { HasGrown self.now }
        ensures { result ≡ offset_of (elements self.now) (length (kept_of self.now)) }
    {
        let count = self.kept.len();
        if count == 0 {
            return 0;
        }
        let last = self.kept[count - 1] as usize;
        let (_, rest) = self.body.split_at(last);
        last + size_said(rest)
    }

    // Keeps offset, byte and total of one more element, for which there is room.
    fn keep(&mut self, at: u32, byte: u8, total: Option<u16>)
        requires has_room { vec_len self.old.kept < vec_capacity self.old.kept }
        requires kinds_room { 0 < self.old.kinds.spare }
        requires says { SaysTotal byte total }
        ensures kept { IsKeptAlso self.old self.new at (kind_with byte total) }
        ensures text { SameText self.old self.new }
    {
        match self.kept.push(at) {
            Ok(()) => {}
            Err(_) => unreachable!(),
        }
        match self.kinds.push(byte, total) {
            Ok(()) => {}
            Err(_) => unreachable!(),
        }
    }

    /// Makes the design whole where elements were cut off behind the first `count`, which are all that
    /// there are: forgets what is kept of the others. Body and tail have to open. It takes no memory.
    pub fn shrink(&mut self, count: u32)
        requires { HasShrunk count self.old }
        ensures whole { IsWhole self.new }
        ensures text { SameText self.old self.new }
    {
        self.kept.truncate(count as usize);
        self.kinds.truncate(count as usize);
    }
}
