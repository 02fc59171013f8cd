// What is kept of each element beside its offset.

ghost use Rattle.std.specs.Prelude.{◌≡◌, ◌≤◌, ◌+◌, [], ◌∷◌, ◌++◌, map, take, drop, length, IsTrue, OnOk, OnErr};
ghost use Rattle.elem_index.specs.Kinds.{Kind, has_total, total_count, totals_kept, kind_with, SaysTotal};

use dgn_drawing::is_counted;
use std::alloc::{AllocError, Global};
use std::marker::Model;

// Type and bit C of each element in a byte, and the total of each that counts its members. Most count none, so the
// totals stand apart, in file order. A contract sees a list of byte and total, and for how many more there is room.
#[derive(Drop)]
pub(crate) struct KindList {
    // The type of each element, and 128 more where it has bit C.
    kinds: Vec<u8>,
    // The total of each whose type counts its members.
    totals: Vec<u16>,
}

impl Model for KindList {
    ghost use Rattle.std.specs.Prelude.{◌≡◌, ◌-◌, min, length, vec_len, vec_capacity};
    ghost use Rattle.elem_index.specs.Kinds.{Kinds, kinds_by, total_count};

    ghost Value = { Kinds };

    ghost view = { λ l. record {
      items = kinds_by l.kinds.items l.totals.items;
      spare = min (vec_capacity l.kinds - vec_len l.kinds) (vec_capacity l.totals - vec_len l.totals);
    } };

    ghost invariant = { λ l. length l.totals.items ≡ total_count l.kinds.items };
}

impl KindList {
    // One of no elements. It takes no memory.
    pub(crate) fn new(alloc: Global) -> KindList
        ensures { result.items ≡ [] }
    {
        KindList {
            kinds: Vec::new(alloc),
            totals: Vec::new(alloc),
        }
    }

    // Keeps byte and total of one more element. Where there is no memory for it, the list stays as it was.
    #[inline(always)]
    pub(crate) fn push(&mut self, byte: u8, total: Option<u16>) -> Result<(), AllocError>
        requires { SaysTotal byte total }
        ensures ok { OnOk result (self.new.items ≡ self.old.items ++ kind_with byte total ∷ []) }
        ensures err { OnErr result (self.new.items ≡ self.old.items) }
        ensures full { OnErr result (self.old.spare ≡ 0) }
        ensures spare { self.old.spare ≤ self.new.spare + 1 }
    {
        match total {
            Some(total) => self.push_counted(byte, total),
            None => {
                self.kinds.push(byte)?;
                Ok(())
            }
        }
    }

    // The same where the type counts its members. There is room for the total before the byte is kept.
    fn push_counted(&mut self, byte: u8, total: u16) -> Result<(), AllocError>
        requires { IsTrue (has_total byte) }
        ensures ok { OnOk result (self.new.items ≡ self.old.items ++ record { byte = byte; total = total } ∷ []) }
        ensures err { OnErr result (self.new.items ≡ self.old.items) }
        ensures full { OnErr result (self.old.spare ≡ 0) }
        ensures spare { self.old.spare ≤ self.new.spare + 1 }
    {
        self.totals.reserve(1)?;
        self.kinds.push(byte)?;
        self.totals.push_reserved(total);
        Ok(())
    }

    // Makes room for what is kept of `n` more elements. With either answer the list is as before.
    pub(crate) fn reserve(&mut self, n: usize) -> Result<(), AllocError>
        ensures spare { OnOk result (n ≤ self.new.spare) }
        ensures items { self.new.items ≡ self.old.items }
        ensures keeps_room { self.old.spare ≤ self.new.spare }
    {
        self.kinds.reserve(n)?;
        self.totals.reserve(n)
    }

    // Forgets what is kept of all but the first `count` elements. It looks at no more than is forgotten.
    pub(crate) fn truncate(&mut self, count: usize)
        ensures { self.new.items ≡ take count self.old.items }
    {
        if count < self.kinds.len() {
            let (_, cut) = self.kinds.split_at(count);
            let totals = self.totals.len() - count_totals(cut);
            self.totals.truncate(totals);
            self.kinds.truncate(count);
        }
    }

    // Type and bit C of each element.
    #[inline(always)]
    pub(crate) fn bytes(&self) -> &[u8]
        ensures { result.now ≡ map (λ kind. kind.byte) self.now.items }
    {
        self.kinds.as_slice()
    }

    // The total of each element that counts its members.
    #[inline(always)]
    pub(crate) fn totals(&self) -> &[u16]
        ensures { result.now ≡ totals_kept self.now.items }
    {
        self.totals.as_slice()
    }
}

// How many of the bytes say a type that counts its members.
fn count_totals(bytes: &[u8]) -> usize
    ensures { result ≡ total_count bytes.now }
{
    let mut count = 0;
    for byte in bytes {
        if is_counted(byte % 128) {
            count += 1;
        }
    }
    count
}
