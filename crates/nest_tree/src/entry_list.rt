// What is kept of all elements beside the numbers behind their spans.

ghost use Rattle.std.specs.Prelude.{◌≡◌, ◌-◌, ◌<◌, ◌≤◌, ◌+◌, [], ◌∷◌, ◌++◌, length, take, get_or, slice_get, replicate, true, vec_len, vec_capacity, IfOk};
ghost use Rattle.std.specs.Prelude.{OnOk};
ghost use Rattle.nest_tree.specs.NestEntries.{KeptEntries, plain_entry};

use crate::knot::Knot;
use crate::nest_entry::NestEntry;
use std::alloc::{AllocError, Global};
use std::marker::Model;

// The entries of elements, in the order of the file. The first ones are only counted, as long as they are
// roots with nothing below them.
#[derive(Drop)]
pub(crate) struct EntryList {
    // How many of the first elements are such roots.
    plain: u32,
    // The entries of the others.
    rest: Vec<NestEntry>,
}

impl Model for EntryList {
    ghost Value = { KeptEntries };

    ghost view = { λ s. record { items = replicate s.plain plain_entry ++ s.rest.items; spare = vec_capacity s.rest - vec_len s.rest } };
}

// Whether that is the entry of a root with nothing below it.
fn is_plain(entry: NestEntry) -> bool
    ensures { result ≡ true → entry ≡ plain_entry }
{
    entry.parent().is_none() && entry.depth() == 0 && matches!(entry.knot(), Knot::Leaf)
}

// Puts an entry so many times last. There is room for it.
fn push_entries(entry: NestEntry, count: u32, list: &mut Vec<NestEntry>)
    requires { vec_len list.old + count ≤ vec_capacity list.old }
    ensures items { list.new.items ≡ list.old.items ++ replicate count entry }
    ensures keeps_room { vec_capacity list.old ≤ vec_capacity list.new }
{
    for _ in 0..count {
        list.push_reserved(entry);
    }
}

impl EntryList {
    // No entries, with room for so many.
    pub(crate) fn with_capacity(alloc: Global, count: usize) -> Result<EntryList, AllocError>
        ensures items { IfOk result (λ l. l.items ≡ []) }
        ensures has_room { IfOk result (λ l. count ≤ l.spare) }
    {
        let rest = Vec::with_capacity(alloc, count)?;
        Ok(EntryList { plain: 0, rest })
    }

    // How many there are.
    pub(crate) fn len(&self) -> usize
        requires { length self.now.items < 4294967296 }
        ensures { result ≡ length self.now.items }
    {
        self.plain as usize + self.rest.len()
    }

    // The entry of element `n`, where there is one.
    pub(crate) fn get(&self, n: u32) -> Option<NestEntry>
        ensures { result ≡ slice_get self.now.items n }
    {
        if n < self.plain {
            Some(NestEntry::new(None, 0, Knot::Leaf))
        } else {
            self.rest.get((n - self.plain) as usize).copied()
        }
    }

    // The entry of element `n`, which there is.
    pub(crate) fn at(&self, n: u32) -> NestEntry
        requires { n < length self.now.items }
        ensures { result ≡ get_or self.now.items n plain_entry }
    {
        match self.get(n) {
            Some(entry) => entry,
            None => unreachable!(),
        }
    }

    // Puts an entry last. There is room for it.
    pub(crate) fn push(&mut self, entry: NestEntry)
        requires has_room { 0 < self.old.spare }
        requires bounded { length self.old.items < 4294967295 }
        ensures items { self.new.items ≡ self.old.items ++ entry ∷ [] }
        ensures keeps_room { self.old.spare ≤ self.new.spare + 1 }
    {
        if self.rest.is_empty() && is_plain(entry) {
            self.plain += 1;
        } else {
            self.rest.push_reserved(entry);
        }
    }

    // Puts an entry so many times last. There is room for it.
    pub(crate) fn push_same(&mut self, entry: NestEntry, count: u32)
        requires has_room { count ≤ self.old.spare }
        requires bounded { length self.old.items + count < 4294967296 }
        ensures items { self.new.items ≡ self.old.items ++ replicate count entry }
        ensures keeps_room { self.old.spare ≤ self.new.spare + count }
    {
        if self.rest.is_empty() && is_plain(entry) {
            self.plain += count;
        } else {
            push_entries(entry, count, &mut self.rest);
        }
    }

    // Makes room for so many more. The entries stay, with every answer.
    pub(crate) fn reserve(&mut self, more: usize) -> Result<(), AllocError>
        ensures items { self.new.items ≡ self.old.items }
        ensures has_room { OnOk result (more ≤ self.new.spare) }

        // Room that there was is never given back.
        ensures keeps_room { self.old.spare ≤ self.new.spare }
    {
        self.rest.reserve(more)
    }

    // Keeps the first `count` ones.
    pub(crate) fn truncate(&mut self, count: u32)
        ensures items { self.new.items ≡ take count self.old.items }
        ensures keeps_room { self.old.spare ≤ self.new.spare }
    {
        self.plain = self.plain.min(count);
        self.rest.truncate((count - self.plain) as usize);
    }
}
