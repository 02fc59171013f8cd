// A pass over rows, one behind the other, which finds the place of each element, and which ones are broken.

ghost use Rattle.std.specs.Prelude.{◌≡◌, ◌<◌, ◌≤◌, ◌+◌, ◌-◌, length, slice_get, option_map, is_none, true, Some, IfSome, vec_len, vec_capacity};
ghost use Rattle.nest_tree.specs.Read.{AreRead, HaveRoom};
ghost use Rattle.nest_tree.specs.Pass.{all_rows, IsPass, IsReading, IsInnermost, GoesOn};
ghost use Rattle.nest_tree.specs.Places.{Going, parent_in, list_in, list_around};
ghost use Rattle.nest_tree.specs.Shapes.{code_shape, rows_between, shape_in};
ghost use Rattle.nest_tree.specs.Sources.{rows_of, AreLeaves};

use crate::broken::add_if_broken;
use crate::knot::Knot;
use crate::leaves::{leaf_run, push_numbers, push_orphans};
use crate::nest_entry::NestEntry;
use crate::open_list::{OpenList, all_elements, scope_below};
use crate::placed::Placed;
use crate::scan::Scan;
use crate::seen::SeenRows;
use crate::shape::{Shape, shape_at};
use crate::source::Source;

// Where a pass over rows stands.
#[derive(Clone, Copy, Drop)]
pub(crate) struct Pass<'a> {
    // The rows of all elements, which contracts alone see.
    pub(crate) seen: &'a SeenRows,
    // The rows that are read, those from number `first` on.
    pub(crate) source: Source<'a>,
    pub(crate) first: usize,
    // The number of the element that is read next.
    pub(crate) at: usize,
    // A list that it stands in, or behind.
    pub(crate) list: OpenList,
    // What is known of the rows where it is read.
    pub(crate) scan: Scan,
}

impl Pass<'_> {
    // Reads the next element, or the leaves that stand there one behind the other.
    pub(crate) fn step(&mut self, kept: &mut Placed)
        requires reading { IsReading self.old kept.old }
        requires known { self.old.at < length (all_rows self.old) }
        ensures { GoesOn self.old self.new kept.new }
    {
        let around = self.innermost(kept);
        let roots = around.parent.is_none();
        let orphans = roots && self.source.cbit(self.at - self.first);
        let end = around.end as usize - self.first;
        let leaves = leaf_run(&self.source, self.at - self.first, end, roots, orphans);
        if leaves == 0 {
            self.put_next(around, kept);
        } else {
            self.put_leaves(around, leaves, orphans, kept);
        }
    }

    // The innermost list that the next element stands in.
    fn innermost(&self, kept: &Placed) -> OpenList
        requires reading { IsReading self.now kept.now }
        requires known { self.now.at < length (all_rows self.now) }
        ensures { IsInnermost self.now result }
    {
        let mut list = self.list;
        while list.end as usize <= self.at {
            match list.parent {
                Some(header) => list = self.list_around(kept, header),
                None => unreachable!(),
            }
        }
        list
    }

    // The list that element `n` stands in, which has been read, and no header above which stands before the rows.
    fn list_around(&self, kept: &Placed, n: u32) -> OpenList
        requires reading { IsReading self.now kept.now }
        requires known { n < self.now.at }
        requires above { IfSome (parent_in (all_rows self.now) n) (λ p. (p < self.now.at) × (self.now.first ≤ p)) }
        ensures { result ≡ list_around (all_rows self.now) n }
    {
        let entry = kept.entries.at(n);
        match entry.parent() {
            None => all_elements(self.seen, self.first + self.source.len()),
            Some(parent) => self.list_below(kept, parent, entry.depth()),
        }
    }

    // The list of the elements at that depth below element `header`, which is one of those whose rows are read.
    fn list_below(&self, kept: &Placed, header: u32, depth: u32) -> OpenList
        requires reading { IsReading self.now kept.now }
        requires known { (header < self.now.at) × (self.now.first ≤ header) }
        ensures { result ≡ list_in (all_rows self.now) (Some header) depth }
    {
        let n = header as usize;
        OpenList {
            scope: scope_below(
                kept.entries.at(header).knot(),
                self.source.kind(n - self.first),
            ),
            end: kept.ends[n],
            depth,
            parent: Some(header),
        }
    }

    // Reads the next element of that list.
    fn put_next(&mut self, around: OpenList, kept: &mut Placed)
        requires reading { IsReading self.old kept.old }
        requires here { IsInnermost self.old around }
        ensures { GoesOn self.old self.new kept.new }
    {
        let at = self.at - self.first;
        let end = around.end as usize - self.first;
        let cbit = self.source.cbit(at);
        let mut scan = self.scan;
        let shape = shape_at(&self.source, around.scope, at, end, &mut scan);
        self.place_next(around, shape, cbit, kept);
        self.list = self.list_behind(around, shape);
        self.scan = scan;
        self.at += 1;
    }

    // Puts what is kept of the next element behind what is kept of those before it.
    #[inline(always)]
    fn place_next(&self, around: OpenList, shape: Shape, cbit: bool, kept: &mut Placed)
        requires reading { IsReading self.now kept.old }
        requires here { IsInnermost self.now around }
        requires shape { shape ≡ code_shape (shape_in around.scope (rows_between (all_rows self.now) self.now.at around.end)) }
        requires row { Some cbit ≡ option_map (λ r. r.cbit) (slice_get (all_rows self.now) self.now.at) }
        ensures read { AreRead (all_rows self.now) (self.now.at + 1) kept.new.ends.items kept.new.entries.items kept.new.broken.items }
        ensures keeps_room { HaveRoom (length (all_rows self.now) - (self.now.at + 1)) (vec_capacity kept.new.ends - vec_len kept.new.ends)
            kept.new.entries.spare (vec_capacity kept.new.broken - vec_len kept.new.broken) }
    {
        let end = self.at + 1 + shape.count;
        kept.ends.push_reserved(end as u32);
        let entry = NestEntry::new(around.parent, around.depth, shape.knot);
        kept.entries.push(entry);
        add_if_broken(self.seen, self.at as u32, entry, cbit, &mut kept.broken);
    }

    // The list that is read behind the next element of a list. Where that has nothing below it, no list is entered.
    fn list_behind(&self, around: OpenList, shape: Shape) -> OpenList
        requires pass { IsPass self.now }
        requires here { IsInnermost self.now around }
        requires shape { shape ≡ code_shape (shape_in around.scope (rows_between (all_rows self.now) self.now.at around.end)) }
        ensures going { Going (all_rows self.now) (self.now.at + 1) result }
        ensures header { IfSome result.parent (λ q. self.now.first ≤ q) }
    {
        if shape.count == 0 {
            return around;
        }
        OpenList {
            scope: shape.inside,
            end: (self.at + 1 + shape.count) as u32,
            depth: around.depth + 1,
            parent: Some(self.at as u32),
        }
    }

    // Reads so many elements of that list that are leaves, all of them broken, as orphans, or none of them.
    fn put_leaves(&mut self, around: OpenList, count: usize, orphans: bool, kept: &mut Placed)
        requires reading { IsReading self.old kept.old }
        requires here { IsInnermost self.old around }
        requires some { (0 < count) × (self.old.at + count ≤ around.end) }
        requires leaves { AreLeaves (is_none around.parent) orphans (rows_of self.old.source) (self.old.at - self.old.first)
            (self.old.at - self.old.first + count) }
        requires roots { orphans ≡ true → is_none around.parent ≡ true }
        ensures { GoesOn self.old self.new kept.new }
    {
        let at = self.at as u32;
        push_numbers(at + 1, count as u32, &mut kept.ends);
        kept.entries.push_same(
            NestEntry::new(around.parent, around.depth, Knot::Leaf),
            count as u32,
        );
        push_orphans(orphans, at, count as u32, &mut kept.broken);
        self.list = around;
        self.at += count;
    }
}
