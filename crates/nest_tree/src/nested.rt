ghost use Rattle.std.specs.Prelude.{◌≡◌, ◌≤◌, ◌<◌, ◌+◌, ◌-◌, ◌++◌, ◌↔◌, nat_lt, length, take, drop, map, slice_get, option_map, vec_len, vec_capacity};
ghost use Rattle.std.specs.Prelude.{IsNone, IfSome, OnOk};
ghost use Rattle.std.specs.List.{AllByRecursion};
ghost use Rattle.nest_tree.specs.Depths.{IsSized, IsWordTotal};
ghost use Rattle.dgn_drawing.specs.Nesting.{BeginsFree, itself};
ghost use Rattle.dgn_drawing.specs.Numbering.{span_of, depth_of, parent_of, knot_of, root_of, first_broken_of};
ghost use Rattle.nest_tree.specs.Shapes.{code_knot, IsRow};
ghost use Rattle.nest_tree.specs.Places.{marks_in, entry_of, end_of_mark};
ghost use Rattle.nest_tree.specs.Passing.{broken_in, first_at, if_below};
ghost use Rattle.nest_tree.specs.Nested.{Nested, nested_of, IsNest};

use crate::broken::cut_broken;
use crate::knot::Knot;
use crate::nest_entry::NestEntry;
use crate::placed::Placed;
use crate::reading::read_on;
use crate::seen::{SeenRows, Step};
use crate::source::Source;
use crate::sums::set_sums;
use dgn_drawing::Row;
use std::alloc::AllocError;
use std::marker::Model;

// For how many sums room is kept where more rows were read at once, as those of a tree of very many elements are.
const KEPT_SUMS: usize = 8192;

/// The elements of a drawing as trees.
#[derive(Drop)]
pub struct Nest {
    // The rows of all elements, which contracts alone see.
    pub(crate) seen: SeenRows,
    // Room for the sums of the rows that are being read. It holds nothing between calls, and what they took of it is given
    // back where they were very many.
    pub(crate) sums: Vec<u64>,
    // What is kept of each element.
    pub(crate) placed: Placed,
}

impl Model for Nest {
    ghost Value = { Nested };

    ghost view = { λ s. nested_of s.seen.list (vec_capacity s.sums - 1) (vec_capacity s.placed.ends - vec_len s.placed.ends)
        s.placed.entries.spare (vec_capacity s.placed.broken - vec_len s.placed.broken) };

    ghost invariant = { λ s. IsNest s.seen.list s.placed.ends.items s.placed.entries.items s.placed.broken.items };
}

// What stands at place `n` of a list.
fn item_at<T: Copy>(list: &[T], n: usize) -> Option<T>
    ensures { result ≡ slice_get list.now n }
{
    list.get(n).copied()
}

// That number, where it is below `end`.
fn if_below(number: Option<u32>, end: u32) -> Option<u32>
    ensures { result ≡ if_below end number }
{
    match number {
        Some(m) if m < end => Some(m),
        _ => None,
    }
}

impl Nest {
    /// Makes room for at least `n` more elements. All else stays as it is, with every answer.
    /// An error says that there was no memory.
    pub fn reserve(&mut self, n: u32) -> Result<(), AllocError>
        ensures rows { self.new.rows ≡ self.old.rows }
        ensures has_room { OnOk result (n ≤ self.new.spare) }

        // Room that there was is never given back.
        ensures keeps_room { self.old.spare ≤ self.new.spare }
    {
        let more = n as usize;
        self.sums.reserve(more + 1)?;
        self.placed.entries.reserve(more)?;
        self.placed.broken.reserve(more)?;
        self.placed.ends.reserve(more)
    }

    /// Adds the elements with these rows behind the others, of which they nest apart, since the first of
    /// them has no bit C. It takes no memory.
    pub fn grow(&mut self, rows: &[Row])
        requires has_room { length rows.now ≤ self.old.spare }
        requires bounded { length self.old.rows + length rows.now < 4294967295 }
        requires each { AllByRecursion IsRow rows.now }
        requires free { BeginsFree itself rows.now }
        ensures { self.new.rows ≡ self.old.rows ++ rows.now }
    {
        // Without rows there may be no room for their sums, of which there is one more.
        if rows.is_empty() {
            return;
        }
        let seen = self.seen.then(&Step::Behind(rows));
        set_sums(rows, &mut self.sums);
        read_on(&seen, &Source::Listed(rows, &self.sums), &mut self.placed);
        self.sums.clear();
        self.sums.shrink_to(KEPT_SUMS);
        self.seen = seen;
    }

    /// Keeps the first `count` elements. The others nest apart from them, since the first of these has
    /// no bit C. It takes no memory.
    pub fn shrink(&mut self, count: u32)
        requires positive { 1 ≤ count }
        requires free { BeginsFree itself (drop count self.old.rows) }
        ensures { self.new.rows ≡ take count self.old.rows }
    {
        let kept = count as usize;
        self.seen = self.seen.then(&Step::First(count));
        self.placed.ends.truncate(kept);
        self.placed.entries.truncate(count);
        cut_broken(&mut self.placed.broken, count);
    }

    /// For each element, in the order of the file, the number behind the last element below it.
    pub fn ends(&self) -> &[u32]
        ensures { result.now ≡ map end_of_mark (marks_in self.now.rows) }
    {
        &self.placed.ends
    }

    // What is kept of element `n`, where there is one.
    fn entry(&self, n: u32) -> Option<NestEntry>
        ensures entry { result ≡ option_map entry_of (slice_get (marks_in self.now.rows) n) }
        ensures words { AllByRecursion IsWordTotal self.now.rows }
    {
        self.placed.entries.get(n)
    }

    // The number behind the last element below element `n`, where there is one.
    fn end(&self, n: u32) -> Option<u32>
        ensures { result ≡ option_map end_of_mark (slice_get (marks_in self.now.rows) n) }
    {
        item_at(&self.placed.ends, n as usize)
    }

    /// The span of element `n`: its number, and the number behind the last element below it. None
    /// exactly for an unknown number.
    pub fn span(&self, n: u32) -> Option<(u32, u32)>
        ensures none { IsNone result ↔ (length self.now.rows ≤ n) }
        ensures span { result ≡ span_of itself self.now.rows n }
    {
        let end = self.end(n)?;
        Some((n, end))
    }

    /// How many headers lie above element `n`. None exactly for an unknown number.
    pub fn depth(&self, n: u32) -> Option<u32>
        ensures none { IsNone result ↔ (length self.now.rows ≤ n) }
        ensures depth { result ≡ depth_of itself self.now.rows n }
        ensures low { AllByRecursion IsSized self.now.rows → IfSome result (λ d. d ≤ 3278) }
    {
        let entry = self.entry(n)?;
        Some(entry.depth())
    }

    /// The number of the header that element `n` stands below; None within for a root. None exactly for
    /// an unknown number.
    pub fn parent(&self, n: u32) -> Option<Option<u32>>
        ensures none { IsNone result ↔ (length self.now.rows ≤ n) }
        ensures parent { result ≡ parent_of itself self.now.rows n }
    {
        let entry = self.entry(n)?;
        Some(entry.parent())
    }

    /// The root of the tree that holds element `n`. None exactly for an unknown number.
    pub fn root(&self, n: u32) -> Option<u32>
        ensures none { IsNone result ↔ (length self.now.rows ≤ n) }
        ensures root { result ≡ root_of itself self.now.rows n }
    {
        let mut header = self.parent(n)?;
        let mut root = n;
        'up: while let Some(above) = header {
            root = above;
            header = self.parent(above)?;
        }
        Some(root)
    }

    /// What element `n` is in its tree. None exactly for an unknown number.
    pub fn knot(&self, n: u32) -> Option<Knot>
        ensures none { IsNone result ↔ (length self.now.rows ≤ n) }
        ensures knot { result ≡ option_map code_knot (knot_of itself self.now.rows n) }
    {
        let entry = self.entry(n)?;
        Some(entry.knot())
    }

    // The least broken number that isn't below `n`, where there is one.
    fn broken_from(&self, n: u32) -> Option<u32>
        ensures { result ≡ first_at n (broken_in self.now.rows) }
    {
        let below = self.placed.broken.partition_point(
            |m: &u32| -> bool
                ensures { result ≡ nat_lt m.now n }
            { *m < n },
        );
        item_at(&self.placed.broken, below)
    }

    /// The least broken number in the span of element `n`, where there is one. Broken are the loose
    /// headers and the orphans: the roots other than element 0 that have bit C. None exactly for an
    /// unknown number.
    pub fn first_broken(&self, n: u32) -> Option<Option<u32>>
        ensures none { IsNone result ↔ (length self.now.rows ≤ n) }
        ensures first { result ≡ first_broken_of itself self.now.rows n }
    {
        let end = self.end(n)?;
        Some(if_below(self.broken_from(n), end))
    }
}
