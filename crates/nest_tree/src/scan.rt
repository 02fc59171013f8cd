// What is known of the rows where one of them is read.

ghost use Rattle.std.specs.Prelude.{◌≡◌, ◌+◌, ◌-◌, ◌<◌, ◌≤◌, true, false, length, take, get_or};
ghost use Rattle.dgn_layout.specs.Classes.{class_of};
ghost use Rattle.dgn_drawing.specs.Nesting.{is_counted};
ghost use Rattle.nest_tree.specs.Kept.{counted_in};
ghost use Rattle.nest_tree.specs.Sources.{no_row, rows_of, HaveBitC, IsSource, IsScan};

use crate::source::Source;

#[derive(Clone, Copy, Drop)]
pub(crate) struct Scan {
    // How many members the last header has, or how many rows begin behind it before its total ends. Headers that follow one
    // another often have as many.
    pub(crate) near: usize,
    // How many of the rows before count their members.
    pub(crate) counted: usize,
    // The rows from the one that is read on, up to this one, have bit C.
    pub(crate) marked: usize,
}

impl Scan {
    // Before the first row.
    pub(crate) fn new() -> Scan
        ensures { result ≡ record { near = 0; counted = 0; marked = 0 } }
    {
        Scan {
            near: 0,
            counted: 0,
            marked: 0,
        }
    }

    // The total of row `at`, which counts its members.
    pub(crate) fn next_total(&mut self, source: &Source<'_>, at: usize) -> u16
        requires source { IsSource source.now }
        requires known { at < length (rows_of source.now) }
        requires counts { is_counted (class_of (get_or (rows_of source.now) at no_row).kind) ≡ true }
        requires scan { IsScan (rows_of source.now) at self.old }
        ensures total { result ≡ (get_or (rows_of source.now) at no_row).total }
        ensures scan { IsScan (rows_of source.now) (at + 1) self.new }
    {
        let total = source.total(at, self.counted);
        self.counted += 1;
        total
    }

    // The number of the first row from row `at` on that has no bit C, or of all rows. No row is looked at twice for that.
    pub(crate) fn marked_end(&mut self, source: &Source<'_>, at: usize) -> usize
        requires source { IsSource source.now }
        requires known { at ≤ length (rows_of source.now) }
        requires scan { IsScan (rows_of source.now) at self.old }
        ensures behind { at ≤ result }
        ensures within { result ≤ length (rows_of source.now) }
        ensures marked { HaveBitC (rows_of source.now) at result }
        ensures free { result < length (rows_of source.now) → (get_or (rows_of source.now) result no_row).cbit ≡ false }
        ensures scan { IsScan (rows_of source.now) at self.new }
    {
        self.marked = marked_from(source, at, self.marked.max(at));
        self.marked
    }
}

// The number of the first row from row `begin` on that has no bit C, or of all rows; those from row `_at` on, before
// row `begin`, have it.
fn marked_from(source: &Source<'_>, _at: usize, begin: usize) -> usize
    requires source { IsSource source.now }
    requires ordered { _at ≤ begin }
    requires known { begin ≤ length (rows_of source.now) }
    requires marked { HaveBitC (rows_of source.now) _at begin }
    ensures behind { _at ≤ result }
    ensures within { result ≤ length (rows_of source.now) }
    ensures marked { HaveBitC (rows_of source.now) _at result }
    ensures free { result < length (rows_of source.now) → (get_or (rows_of source.now) result no_row).cbit ≡ false }
{
    let mut end = begin;
    'marked: while end < source.len() && source.cbit(end) {
        end += 1;
    }
    end
}
