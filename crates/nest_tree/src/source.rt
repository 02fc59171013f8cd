// Where rows are read from.

ghost use Rattle.std.specs.Prelude.{ℕ, ◌≡◌, ◌+◌, ◌-◌, ◌*◌, ◌<◌, ◌≤◌, true, length, take, drop, get_or, nat_lt, IsTrue};
ghost use Rattle.dgn_layout.specs.Classes.{class_of};
ghost use Rattle.dgn_drawing.specs.Nesting.{is_counted};
ghost use Rattle.nest_tree.specs.Kept.{counted_in};
ghost use Rattle.nest_tree.specs.Sources.{no_row, rows_of, place_in, IsSource, Rises};

use dgn_drawing::Row;

// The rows that are read.
#[derive(Clone, Copy, Drop)]
pub(crate) enum Source<'a> {
    // A list of them, and sums: number i is how many bytes the first i have together.
    Listed(&'a [Row], &'a [u64]),
    // What is kept of each element, the place where it begins, and type and bit C in a byte; the total of each one that counts
    // its members; and the place where the last one ends.
    Kept(&'a [u32], &'a [u8], &'a [u16], u32),
}

impl Source<'_> {
    // How many rows there are.
    #[inline(always)]
    pub(crate) fn len(&self) -> usize
        requires { IsSource self.now }
        ensures { result ≡ length (rows_of self.now) }
    {
        match self {
            Source::Listed(rows, _) => rows.len(),
            Source::Kept(places, _, _, _) => places.len(),
        }
    }

    // The type of row `i`.
    #[inline(always)]
    pub(crate) fn kind(&self, i: usize) -> u8
        requires source { IsSource self.now }
        requires known { i < length (rows_of self.now) }
        ensures kind { result ≡ (get_or (rows_of self.now) i no_row).kind }
        ensures small { result < 128 }
    {
        match self {
            Source::Listed(rows, _) => rows[i].kind,
            Source::Kept(_, kinds, _, _) => kinds[i] % 128,
        }
    }

    // Whether row `i` has bit C.
    #[inline(always)]
    pub(crate) fn cbit(&self, i: usize) -> bool
        requires source { IsSource self.now }
        requires known { i < length (rows_of self.now) }
        ensures { result ≡ (get_or (rows_of self.now) i no_row).cbit }
    {
        match self {
            Source::Listed(rows, _) => rows[i].cbit,
            Source::Kept(_, kinds, _, _) => 128 <= kinds[i],
        }
    }

    // The total of row `i`, which counts its members, as so many do that stand before it.
    pub(crate) fn total(&self, i: usize, counted: usize) -> u16
        requires source { IsSource self.now }
        requires known { i < length (rows_of self.now) }
        requires counts { is_counted (class_of (get_or (rows_of self.now) i no_row).kind) ≡ true }
        requires before { counted ≡ counted_in (take i (rows_of self.now)) }
        ensures { result ≡ (get_or (rows_of self.now) i no_row).total }
    {
        match self {
            Source::Listed(rows, _) => rows[i].total,
            Source::Kept(_, _, totals, _) => totals[counted],
        }
    }

    // The place where row `i` begins, or where the last one ends.
    pub(crate) fn place(&self, i: usize) -> u64
        requires source { IsSource self.now }
        requires known { i ≤ length (rows_of self.now) }
        ensures place { result ≡ place_in self.now i }
        ensures small { result ≤ 4294967295 * 4294967295 }
    {
        match self {
            Source::Listed(_, sums) => sums[i],
            Source::Kept(places, _, _, end) => match places.get(i) {
                Some(place) => u64::from(*place),
                None => u64::from(*end),
            },
        }
    }

    // Whether place `i`, of those from number `first` on, is the first that isn't below the wanted one.
    fn is_first(&self, first: usize, i: usize, wanted: u64) -> bool
        requires source { IsSource self.now }
        requires ordered { first ≤ i }
        requires known { i ≤ length (rows_of self.now) }
        ensures before { IsTrue result → (k : ℕ) → first + k < i → place_in self.now (first + k) < wanted }
        ensures from { IsTrue result → wanted ≤ place_in self.now i }
    {
        let here = self.place(i);
        here == wanted || wanted < here && (i == first || self.place(i - 1) < wanted)
    }

    // How many of the places from number `first` on, before number `last`, are below the wanted one. The guess is tried first.
    pub(crate) fn below(&self, first: usize, last: usize, guess: usize, wanted: u64) -> usize
        requires source { IsSource self.now }
        requires ordered { first ≤ last }
        requires known { last ≤ length (rows_of self.now) }
        ensures within { first + result ≤ last }
        ensures before { (k : ℕ) → k < result → place_in self.now (first + k) < wanted }
        ensures from { first + result < last → wanted ≤ place_in self.now (first + result) }
    {
        if guess <= last - first && self.is_first(first, first + guess, wanted) {
            return guess;
        }
        let end = last.min(self.past(first, wanted));
        self.search(first, end, wanted)
    }

    // A number from which on all rows begin behind the wanted place: each row from row `first` on has at least four bytes.
    fn past(&self, first: usize, wanted: u64) -> usize
        requires source { IsSource self.now }
        requires known { first ≤ length (rows_of self.now) }
        ensures behind { first ≤ result }
        ensures far { (k : ℕ) → result ≤ first + k → first + k ≤ length (rows_of self.now) → wanted < place_in self.now (first + k) }
    {
        let most = wanted.saturating_sub(self.place(first)) / 4;
        first + most as usize + 1
    }

    // How many of the places from number `first` on, before number `last`, are below the wanted one.
    fn search(&self, first: usize, last: usize, wanted: u64) -> usize
        requires source { IsSource self.now }
        requires ordered { first ≤ last }
        requires known { last ≤ length (rows_of self.now) }
        ensures within { first + result ≤ last }
        ensures before { (k : ℕ) → k < result → place_in self.now (first + k) < wanted }
        ensures from { first + result < last → wanted ≤ place_in self.now (first + result) }
    {
        match self {
            Source::Listed(_, sums) => sums_below(sums, first, last, wanted),
            Source::Kept(places, _, _, _) => places_below(places, first, last, wanted),
        }
    }
}

// How many of the sums from number `first` on, before number `last`, are below the wanted one.
fn sums_below(sums: &[u64], first: usize, last: usize, wanted: u64) -> usize
    requires ordered { first ≤ last }
    requires known { last ≤ length sums.now }
    requires rise { Rises sums.now }
    ensures within { first + result ≤ last }
    ensures before { (k : ℕ) → k < result → get_or sums.now (first + k) 0 < wanted }
    ensures from { first + result < last → wanted ≤ get_or sums.now (first + result) 0 }
{
    let (_, rest) = sums.split_at(first);
    let (list, _) = rest.split_at(last - first);
    list.partition_point(
        |sum: &u64| -> bool
            ensures { result ≡ nat_lt sum.now wanted }
        { *sum < wanted },
    )
}

// How many of the places from number `first` on, before number `last`, are below the wanted one.
fn places_below(places: &[u32], first: usize, last: usize, wanted: u64) -> usize
    requires ordered { first ≤ last }
    requires known { last ≤ length places.now }
    requires rise { Rises places.now }
    ensures within { first + result ≤ last }
    ensures before { (k : ℕ) → k < result → get_or places.now (first + k) 0 < wanted }
    ensures from { first + result < last → wanted ≤ get_or places.now (first + result) 0 }
{
    let (_, rest) = places.split_at(first);
    let (list, _) = rest.split_at(last - first);
    list.partition_point(
        |place: &u32| -> bool
            ensures { result ≡ nat_lt place.now wanted }
        { u64::from(*place) < wanted },
    )
}
