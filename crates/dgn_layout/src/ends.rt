// The end of a body that says itself how long it is.

ghost use Rattle.std.specs.Prelude.{◌+◌, ◌-◌, ◌*◌, ◌≤◌, length, slice_index, SomeIff};
ghost use Rattle.dgn_words.specs.Numbers.{word_at};

use dgn_words::word;

// The byte where the count word of a line string, a shape or a curve stands.
pub const COUNT: usize = 36;

// The byte behind the characters that begin at a place, as many as the byte two before that place says. None exactly
// where the element ends before that place.
pub fn characters_end(b: &[u8], start: usize) -> Option<usize>
    requires behind { 2 ≤ start }
    requires small { start ≤ 76 }
    ensures { SomeIff result (start ≤ length b.now) (start + slice_index b.now (start - 2)) }
{
    if b.len() < start {
        return None;
    }
    Some(start + usize::from(b[start - 2]))
}

// The byte behind the points that begin at a place, each a stride behind the one before it, as many as the count word
// says. None exactly where the element ends before that place.
pub fn points_end(b: &[u8], start: usize, stride: usize) -> Option<usize>
    requires behind { 38 ≤ start }
    requires small { start ≤ 76 }
    requires close { stride ≤ 12 }
    ensures { SomeIff result (start ≤ length b.now) (start + stride * word_at b.now 36) }
{
    if b.len() < start {
        return None;
    }
    Some(start + stride * usize::from(word(b, COUNT)))
}
