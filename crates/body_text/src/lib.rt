//! The origin and the characters of a text, and the origin of a text node, read where they stand in
//! the element.
#![tactic(auto)]

ghost use Rattle.std.specs.Prelude.{◌≡◌, ◌+◌, ◌*◌, ◌≤◌, ◌⊎◌, ◌↔◌, length, IsSome, IfSome};
ghost use Rattle.std.specs.Option.{SomeIff};
ghost use Rattle.body_text.specs.Texts.{origin_of, chars_of, TextFits, node_origin_of, node_end};

use dgn_words::longs;

/// What a text says, and where.
#[derive(Clone, Copy, Debug, PartialEq, Eq)]
pub struct Words<'a, const DIM: usize> {
    /// One coordinate for each axis.
    pub origin: [i32; DIM],
    /// The bytes of the characters, borrowed from the element.
    pub chars: &'a [u8],
}

/// The origin and the characters of a text element, whose bytes are `b`, in `DIM` axes.
///
/// None exactly where `b` ends before the fixed part or the last character does.
pub fn text<const DIM: usize>(b: &[u8]) -> Option<Words<'_, DIM>>
    requires dimension { (DIM ≡ 2) ⊎ (DIM ≡ 3) }
    ensures fits { IsSome result ↔ TextFits DIM b.now }
    ensures origin { IfSome result (λ w. w.origin ≡ origin_of DIM b.now) }
    ensures chars { IfSome result (λ w. w.chars.now ≡ chars_of DIM b.now) }
{
    // The bytes where the origin, the number of characters and the characters stand.
    let (origin, count, start) = if DIM == 2 { (50, 58, 60) } else { (62, 74, 76) };
    if b.len() < start {
        return None;
    }
    let end = start + usize::from(b[count]);
    if b.len() < end {
        return None;
    }
    Some(Words {
        origin: longs(b, origin),
        chars: &b[start..end],
    })
}

/// The origin of a text node, whose bytes are `b`, in `DIM` axes.
///
/// None exactly where `b` ends before the origin does.
pub fn node<const DIM: usize>(b: &[u8]) -> Option<[i32; DIM]>
    requires dimension { (DIM ≡ 2) ⊎ (DIM ≡ 3) }
    ensures { SomeIff result (node_end DIM ≤ length b.now) (node_origin_of DIM b.now) }
{
    let origin = if DIM == 2 { 62 } else { 74 };
    if b.len() < origin + 4 * DIM {
        return None;
    }
    Some(longs(b, origin))
}
