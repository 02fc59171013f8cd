//! The head of an element: level, type and size, how it is drawn, and where its attribute data begin.
//!
//! Each call reads one element from its own bytes, `b`, whose first byte is the element's first. The
//! bytes 4 to 35 are the display header, which `symb`, `properties` and `attr_start` read.
#![tactic(auto)]

ghost use Rattle.std.specs.Prelude.{◌≡◌, ◌≤◌, length, IsTrue, IsFalse, OnSome, IfNone, IfSome};
ghost use Rattle.elem_head.specs.Head.{head_of, symbology_of, properties_of, has_attributes, attributes_start};

use dgn_words::word;

pub mod types;

// The number of the bit of the properties that says that attribute data follow: it counts 0x0800.
const ATTRIBUTE_DATA: u32 = 11;

/// Level, bit C, type, deleted bit and number of words that follow, from bytes 0 to 3.
///
/// Bit 6 of byte 0 is reserved, and no part of the level.
pub fn head(b: &[u8]) -> types::Head
    requires { 4 ≤ length b.now }
    ensures { result ≡ head_of b.now }
{
    types::Head {
        level: b[0] & 0x3F,
        cbit: b[0] & 0x80 != 0,
        kind: b[1] & 0x7F,
        deleted: b[1] & 0x80 != 0,
        words: word(b, 2),
    }
}

/// Colour, weight and style, from bytes 34 and 35.
pub fn symb(b: &[u8]) -> types::Symb
    requires { 36 ≤ length b.now }
    ensures { result ≡ symbology_of b.now }
{
    types::Symb {
        color: b[35],
        weight: b[34] >> 3,
        style: b[34] & 0x07,
    }
}

/// The properties word, from bytes 32 and 33.
pub fn properties(b: &[u8]) -> u16
    requires { 36 ≤ length b.now }
    ensures { result ≡ properties_of b.now }
{
    word(b, 32)
}

/// The byte of the element at which its attribute data begin, by the index word at byte 30.
///
/// None exactly where the properties say that no attribute data follow. The place isn't compared with
/// the element's size.
pub fn attr_start(b: &[u8]) -> Option<usize>
    requires { 36 ≤ length b.now }
    ensures set { OnSome result (IsTrue (has_attributes b.now)) }
    ensures clear { IfNone result (IsFalse (has_attributes b.now)) }
    ensures start { IfSome result (λ at. at ≡ attributes_start b.now) }
{
    if (properties(b) >> ATTRIBUTE_DATA) & 1 == 1 {
        Some(32 + 2 * usize::from(word(b, 30)))
    } else {
        None
    }
}
