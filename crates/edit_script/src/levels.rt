ghost use Rattle.std.specs.Prelude.{◌≡◌, ◌+◌, ◌-◌, ◌<◌, ◌≤◌, option_map, Some};
ghost use Rattle.edit_script.specs.Words.{words_of};
ghost use Rattle.edit_script.specs.Levels.{with_levels, with_word, with_words, named_by, mask_named};

use crate::numbers::number;
use crate::words::{first_piece, next_word};
use dgn_drawing::Mask;

// The last level.
const LAST: u32 = 63;

// The mask that the words behind `levels` name.
pub fn read_levels(rest: &[u8]) -> Option<Mask>
    ensures { option_map (λ m. m.0) result ≡ mask_named (words_of rest.now) }
{
    let (first, behind) = next_word(rest)?;
    if next_word(behind).is_none() {
        return named_by(first);
    }
    let mask = levels_of(rest)?;
    Some(Mask(mask))
}

// The mask that one word alone names.
fn named_by(word: &[u8]) -> Option<Mask>
    ensures { option_map (λ m. m.0) result ≡ named_by word.now }
{
    if word == b"all".as_slice() {
        return Some(Mask(u64::MAX));
    }
    if word == b"none".as_slice() {
        return Some(Mask(0));
    }
    let mask = with_word(0, word)?;
    Some(Mask(mask))
}

// The levels of all words, each of which is a range.
fn levels_of(rest: &[u8]) -> Option<u64>
    ensures { result ≡ with_words (Some 0) (words_of rest.now) }
{
    let mut mask = 0;
    let mut left = rest;
    'words: while let Some((word, behind)) = next_word(left) {
        mask = with_word(mask, word)?;
        left = behind;
    }
    Some(mask)
}

// The mask and the levels of a range.
fn with_word(mask: u64, word: &[u8]) -> Option<u64>
    ensures { result ≡ with_word mask word.now }
{
    let (first, behind) = first_piece(word, b'-');
    let last = if first.len() == word.len() {
        word
    } else {
        behind
    };
    let first = number(first, LAST)?;
    let last = number(last, LAST)?;
    if first <= last {
        Some(with_levels(mask, first, last))
    } else {
        None
    }
}

// The mask and the levels from the first to the last.
fn with_levels(mask: u64, first: u32, last: u32) -> u64
    requires ordered { first ≤ last }
    requires level { last < 64 }
    ensures { result ≡ with_levels mask first (last + 1 - first) }
{
    let mut all = mask;
    'levels: for level in first..last + 1 {
        all |= 1 << level;
    }
    all
}
