ghost use Rattle.std.specs.Prelude.{◌≡◌, ◌==◌, ◌&&◌, ◌||◌, not, ◌≤ℤ◌, nat_le, pos, neg_ℤ, length, slice_index, Some, None, if◌then◌else◌};
ghost use Rattle.std.specs.Prelude.{IfSome, option_map};
ghost use Rattle.std.specs.List.{list_all};
ghost use Rattle.std.specs.Char.{is_ascii_digit};
ghost use Rattle.std.specs.Str.Parse.{digits_value};
ghost use Rattle.edit_script.specs.Numbers.{number_within, negated, signed_within};

/// The number that a word spells, a decimal without sign and without leading zeros, where it is at most `most`. None
/// exactly where it spells no such number.
pub fn number(word: &[u8], most: u32) -> Option<u32>
    ensures { result ≡ number_within most word.now }
{
    if begins_number(word) {
        value_within(word, most)
    } else {
        None
    }
}

// Whether a word has a byte, and no 0 in front of others.
fn begins_number(word: &[u8]) -> bool
    ensures { result ≡ not (length word.now == 0) && (not (slice_index word.now 0 == 48) || (length word.now == 1)) }
{
    !word.is_empty() && (word[0] != b'0' || word.len() == 1)
}

// The number that a word's bytes spell, where they are digits and it is at most `most`.
fn value_within(word: &[u8], most: u32) -> Option<u32>
    ensures { result ≡ (if list_all is_ascii_digit word.now && nat_le (digits_value 10 word.now) most
        then Some (digits_value 10 word.now) else None) }
{
    let most = u64::from(most);
    let mut value = 0;
    'digits: for digit in word {
        if !digit.is_ascii_digit() {
            return None;
        }
        value = value * 10 + u64::from(*digit - b'0');
        if value > most {
            return None;
        }
    }
    Some(value as u32)
}

// The number that a word spells, in which a dash may stand in front, where it is at least minus so much and
// at most so much.
pub fn signed_number(word: &[u8], most: u32) -> Option<i64>
    ensures value { result ≡ signed_within most word.now }
    ensures fits { IfSome result (λ n. (neg_ℤ (pos most) ≤ℤ n) × (n ≤ℤ pos most)) }
{
    let [b'-', digits @ ..] = word else {
        return unsigned(word, most);
    };
    negated(digits, most)
}

// The number that a word without a dash spells.
fn unsigned(word: &[u8], most: u32) -> Option<i64>
    ensures value { result ≡ option_map pos (number_within most word.now) }
    ensures fits { IfSome result (λ n. (neg_ℤ (pos most) ≤ℤ n) × (n ≤ℤ pos most)) }
{
    let value = number(word, most)?;
    Some(i64::from(value))
}

// The number below 0 whose digits stand behind a dash.
fn negated(digits: &[u8], most: u32) -> Option<i64>
    ensures value { result ≡ negated (number_within most digits.now) }
    ensures fits { IfSome result (λ n. (neg_ℤ (pos most) ≤ℤ n) × (n ≤ℤ pos most)) }
{
    let value = number(digits, most)?;
    if value == 0 {
        None
    } else {
        Some(-i64::from(value))
    }
}
