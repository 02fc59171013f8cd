//! Radix-50, which packs three signs of a table of forty into one word.
#![tactic(auto)]

ghost use Rattle.std.specs.Prelude.{◌≡◌, ◌↔◌, ◌<◌, ◌≤◌, IsNone, IsSome, IfSome, All};
ghost use Rattle.dgn_radix50.specs.Signs.{IsSign, sign_of, code_of, signs_of, word_of};

// The forty signs in the order of their codes.
const SIGNS: [u8; 40] = *b" ABCDEFGHIJKLMNOPQRSTUVWXYZ$.%0123456789";

// How many words three signs make.
const WORDS: u16 = 64000;

/// The three signs of the word `w`. Words from 64000 on have none, and they alone give None.
pub fn unpack(w: u16) -> Option<[u8; 3]>
    ensures none { IsNone result ↔ (64000 ≤ w) }
    ensures signs { IfSome result (λ c. c ≡ signs_of w) }
    ensures back { IfSome result (λ c. word_of c ≡ Some w) }
{
    if w < WORDS {
        Some([sign(w / 1600), sign(w / 40 % 40), sign(w % 40)])
    } else {
        None
    }
}

/// The word of the three signs `c`. It is None where one of the bytes is no sign of the table, as a
/// lower-case letter, and only there.
pub fn pack(c: [u8; 3]) -> Option<u16>
    ensures signs { IsSome result ↔ All IsSign c }
    ensures word { result ≡ word_of c }
    ensures back { IfSome result (λ w. (w < 64000) × (signs_of w ≡ c)) }
{
    let [first, second, third] = c;
    Some(code(first)? * 1600 + code(second)? * 40 + code(third)?)
}

// The sign of a code.
#[tactic(auto, unfolding(crate::specs::Signs::signs))]
fn sign(code: u16) -> u8
    requires { code < 40 }
    ensures { result ≡ sign_of code }
{
    SIGNS[usize::from(code)]
}

// The code of a sign. None where the byte is no sign.
#[tactic(auto, unfolding(crate::specs::Signs::signs))]
fn code(sign: u8) -> Option<u16>
    ensures code { result ≡ code_of sign }
    ensures below { IfSome result (λ c. c < 40) }
{
    match sign {
        b' ' => Some(0),
        b'A'..=b'Z' => Some(u16::from(sign - b'A') + 1),
        b'$' => Some(27),
        b'.' => Some(28),
        b'%' => Some(29),
        b'0'..=b'9' => Some(u16::from(sign - b'0') + 30),
        _ => None,
    }
}
