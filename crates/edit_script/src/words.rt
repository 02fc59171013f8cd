ghost use Rattle.std.specs.Prelude.{◌≡◌, ◌==◌, ◌<◌, [], ◌∷◌, length, IfSome, MatchOption};
ghost use Rattle.std.specs.List.{before_first, after_first, position};
ghost use Rattle.edit_script.specs.Words.{from_word, behind_word, words_of};

// The first word of a line, and what stands behind it and the blank that ends it.
pub fn next_word(line: &[u8]) -> Option<(&[u8], &[u8])>
    ensures word { MatchOption result (words_of line.now ≡ [])
        (λ r. words_of line.now ≡ r.0.now ∷ words_of r.1.now) }
    ensures behind { IfSome result (λ r. r.1.now ≡ behind_word line.now) }
{
    let line = strip_blanks(line);
    if line.is_empty() {
        return None;
    }
    Some(first_piece(line, b' '))
}

// The line from its first word on.
pub fn strip_blanks(line: &[u8]) -> &[u8]
    ensures { result.now ≡ from_word line.now }
{
    let mut rest = line;
    'blanks: while let [b' ', behind @ ..] = rest {
        rest = behind;
    }
    rest
}

// The bytes before the first `separator`, and those behind it.
pub fn first_piece(text: &[u8], separator: u8) -> (&[u8], &[u8])
    ensures piece { result.0.now ≡ before_first (λ b. b == separator) text.now }
    ensures rest { result.1.now ≡ after_first (λ b. b == separator) text.now }
    ensures shorter { 0 < length text.now → length result.1.now < length text.now }
{
    match place_of(text, separator) {
        Some(at) => (text.split_at(at).0, text.split_at(at + 1).1),
        None => (text, &[]),
    }
}

// The place of the first `byte`.
fn place_of(text: &[u8], byte: u8) -> Option<usize>
    ensures { result ≡ position (λ b. b == byte) text.now }
{
    text.iter().position(|b| *b == byte)
}
