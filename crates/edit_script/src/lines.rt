ghost use Rattle.std.specs.Prelude.{◌≡◌, ◌<◌, [], ◌∷◌, length, IfSome, MatchOption};
ghost use Rattle.edit_script.specs.Lines.{lines_of, without_return};

use crate::words::first_piece;

// The first line of a script, and what stands behind it.
pub fn next_line(script: &[u8]) -> Option<(&[u8], &[u8])>
    ensures first { MatchOption result (lines_of script.now ≡ [])
        (λ r. lines_of script.now ≡ r.0.now ∷ lines_of r.1.now) }
    ensures shorter { IfSome result (λ r. length r.1.now < length script.now) }
{
    if script.is_empty() {
        return None;
    }
    let (line, rest) = first_piece(script, b'\n');
    Some((strip_return(line), rest))
}

// The line without one CR at its end.
fn strip_return(line: &[u8]) -> &[u8]
    ensures { result.now ≡ without_return line.now }
{
    if line.is_empty() || line[line.len() - 1] != b'\r' {
        return line;
    }
    line.split_at(line.len() - 1).0
}
