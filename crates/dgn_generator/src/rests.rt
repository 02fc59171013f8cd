// What stands in an element of a generated drawing behind its first 36 bytes.

ghost use Rattle.std.specs.Prelude.{◌≡◌, ◌+◌, ◌≤◌, ◌++◌, [], ◌∷◌, replicate, pos};
ghost use Rattle.dgn_words.specs.Numbers.{word_bytes, long_bytes};
ghost use Rattle.dgn_drawing.specs.Spelling.{point_bytes};

use crate::fields::put_coordinate;
use crate::place::Place;
use dgn_words::put_word;

/// Of the header of a cell: its total, its name, 44 bytes without meaning, and its origin.
pub fn header_rest(at: Place) -> [u8; 56]
    ensures { result ≡ word_bytes 79 ++ (word_bytes 11414 ++ (replicate 44 0 ++ point_bytes (pos at.x ∷ pos at.y ∷ []))) }
{
    let mut b = [0; 56];
    put_word(&mut b, 0, 79);
    put_word(&mut b, 2, 11414);
    put_coordinate(&mut b, 48, at.x);
    put_coordinate(&mut b, 52, at.y);
    b
}

/// Of a line: its two points.
pub fn line_rest(at: Place, width: u32, height: u32) -> [u8; 16]
    requires width { width ≤ 100 }
    requires height { height ≤ 100 }
    ensures { result ≡ point_bytes (pos at.x ∷ pos at.y ∷ [])
        ++ point_bytes (pos (at.x + width) ∷ pos (at.y + height) ∷ []) }
{
    let mut b = [0; 16];
    put_coordinate(&mut b, 0, at.x);
    put_coordinate(&mut b, 4, at.y);
    put_coordinate(&mut b, 8, at.x + width);
    put_coordinate(&mut b, 12, at.y + height);
    b
}

/// Of a chain: how many points it has, and its three points.
pub fn chain_rest(at: Place) -> [u8; 26]
    ensures { result ≡ word_bytes 3 ++ (point_bytes (pos at.x ∷ pos at.y ∷ [])
        ++ (point_bytes (pos (at.x + 10) ∷ pos at.y ∷ []) ++ point_bytes (pos (at.x + 10) ∷ pos (at.y + 10) ∷ []))) }
{
    let mut b = [0; 26];
    put_word(&mut b, 0, 3);
    put_coordinate(&mut b, 2, at.x);
    put_coordinate(&mut b, 6, at.y);
    put_coordinate(&mut b, 10, at.x + 10);
    put_coordinate(&mut b, 14, at.y);
    put_coordinate(&mut b, 18, at.x + 10);
    put_coordinate(&mut b, 22, at.y + 10);
    b
}

/// Of a shape: how many points it has, and its four points, of which the last is the first.
pub fn shape_rest(at: Place) -> [u8; 34]
    ensures { result ≡ word_bytes 4 ++ (point_bytes (pos at.x ∷ pos at.y ∷ [])
        ++ (point_bytes (pos (at.x + 20) ∷ pos at.y ∷ [])
        ++ (point_bytes (pos (at.x + 20) ∷ pos (at.y + 20) ∷ []) ++ point_bytes (pos at.x ∷ pos at.y ∷ [])))) }
{
    let mut b = [0; 34];
    put_word(&mut b, 0, 4);
    put_coordinate(&mut b, 2, at.x);
    put_coordinate(&mut b, 6, at.y);
    put_coordinate(&mut b, 10, at.x + 20);
    put_coordinate(&mut b, 14, at.y);
    put_coordinate(&mut b, 18, at.x + 20);
    put_coordinate(&mut b, 22, at.y + 20);
    put_coordinate(&mut b, 26, at.x);
    put_coordinate(&mut b, 30, at.y);
    b
}

/// Of a text: font and justification, the two sizes, the rotation, its origin, and its three characters.
pub fn text_rest(at: Place) -> [u8; 28]
    ensures { result ≡ (1 ∷ 0 ∷ []) ++ (long_bytes (pos 1000) ++ (long_bytes (pos 1000) ++ (long_bytes (pos 0)
        ++ (point_bytes (pos at.x ∷ pos at.y ∷ []) ++ (3 ∷ 0 ∷ 68 ∷ 71 ∷ 78 ∷ 0 ∷ []))))) }
{
    let mut b = [0; 28];
    b[0] = 1;
    put_coordinate(&mut b, 2, 1000);
    put_coordinate(&mut b, 6, 1000);
    put_coordinate(&mut b, 14, at.x);
    put_coordinate(&mut b, 18, at.y);
    b[22] = 3;
    b[24] = b'D';
    b[25] = b'G';
    b[26] = b'N';
    b
}
