// The linkage that some bytes begin with.

ghost use Rattle.std.specs.Prelude.{◌≡◌, ◌<◌, ◌≤◌, length};
ghost use Rattle.dgn_linkage.specs.Linkages.{first_link_of, taken, announced};

use crate::types::{Form, Link};

// How long a Dmrs is.
const DMRS: usize = 8;

// The fewest bytes that can begin a linkage.
const FEWEST: usize = 4;

// The bit of a linkage's second byte that marks a User, by its number.
const USER_BIT: u8 = 4;

// The linkage at place `at`, where `rest` is the data from there on.
pub fn first_link(at: usize, rest: &[u8]) -> Link
    requires { 0 < length rest.now }
    ensures link { result ≡ first_link_of at rest.now }
    ensures nonempty { 0 < result.len }
    ensures within { result.len ≤ length rest.now }
{
    let left = rest.len();
    if left < FEWEST {
        return taken_from(at, left, None);
    }
    taken_from(at, left, announced_by(rest[0], rest[1]))
}

// The linkage at place `at`, with `left` bytes left: what is announced where it fits, else all of them.
fn taken_from(at: usize, left: usize, announcement: Option<(Form, usize)>) -> Link
    ensures { result ≡ taken at left announcement }
{
    match announcement {
        Some((form, len)) if len <= left => Link { at, len, form },
        _ => Link {
            at,
            len: left,
            form: Form::Rest,
        },
    }
}

// The form and the length that the first two bytes of a linkage announce, or None.
fn announced_by(first: u8, second: u8) -> Option<(Form, usize)>
    ensures { result ≡ announced first second }
{
    if first == 0 && (second == 0 || second == 0x80) {
        Some((Form::Dmrs, DMRS))
    } else if (second >> USER_BIT) & 1 == 1 {
        Some((Form::User, 2 + 2 * usize::from(first)))
    } else {
        None
    }
}
