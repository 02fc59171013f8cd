// Writing patches, and writing them back.

ghost use Rattle.std.specs.Prelude.{◌≡◌, ◌-◌, length, map, take, drop, replicate};
ghost use Rattle.patch_bytes.specs.Puts.{lay, old_of, write_back as written_back, IsWithin, AreWithin};
ghost use Rattle.patch_bytes.specs.PatchView.{put_of};

use crate::Patch;

/// Writes the bytes of `p` at its place in `buf`, and gives the patch that holds what stood there.
/// Every other byte stays.
#[tactic(auto, unfolding(crate::specs::Puts::old_of))]
pub fn swap_in(buf: &mut [u8], p: Patch) -> Patch
    requires { IsWithin (length buf.old) (put_of p) }
    ensures written { buf.new ≡ lay buf.old (put_of p) }
    ensures restores { put_of result ≡ old_of buf.old (put_of p) }
{
    let bytes = exchanged(buf, p);
    Patch {
        at: p.at,
        len: p.len,
        bytes,
    }
}

// Writes the bytes of `p` at its place in `buf`, and gives those that stood there, with zeros behind them.
fn exchanged(buf: &mut [u8], p: Patch) -> [u8; 4]
    requires { IsWithin (length buf.old) (put_of p) }
    ensures written { buf.new ≡ lay buf.old (put_of p) }
    ensures old { take p.len result ≡ (old_of buf.old (put_of p)).bytes }
    ensures rest { drop p.len result ≡ replicate (4 - p.len) 0 }
{
    match p.len {
        1 => exchange::<1>(buf, p),
        2 => exchange::<2>(buf, p),
        3 => exchange::<3>(buf, p),
        _ => exchange::<4>(buf, p),
    }
}

// Writes the bytes of a patch of LEN bytes, and gives those that stood there, with zeros behind them. That the number
// is known makes the copies single moves. The new bytes are named one by one, since a processor waits long for a number
// that it has just put to the stack in pieces.
fn exchange<const LEN: usize>(buf: &mut [u8], p: Patch) -> [u8; 4]
    requires same_length { p.len ≡ LEN }
    requires within { IsWithin (length buf.old) (put_of p) }
    ensures written { buf.new ≡ lay buf.old (put_of p) }
    ensures old { take p.len result ≡ (old_of buf.old (put_of p)).bytes }
    ensures rest { drop p.len result ≡ replicate (4 - p.len) 0 }
{
    let from = p.at as usize;
    let place = &mut buf[from..from + LEN];
    let mut bytes = [0; 4];
    bytes[..LEN].copy_from_slice(place);
    let [a, b, c, d] = p.bytes;
    place.copy_from_slice(&[a, b, c, d][..LEN]);
    bytes
}

/// Writes the bytes of each patch of `list` at its place in `buf`, the last first.
pub fn write_back(buf: &mut [u8], list: &[Patch])
    requires { AreWithin (length buf.old) (map put_of list.now) }
    ensures { buf.new ≡ written_back buf.old (map put_of list.now) }
{
    let mut left = list.len();
    while left > 0 {
        left -= 1;
        let last = left;
        swap_in(buf, list[last]);
    }
}
