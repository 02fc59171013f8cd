// Writing the patches of an edit, and keeping what stood there.

ghost use Rattle.std.specs.Prelude.{◌≡◌, length};
ghost use Rattle.patch_bytes.specs.Puts.{write, olds, AreWithin};

use patch_bytes::{PatchList, swap_in};

// Writes each patch, the first first, and puts what stood there in its place.
pub fn swap_all(buf: &mut [u8], patches: &mut PatchList)
    requires { AreWithin (length buf.old) patches.old }
    ensures written { buf.new ≡ write buf.old patches.old }
    ensures kept { patches.new ≡ olds buf.old patches.old }
{
    for i in 0..patches.len() {
        match patches.get(i) {
            Some(patch) => {
                let old = swap_in(buf, patch);
                patches.set(i, old);
            }
            None => unreachable!(),
        }
    }
}
