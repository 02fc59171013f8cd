ghost use Rattle.std.specs.Prelude.{◌≡◌, ◌<◌, ◌++◌, length, None, IfErr, OnOk, OnErr};
ghost use Rattle.dgn_drawing.specs.Spelling.{spelling};
ghost use Rattle.dgn_drawing.specs.Nesting.{flat};
ghost use Rattle.elem_index.specs.Design.{elements};
ghost use Rattle.edit_ops.specs.Copying.{tree_copy, copy_cause, IsStopped, AddsUnless};

use crate::causes::first::first_cause;
use crate::copies::lone::push_lone_copy;
use crate::copies::tree::push_copy;
use crate::parts::live::live_numbers;
use crate::parts::lone::lone_at;
use crate::values::{is_shift, same_shift};
use crate::{EditFault, Test};
use dgn_drawing::{Edit, Shift};
use level_view::Drawing;
use patch_bytes::ByteList;
use std::alloc::Global;
use std::mem;

/// Appends to `out` the bytes of a copy of the part of element `n`, which there is, of the drawing `d`: the bytes of the
/// part, where its live elements stand displaced by `by`. `plan` copies a part by it.
///
/// Refused comes exactly where the displacement of a live element is refused: with Floating or Opaque for the least
/// one of which not all coordinates are read, and else with OffPlane for the least one that would leave the design
/// plane. Nothing else refuses it: not the length of a file, of which `out` needn't become a part. After a refusal,
/// and where there is no memory, `out` is as before.
///
/// It takes the time of the part.
pub fn copy_tree(
    alloc: Global,
    d: &Drawing<'_>,
    n: u32,
    by: &Shift,
    out: &mut ByteList,
) -> Result<(), EditFault>
    requires known { n < length (elements d.now) }
    ensures copied { OnOk result
        (out.new ≡ out.old ++ spelling (flat (tree_copy d.now.dim (elements d.now) by.now n))) }
    ensures accepted { OnOk result (copy_cause d.now.dim (elements d.now) by.now n ≡ None) }
    ensures refused { IfErr result (IsStopped (copy_cause d.now.dim (elements d.now) by.now n)) }
    ensures kept { OnErr result (out.new ≡ out.old) }
{
    let mut bytes = mem::replace(out, ByteList::new(alloc)).into_vec();
    let copied = push_tree_copy(alloc, d, n, by, &mut bytes);
    *out = ByteList::from_vec(bytes);
    copied
}

// Appends the bytes of a copy to a vector, or says what refuses it.
fn push_tree_copy(
    alloc: Global,
    d: &Drawing<'_>,
    n: u32,
    by: &Shift,
    out: &mut Vec<u8>,
) -> Result<(), EditFault>
    requires known { n < length (elements d.now) }
    ensures copied { AddsUnless (copy_cause d.now.dim (elements d.now) by.now n)
        (spelling (flat (tree_copy d.now.dim (elements d.now) by.now n))) result out.old.items out.new.items }
    ensures kept { OnErr result (out.new.items ≡ out.old.items) }
{
    if let Some(found) = lone_at(d, n) {
        return push_lone_copy(d, n, found, by, out);
    }
    let live = live_numbers(alloc, d, n)?;
    if let Some(cause) = first_cause(d, &live, &Test::Moves) {
        return Err(EditFault::Refused(cause));
    }
    is_shift(by);
    let edit = Edit::Copy {
        n,
        by: same_shift(by),
    };
    push_copy(alloc, d, n, &live, &edit, out)
}
