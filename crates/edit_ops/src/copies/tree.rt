ghost use Rattle.std.specs.Prelude.{ℕ, ◌≡◌, ◌+◌, ◌%◌, ◌<◌, ◌≤◌, List, ◌++◌, length, slice_index, slice_set, OnErr};
ghost use Rattle.std.specs.List.{AllByRecursion};
ghost use Rattle.dgn_drawing.specs.Rows.{row_of};
ghost use Rattle.dgn_drawing.specs.Nesting.{flat, forest};
ghost use Rattle.dgn_drawing.specs.Spelling.{spelling};
ghost use Rattle.elem_index.specs.Design.{elements};
ghost use Rattle.elem_index.specs.Offsets.{offset_of};
ghost use Rattle.edit_ops.specs.Trees.{tree_at, live_tree};
ghost use Rattle.patch_bytes.specs.Puts.{write, Span};
ghost use Rattle.edit_ops.specs.Applying.{IsEdit, copied};
ghost use Rattle.edit_ops.specs.Rules.{rule_of};
ghost use Rattle.edit_ops.specs.Written.{lives_of, live_puts, IsReady};
ghost use Rattle.edit_ops.specs.Copying.{AddsUnless};
ghost use Rattle.edit_ops.specs.Putting.{MayBePut, leaving};

use crate::EditFault;
use crate::changes::live::push_live;
use crate::parts::live::part_end;
use dgn_drawing::{Edit, MOST_DESIGN};
use level_view::Drawing;
use patch_bytes::{Patch, PatchList, swap_in};
use std::alloc::Global;

// Bit C of an element's first byte.
const BIT_C: u8 = 0x80;

// The byte at which element n begins, or behind the last one.
fn place_of(d: &Drawing<'_>, n: u32) -> usize
    requires known { n ≤ length (elements d.now) }
    ensures { result ≡ offset_of (elements d.now) n }
{
    d.is_whole();
    d.offset(n).unwrap_or(d.body().len())
}

/// The bytes of the part of element `n` of the drawing `d`: of the element, which there is, and of all below it.
pub fn part_bytes<'a>(d: &Drawing<'a>, n: u32) -> &'a [u8]
    requires known { n < length (elements d.now) }
    ensures { result.now ≡ spelling (flat (tree_at n (forest row_of (elements d.now)))) }
{
    d.is_whole();
    let start = place_of(d, n);
    let end = place_of(d, part_end(d, n));
    &d.body()[start..end]
}

/// How many bytes the part of element `n` of the drawing `d` has, which there is.
pub fn part_len(d: &Drawing<'_>, n: u32) -> usize
    requires known { n < length (elements d.now) }
    ensures exact { result ≡ length (spelling (flat (tree_at n (forest row_of (elements d.now))))) }
    ensures bounded { result ≤ MOST_DESIGN }
{
    d.is_whole();
    place_of(d, part_end(d, n)) - place_of(d, n)
}

// Appends the bytes of the copy of the part of element n: those of the part with what the edit puts into its live
// elements, of which `live` has the numbers, and the head without bit C; or says that one would leave the plane. Then, and
// where there is no memory, `out` is as before.
pub fn push_copy(
    alloc: Global,
    d: &Drawing<'_>,
    n: u32,
    live: &[u32],
    edit: &Edit,
    out: &mut Vec<u8>,
) -> Result<(), EditFault>
    requires known { n < length (elements d.now) }
    requires fits { IsEdit edit.now }
    requires live { lives_of (elements d.now) live.now ≡ live_tree (elements d.now) n }
    requires readable { AllByRecursion (λ v. MayBePut edit.now v.element) (live_tree (elements d.now) n) }
    ensures copied { AddsUnless (leaving d.now.dim edit.now (live_tree (elements d.now) n))
        (spelling (flat (copied (rule_of d.now.dim edit.now) (elements d.now) n))) result out.old.items out.new.items }
    ensures kept { OnErr result (out.new.items ≡ out.old.items) }
{
    let mut patches = PatchList::new(alloc);
    push_live(&mut patches, d, live, edit)?;
    let start = out.len();
    out.extend_from_slice(part_bytes(d, n))?;
    lay_part(&mut out[start..], d, n, edit, &patches);
    Ok(())
}

// Makes the bytes of the part of element n those of its copy, by the patches of the edit `_edit`.
fn lay_part(copy: &mut [u8], d: &Drawing<'_>, n: u32, _edit: &Edit, patches: &PatchList)
    requires known { n < length (elements d.now) }
    requires fits { IsEdit _edit.now }
    requires ready { AllByRecursion (λ v. IsReady d.now.dim _edit.now v.element) (live_tree (elements d.now) n) }
    requires patches { patches.now ≡ live_puts (rule_of d.now.dim _edit.now) (live_tree (elements d.now) n) }
    requires same { copy.old ≡ spelling (flat (tree_at n (forest row_of (elements d.now)))) }
    ensures { copy.new ≡ spelling (flat (copied (rule_of d.now.dim _edit.now) (elements d.now) n)) }
{
    d.is_whole();
    lay_all(copy, place_of(d, n) as u32, patches);
    free_first(copy);
}

// Takes bit C, which is its highest, from the first of some bytes.
pub fn free_first(bytes: &mut [u8])
    ensures { bytes.new ≡ slice_set bytes.old 0 (slice_index bytes.old 0 % 128) }
{
    if let Some(first) = bytes.first_mut() {
        *first %= BIT_C;
    }
}

// Lays patches that rise within `bytes`, with places counted from `start` bytes before the first of them.
fn lay_all(bytes: &mut [u8], start: u32, patches: &PatchList)
    requires { Span start patches.now (start + length bytes.old) }
    ensures { (a : List ℕ) → length a ≡ start → write (a ++ bytes.old) patches.now ≡ a ++ bytes.new }
{
    let list = patches.as_slice();
    'patches: for patch in list {
        let lower = Patch {
            at: patch.at - start,
            len: patch.len,
            bytes: patch.bytes,
        };
        let _ = swap_in(bytes, lower);
    }
}
