ghost use Rattle.std.specs.Prelude.{◌≡◌, ◌+◌, ◌<◌, ◌≤◌, length, Some, None, IfOk, IfErr, IfSome, IsErrOf};
ghost use Rattle.std.specs.Option.{option_or};
ghost use Rattle.dgn_drawing.specs.declared.edit.Edit.{Edit};
ghost use Rattle.dgn_drawing.specs.Spelling.{spelling};
ghost use Rattle.dgn_drawing.specs.Nesting.{flat};
ghost use Rattle.elem_index.specs.Design.{elements};
ghost use Rattle.edit_ops.specs.Trees.{above_tree, live_tree};
ghost use Rattle.edit_ops.specs.Applying.{apply, ChangesInPlace, IsEdit};
ghost use Rattle.edit_ops.specs.Causes.{target_of, part_cause, causes_of, first_of};
ghost use Rattle.edit_ops.specs.Copying.{tree_copy, AddsUnless};
ghost use Rattle.edit_ops.specs.Rules.{rule_of};
ghost use Rattle.edit_ops.specs.Planned.{IsPlan, IsRefused, PlansUnless};
ghost use Rattle.edit_ops.specs.Written.{lives_of, part_puts};

use crate::causes::in_place::{append_cause, edit_cause, growth_cause};
use crate::changes::headers::push_part;
use crate::parts::above::put_numbers_above;
use crate::plans::numbers::{Numbers, no_numbers};
use crate::types::Plan;
use crate::values::is_edit;
use crate::{
    Cause, EditFault, copy_tree, is_lone_root, move_cause, other_axes, part_cause, part_len,
    put_live_numbers, unknown,
};
use dgn_drawing::{Edit, MOST_DESIGN, Shift, spelled};
use level_view::Drawing;
use patch_bytes::{ByteList, PatchList};
use std::alloc::Global;

/// What an edit comes to on the drawing `d`. `pending` is the number of bytes
/// that are to be appended already.
///
/// Refused comes exactly with the first cause that stands. The part of an element is the element and all below it.
///
/// - Of every edit but an appended element: Unknown; Broken, where the tree that holds the element is; Deleted, where
///   the element or a header above it is marked.
/// - Of a move, a change of the look and a deletion: Locked, where a header above or a live element of the part is.
/// - Of a move, a copy and an appended element: Dimension.
/// - Opaque or Floating: of a move, where a header above has the class run; of a move and a copy, where not all
///   coordinates of a live element of the part are read; of a change of the look, where a live element has no look
///   that is read; of a deletion, where the element is silent, or a live one has type 127.
/// - Of a move and a copy: OffPlane.
/// - Of a copy and an appended element: TooLong, where body, tail, `pending` and the new bytes are together more
///   than `MOST_DESIGN` bytes.
///
/// Of each the least element of which it can be said is named. Otherwise the plan has the edited fields of the
/// headers above and of the live elements, with the bytes that the result has there, and the bytes to append.
///
/// It takes the time of the part and of the headers above it, not of the drawing. Memory says that there was none
/// for the plan, of an edit whose element, where it names one, there is.
pub fn plan(alloc: Global, d: &Drawing<'_>, edit: &Edit, pending: usize) -> Result<Plan, EditFault>
    requires bounded { length d.now.body.items + (length d.now.tail.items + pending) ≤ MOST_DESIGN }
    ensures planned { IfOk result
        (IsPlan d.now.dim (elements d.now) (length d.now.tail.items + pending) edit.now) }
    ensures kept { IfOk result (λ _. IsEdit edit.now) }
    ensures refused { IfErr result
        (IsRefused (apply d.now.dim (elements d.now) (length d.now.tail.items + pending) edit.now)) }
    ensures known { IsErrOf result EditFault.Memory → IfSome (target_of edit.now) (λ n. n < length (elements d.now)) }
{
    let mut plan = Plan {
        patches: PatchList::new(alloc),
        append: ByteList::new(alloc),
    };
    let mut numbers = no_numbers(alloc);
    plan_behind(alloc, d, edit, pending, &mut numbers, &mut plan)?;
    Ok(plan)
}

// Puts what an edit comes to behind what `all` has already, in the same way. Where it is refused, or there is no memory,
// `all` may have some of it. `numbers` is filled anew, whatever stands in it.
pub(crate) fn plan_behind(
    alloc: Global,
    d: &Drawing<'_>,
    edit: &Edit,
    pending: usize,
    numbers: &mut Numbers,
    all: &mut Plan,
) -> Result<(), EditFault>
    requires bounded { length d.now.body.items + (length d.now.tail.items + pending) ≤ MOST_DESIGN }
    ensures planned { PlansUnless d.now.dim (elements d.now) (length d.now.tail.items + pending) edit.now result all.old all.new }
    ensures kept { IfOk result (λ _. IsEdit edit.now) }
    ensures known { IsErrOf result EditFault.Memory → IfSome (target_of edit.now) (λ n. n < length (elements d.now)) }
{
    is_edit(edit);
    match target(edit) {
        Some(n) => plan_part(alloc, d, n, edit, pending, numbers, all),
        None => plan_append(alloc, d, edit, pending, all),
    }
}

// Puts what an edit of the part of element n comes to behind what `all` has already.
fn plan_part(
    alloc: Global,
    d: &Drawing<'_>,
    n: u32,
    edit: &Edit,
    pending: usize,
    numbers: &mut Numbers,
    all: &mut Plan,
) -> Result<(), EditFault>
    requires bounded { length d.now.body.items + (length d.now.tail.items + pending) ≤ MOST_DESIGN }
    requires target { target_of edit.now ≡ Some n }
    requires fits { IsEdit edit.now }
    ensures planned { PlansUnless d.now.dim (elements d.now) (length d.now.tail.items + pending) edit.now result all.old all.new }
    ensures known { IsErrOf result EditFault.Memory → n < length (elements d.now) }
{
    d.is_whole();
    if let Some(cause) = unknown(d, n) {
        return Err(EditFault::Refused(cause));
    }
    if let Edit::Copy { by, .. } = edit {
        put_numbers_above(d, n, &mut numbers.above)?;
        return plan_copy(alloc, d, n, by, pending, numbers, &mut all.append);
    }
    plan_in_place(d, n, edit, numbers, &mut all.patches)
}

// Appends the bytes of a copy of the part of element n, which there is, or says what stands against it. `numbers` has
// those of the headers above the part. Where the file would be too long with the copy, none is made to say so.
fn plan_copy(
    alloc: Global,
    d: &Drawing<'_>,
    n: u32,
    by: &Shift,
    pending: usize,
    numbers: &mut Numbers,
    append: &mut ByteList,
) -> Result<(), EditFault>
    requires bounded { length d.now.body.items + (length d.now.tail.items + pending) ≤ MOST_DESIGN }
    requires known { n < length (elements d.now) }
    requires above { lives_of (elements d.now) numbers.old.above.items ≡ above_tree (elements d.now) n }
    ensures { AddsUnless (option_or (part_cause d.now.dim (elements d.now) n)
        (first_of (causes_of d.now.dim (elements d.now) (length d.now.tail.items + pending) (Edit.Copy n by.now))))
        (spelling (flat (tree_copy d.now.dim (elements d.now) by.now n))) result append.old append.new }
{
    d.is_whole();
    let first = part_cause(d, n, &numbers.above).or(other_axes(d.dim(), by.axes));
    if let Some(cause) = first {
        return Err(EditFault::Refused(cause));
    }
    if let Some(long) = growth_cause(d, part_len(d, n), pending) {
        put_live_numbers(d, n, &mut numbers.live)?;
        let cause = move_cause(d, &numbers.live, by).unwrap_or(long);
        return Err(EditFault::Refused(cause));
    }
    copy_tree(alloc, d, n, by, append)
}

// Appends what another edit puts into the part of element n, which there is, and into the headers above it, or says what
// stands against it. Of a part that is one element by itself below no header no numbers are put: no header stands above it,
// and its one live element is itself.
fn plan_in_place(
    d: &Drawing<'_>,
    n: u32,
    edit: &Edit,
    numbers: &mut Numbers,
    patches: &mut PatchList,
) -> Result<(), EditFault>
    requires known { n < length (elements d.now) }
    requires target { target_of edit.now ≡ Some n }
    requires in_place { ChangesInPlace edit.now }
    requires fits { IsEdit edit.now }
    ensures { AddsUnless (option_or (part_cause d.now.dim (elements d.now) n) (first_of (causes_of d.now.dim (elements d.now) 0 edit.now)))
        (part_puts (rule_of d.now.dim edit.now) (elements d.now) n) result patches.old patches.new }
{
    if is_lone_root(d, n) {
        return plan_found(d, n, edit, &[], &[n], patches);
    }
    put_numbers_above(d, n, &mut numbers.above)?;
    put_live_numbers(d, n, &mut numbers.live)?;
    if let Some(cause) = part_cause(d, n, &numbers.above) {
        return Err(EditFault::Refused(cause));
    }
    plan_found(d, n, edit, &numbers.above, &numbers.live, patches)
}

// Appends what such an edit puts into a part that nothing keeps from any edit, and into the headers above it, or says what
// stands against it. `above` has the numbers of these headers, and `live` those of the part's live elements.
fn plan_found(
    d: &Drawing<'_>,
    n: u32,
    edit: &Edit,
    above: &[u32],
    live: &[u32],
    patches: &mut PatchList,
) -> Result<(), EditFault>
    requires known { n < length (elements d.now) }
    requires target { target_of edit.now ≡ Some n }
    requires in_place { ChangesInPlace edit.now }
    requires fits { IsEdit edit.now }
    requires unkept { part_cause d.now.dim (elements d.now) n ≡ None }
    requires above { lives_of (elements d.now) above.now ≡ above_tree (elements d.now) n }
    requires live { lives_of (elements d.now) live.now ≡ live_tree (elements d.now) n }
    ensures { AddsUnless (first_of (causes_of d.now.dim (elements d.now) 0 edit.now)) (part_puts (rule_of d.now.dim edit.now) (elements d.now) n)
        result patches.old patches.new }
{
    if let Some(cause) = edit_cause(d, edit, above, live) {
        return Err(EditFault::Refused(cause));
    }
    push_part(patches, d, n, above, live, edit)
}

// What an appended element comes to.
fn plan_append(
    alloc: Global,
    d: &Drawing<'_>,
    edit: &Edit,
    pending: usize,
    all: &mut Plan,
) -> Result<(), EditFault>
    requires bounded { length d.now.body.items + (length d.now.tail.items + pending) ≤ MOST_DESIGN }
    requires target { target_of edit.now ≡ None }
    requires fits { IsEdit edit.now }
    ensures planned { PlansUnless d.now.dim (elements d.now) (length d.now.tail.items + pending) edit.now result all.old all.new }
    ensures known { IsErrOf result EditFault.Memory → IfSome (target_of edit.now) (λ n. n < length (elements d.now)) }
{
    d.is_whole();
    let Edit::Append(new) = edit else {
        unreachable!()
    };
    if let Some(cause) = append_cause(d, new, pending) {
        return Err(EditFault::Refused(cause));
    }
    let bytes = spelled(alloc, new)?;
    all.append.push_all(&bytes)?;
    Ok(())
}

// The element whose part an edit changes or copies, where it names one.
fn target(edit: &Edit) -> Option<u32>
    ensures { result ≡ target_of edit.now }
{
    match edit {
        Edit::Move { n, .. } | Edit::Copy { n, .. } | Edit::Sym { n, .. } | Edit::Delete { n } =>
            Some(*n),
        Edit::Append(_) => None,
    }
}
