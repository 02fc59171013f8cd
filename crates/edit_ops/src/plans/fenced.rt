ghost use Rattle.std.specs.Prelude.{◌≡◌, ◌+◌, ◌<◌, ◌≤◌, [], length, IfOk, IfErr, IsErrOf};
ghost use Rattle.elem_index.specs.Design.{elements};
ghost use Rattle.edit_ops.specs.Fenced.{edit_at, apply_all, AreRoots, IsFenceEdit};
ghost use Rattle.edit_ops.specs.Planned.{IsFencePlan, IsRefused, PlansUnless};

use crate::EditFault;
use crate::plans::edit::plan_behind;
use crate::plans::numbers::{Numbers, no_numbers};
use crate::types::Plan;
use crate::values::{is_fence_edit, same_look, same_shift};
use dgn_drawing::{Edit, FenceEdit, MOST_DESIGN};
use level_view::Drawing;
use patch_bytes::{ByteList, PatchList};
use std::alloc::Global;

/// What an edit of the trees of these roots comes to on the drawing `d`. `roots` are the
/// numbers of some of its roots, in file order.
///
/// Each root is edited as `plan` says, on the design as it was, where the bytes that the roots before it append are
/// pending. Refused comes exactly with the first cause of the first root that has one, and then nothing is planned.
/// Otherwise the plan has the patches of all roots in their order, and the bytes that each appends, one behind the
/// other. Of no root it is a plan without either.
///
/// It takes the time of the trees that it edits. Memory says that there was none for the plan of some root.
pub fn plan_all(
    alloc: Global,
    d: &Drawing<'_>,
    roots: &[u32],
    edit: &FenceEdit,
) -> Result<Plan, EditFault>
    requires roots { AreRoots (elements d.now) roots.now }
    ensures planned { IfOk result
        (IsFencePlan d.now.dim (elements d.now) (length d.now.tail.items) edit.now roots.now) }
    ensures kept { IfOk result (λ _. IsFenceEdit edit.now) }
    ensures refused { IfErr result
        (IsRefused (apply_all d.now.dim (elements d.now) (length d.now.tail.items) edit.now roots.now)) }
    ensures memory { IsErrOf result EditFault.Memory → 0 < length roots.now }
{
    is_fence_edit(edit);
    let mut all = Plan {
        patches: PatchList::new(alloc),
        append: ByteList::new(alloc),
    };
    join_plans(alloc, d, roots, edit, &mut all)?;
    Ok(all)
}

// Joins the plans of these roots to `all`, in which nothing is planned yet.
fn join_plans(
    alloc: Global,
    d: &Drawing<'_>,
    roots: &[u32],
    edit: &FenceEdit,
    all: &mut Plan,
) -> Result<(), EditFault>
    requires roots { AreRoots (elements d.now) roots.now }
    requires fits { IsFenceEdit edit.now }
    requires no_patches { all.old.patches ≡ [] }
    requires no_bytes { all.old.append ≡ [] }
    ensures planned { IfOk result
        (λ _. IsFencePlan d.now.dim (elements d.now) (length d.now.tail.items) edit.now roots.now all.new) }
    ensures refused { IfErr result
        (IsRefused (apply_all d.now.dim (elements d.now) (length d.now.tail.items) edit.now roots.now)) }
    ensures memory { IsErrOf result EditFault.Memory → 0 < length roots.now }
{
    d.is_whole();
    let mut numbers = no_numbers(alloc);
    'roots: for n in roots {
        join_root(alloc, d, *n, edit, &mut numbers, all)?;
    }
    Ok(())
}

// Joins the plan of root n, for which the bytes that `all` appends are pending.
fn join_root(
    alloc: Global,
    d: &Drawing<'_>,
    n: u32,
    edit: &FenceEdit,
    numbers: &mut Numbers,
    all: &mut Plan,
) -> Result<(), EditFault>
    requires bounded { length d.now.body.items + (length d.now.tail.items + length all.old.append) ≤ MOST_DESIGN }
    ensures { PlansUnless d.now.dim (elements d.now) (length d.now.tail.items + length all.old.append) (edit_at edit.now n) result all.old all.new }
{
    let pending = all.append.len();
    plan_behind(alloc, d, &root_edit(edit, n), pending, numbers, all)
}

// The edit of root n.
fn root_edit(edit: &FenceEdit, n: u32) -> Edit
    ensures { result ≡ edit_at edit.now n }
{
    match edit {
        FenceEdit::Move(by) => Edit::Move {
            n,
            by: same_shift(by),
        },
        FenceEdit::Copy(by) => Edit::Copy {
            n,
            by: same_shift(by),
        },
        FenceEdit::Sym(change) => Edit::Sym {
            n,
            change: same_look(change),
        },
        FenceEdit::Delete => Edit::Delete { n },
    }
}
