ghost use Rattle.std.specs.Prelude.{◌≡◌, ◌+◌, ◌≤◌, ◌++◌, length};
ghost use Rattle.dgn_drawing.specs.declared.edit.Edit.{Edit};
ghost use Rattle.elem_index.specs.Design.{elements};
ghost use Rattle.edit_ops.specs.Applying.{ChangesInPlace};
ghost use Rattle.edit_ops.specs.Asked.{causes_asked};
ghost use Rattle.edit_ops.specs.Causes.{first_cause, too_long, first_of, causes_of, target_of};
ghost use Rattle.edit_ops.specs.Trees.{above_of, live_of};
ghost use Rattle.edit_ops.specs.Written.{lives_of};

use crate::{Cause, Test, first_cause, other_axes, silent, too_long};
use dgn_drawing::{Edit, MOST_DESIGN, New, size_made};
use level_view::Drawing;

// What is against an edit of a part where it stands, which nothing keeps from any edit, but for a live element that would
// leave the design plane, which the sums tell: `above` has the numbers of the headers above the part, and `live` those of
// its live elements.
pub fn edit_cause(d: &Drawing<'_>, edit: &Edit, above: &[u32], live: &[u32]) -> Option<Cause>
    requires in_place { ChangesInPlace edit.now }
    requires above { lives_of (elements d.now) above.now ≡ above_of (elements d.now) (target_of edit.now) }
    requires live { lives_of (elements d.now) live.now ≡ live_of (elements d.now) (target_of edit.now) }
    ensures { result ≡ first_of (causes_asked d.now.dim (elements d.now) edit.now) }
{
    match edit {
        Edit::Move { by, .. } => locked(d, above, live)
            .or(other_axes(d.dim(), by.axes))
            .or(first_cause(d, above, &Test::Widens))
            .or(first_cause(d, live, &Test::Moves)),
        Edit::Sym { .. } => locked(d, above, live).or(first_cause(d, live, &Test::Looks)),
        Edit::Delete { n } => locked(d, above, live)
            .or(silent(d, *n))
            .or(first_cause(d, live, &Test::Marks)),
        Edit::Copy { .. } | Edit::Append(_) => unreachable!(),
    }
}

// What is against an element that is appended. `pending` is how many bytes are to be appended already.
pub fn append_cause(d: &Drawing<'_>, new: &New, pending: usize) -> Option<Cause>
    requires bounded { length d.now.body.items + (length d.now.tail.items + pending) ≤ MOST_DESIGN }
    ensures { result ≡ first_of
        (causes_of d.now.dim (elements d.now) (length d.now.tail.items + pending) (Edit.Append new.now)) }
{
    d.is_whole();
    other_axes(d.dim(), new.axes).or(growth_cause(d, size_made(new), pending))
}

// The file would be too long with so many bytes more.
pub fn growth_cause(d: &Drawing<'_>, appended: usize, pending: usize) -> Option<Cause>
    requires appended_bounded { appended ≤ MOST_DESIGN }
    requires bounded { length d.now.body.items + (length d.now.tail.items + pending) ≤ MOST_DESIGN }
    ensures { result ≡ too_long
        (length d.now.body.items + (length d.now.tail.items + pending) + appended) }
{
    too_long(d.body().len() + (d.tail().len() + pending) + appended)
}

// A header above a part, or a live element of it, is locked.
fn locked(d: &Drawing<'_>, above: &[u32], live: &[u32]) -> Option<Cause>
    ensures { result ≡ first_cause d.now.dim Test.Unlocked
        (lives_of (elements d.now) above.now ++ lives_of (elements d.now) live.now) }
{
    first_cause(d, above, &Test::Unlocked).or(first_cause(d, live, &Test::Unlocked))
}
