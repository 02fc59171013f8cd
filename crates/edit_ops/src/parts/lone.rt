// Parts that are one live element by itself, which is then found once.

ghost use Rattle.std.specs.Prelude.{◌≡◌, ◌↔◌, ◌<◌, length, false, Some, None, IfSome, IsNone, IsTrue};
ghost use Rattle.std.specs.Option.{option_to_list};
ghost use Rattle.dgn_drawing.specs.Nesting.{flat, forest};
ghost use Rattle.dgn_drawing.specs.Numbering.{parent_of, first_broken_of};
ghost use Rattle.dgn_drawing.specs.Rows.{row_of};
ghost use Rattle.dgn_drawing.specs.Spelling.{spelling};
ghost use Rattle.elem_index.specs.Design.{elements};
ghost use Rattle.edit_ops.specs.ElementViews.{IsElementView, IsLone};
ghost use Rattle.edit_ops.specs.Trees.{found_at, live_tree, tree_at};
ghost use Rattle.edit_ops.specs.Lone.{IsOnePart, IsLoneRoot};

use crate::parts::live::part_end;
use crate::{ElementView, find};
use level_view::Drawing;

// Element n, which there is, where it is its whole part and isn't marked deleted.
pub fn lone_at<'a>(d: &Drawing<'a>, n: u32) -> Option<ElementView<'a>>
    requires known { n < length (elements d.now) }
    ensures found { IfSome result (IsElementView d.now n) }
    ensures alive { IfSome result (λ f. f.deleted ≡ false) }
    ensures part { IfSome result
        (λ f. spelling (flat (tree_at n (forest row_of (elements d.now)))) ≡ f.bytes.now) }
    ensures live { IfSome result (λ _. live_tree (elements d.now) n ≡ option_to_list (found_at (elements d.now) n)) }
    ensures lone { IfSome result (λ _. IsOnePart (elements d.now) n) }
    ensures not_lone { IsNone result → ¬ IsOnePart (elements d.now) n }
{
    if part_end(d, n) - n != 1 {
        return None;
    }
    let found = find(d, n)?;
    if found.deleted {
        return None;
    }
    Some(found)
}

/// Whether element `n`, which there is, is its whole part, live, and a root that isn't broken. Where it is, nothing keeps
/// it from any edit.
pub fn is_lone_root(d: &Drawing<'_>, n: u32) -> bool
    requires known { n < length (elements d.now) }
    ensures exact { IsTrue result ↔ IsLoneRoot (elements d.now) n }
    ensures free { IsTrue result → IsLone d.now n }
{
    is_sound_root(d, n) && matches!(lone_at(d, n), Some(_))
}

// Whether element n is a root in whose tree no number is broken.
fn is_sound_root(d: &Drawing<'_>, n: u32) -> bool
    ensures root { IsTrue result → parent_of row_of (elements d.now) n ≡ Some None }
    ensures sound { IsTrue result → first_broken_of row_of (elements d.now) n ≡ Some None }
    ensures all { parent_of row_of (elements d.now) n ≡ Some None → first_broken_of row_of (elements d.now) n ≡ Some None
        → IsTrue result }
{
    matches!(d.parent(n), Some(None)) && matches!(d.first_broken(n), Some(None))
}
