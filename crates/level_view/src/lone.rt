// Roots that stand alone.

ghost use Rattle.std.specs.Prelude.{◌≡◌, ◌↔◌, slice_get, option_map, Some, IsNone, IfSome};
ghost use Rattle.dgn_drawing.specs.declared.mask.Mask.{Mask};
ghost use Rattle.dgn_drawing.specs.Faults.{HasNoFaultIn};
ghost use Rattle.dgn_drawing.specs.Nesting.{Leaf};
ghost use Rattle.dgn_drawing.specs.Numbering.{knot_of};
ghost use Rattle.dgn_drawing.specs.Reading.{element_at};
ghost use Rattle.dgn_drawing.specs.Rows.{row_of};
ghost use Rattle.dgn_drawing.specs.Spelling.{spell};
ghost use Rattle.dgn_drawing.specs.Shown.{tree_shown, shown_alone, IsRoot};
ghost use Rattle.elem_index.specs.Design.{elements};

use crate::Drawing;
use nest_tree::Knot;

/// The bytes of the root `n`, where it is a leaf. None exactly where it is a header. What its tree shows is then what
/// the root shows by itself.
pub fn lone_element<'a>(d: &Drawing<'a>, n: u32) -> Option<&'a [u8]>
    requires root { IsRoot row_of (elements d.now) n }
    ensures none { IsNone result ↔ (knot_of row_of (elements d.now) n ≡ Some Leaf → ⊥) }
    ensures bytes { IfSome result (λ b. Some b.now ≡ option_map spell (slice_get (elements d.now) n)) }
    ensures sound { IfSome result (λ b. HasNoFaultIn d.now.dim b.now) }
    ensures shown { IfSome result (λ b. (mask : Mask)
        → tree_shown d.now.dim mask (elements d.now) n ≡ shown_alone d.now.dim mask n 0 (element_at d.now.dim b.now)) }
{
    d.is_whole();
    match d.knot(n) {
        Some(Knot::Leaf) => d.element(n),
        _ => None,
    }
}
