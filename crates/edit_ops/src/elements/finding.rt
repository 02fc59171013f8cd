ghost use Rattle.std.specs.Prelude.{◌≡◌, slice_get, None, IfSome, IfNone};
ghost use Rattle.elem_index.specs.Design.{elements};
ghost use Rattle.edit_ops.specs.ElementViews.{IsElementView};

use crate::ElementView;
use elem_head::head;
use level_view::Drawing;

/// Element `n` of the drawing `d`, from 0, or None where there is none.
pub fn find<'a>(d: &Drawing<'a>, n: u32) -> Option<ElementView<'a>>
    ensures found { IfSome result (IsElementView d.now n) }
    ensures none { IfNone result (slice_get (elements d.now) n ≡ None) }
{
    d.is_whole();
    let place = d.offset(n)?;
    let bytes = d.element(n)?;
    let head = head(bytes);
    Some(ElementView {
        place,
        kind: head.kind,
        deleted: head.deleted,
        bytes,
    })
}
