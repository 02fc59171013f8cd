// What the listings of elements and of references say of an element.

ghost use Rattle.std.specs.Prelude.{◌≡◌};
ghost use Rattle.elem_index.specs.Design.{elements};
ghost use Rattle.dgn_listing.specs.ElementTexts.{listed_at};

use elem_head::head;
use level_view::Drawing;

// What is said of an element: its number, the byte at which it begins, how many bytes it has, its type and
// level, whether it has bit C, and whether it is marked deleted itself.
#[derive(Clone, Copy)]
pub(crate) struct Listed {
    pub(crate) number: u32,
    pub(crate) offset: usize,
    pub(crate) size: usize,
    pub(crate) kind: u8,
    pub(crate) level: u8,
    pub(crate) cbit: bool,
    pub(crate) deleted: bool,
}

// What is said of element `n`, where there is one.
pub(crate) fn listed_at(d: &Drawing<'_>, n: u32) -> Option<Listed>
    ensures { result ≡ listed_at (elements d.now) n }
{
    d.is_whole();
    let offset = d.offset(n)?;
    let bytes = d.element(n)?;
    let head = head(bytes);
    Some(Listed {
        number: n,
        offset,
        size: bytes.len(),
        kind: head.kind,
        level: head.level,
        cbit: head.cbit,
        deleted: head.deleted,
    })
}
