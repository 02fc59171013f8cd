// What an element shows by itself.

ghost use Rattle.std.specs.Prelude.{◌≡◌, IfOk};
ghost use Rattle.std.specs.Option.{option_to_list};
ghost use Rattle.dgn_drawing.specs.Faults.{HasNoFaultIn};
ghost use Rattle.dgn_drawing.specs.Reading.{element_at};
ghost use Rattle.dgn_drawing.specs.Shown.{shown_alone};

use crate::Drawing;
use crate::place::Place;
use dgn_drawing::types::Item;
use dgn_drawing::{Mask, item};
use elem_head::head;
use std::alloc::{AllocError, Global};

// Its item, where it has one, unless it is marked deleted or the mask hides its level.
pub(crate) fn shown_alone(
    alloc: Global,
    d: &Drawing<'_>,
    mask: Mask,
    place: Place<'_>,
) -> Result<Option<Item>, AllocError>
    requires sound { HasNoFaultIn d.now.dim place.bytes.now }
    ensures { IfOk result (λ found. option_to_list found
        ≡ shown_alone d.now.dim mask place.entry.number place.entry.depth (element_at d.now.dim place.entry.bytes.now)) }
{
    let head = head(place.bytes);
    if head.deleted || !mask.shows(head.level) {
        return Ok(None);
    }
    item(alloc, d.dim(), place.number, place.depth, place.bytes)
}
