// What is shown, found from the last element back to the first. The items stand in a list that grows
// towards the front of the drawing, so the item of the least number is its last.

ghost use Rattle.std.specs.Prelude.{◌≡◌, ◌++◌, reverse, OnOk};
ghost use Rattle.std.specs.Option.{option_to_list};
ghost use Rattle.dgn_drawing.specs.Faults.{HasNoFaultIn};
ghost use Rattle.dgn_drawing.specs.Reading.{element_at};
ghost use Rattle.dgn_drawing.specs.Shown.{shown_alone};
ghost use Rattle.level_view.specs.Back.{begins_below, past, with_group, with_element};

use crate::Drawing;
use crate::alone::shown_alone;
use crate::place::Place;
use dgn_drawing::types::Item;
use dgn_drawing::{Mask, item};
use elem_head::head;
use nest_tree::Knot;
use std::alloc::{AllocError, Global};

// Whether the item of the least number has one below `end`.
fn begins_below(items: &[Item], end: u32) -> bool
    ensures { result ≡ begins_below end (reverse items.now) }
{
    match items.last() {
        Some(item) => item.number < end,
        None => false,
    }
}

// Takes away the items with numbers below `end`.
fn cut_back(items: &mut Vec<Item>, end: u32)
    ensures { reverse items.new.items ≡ past end (reverse items.old.items) }
{
    while begins_below(items, end) {
        items.pop();
    }
}

// Puts the item, where there is one, before the others.
fn put_first(items: &mut Vec<Item>, found: Option<Item>) -> Result<(), AllocError>
    ensures { OnOk result (reverse items.new.items ≡ option_to_list found ++ reverse items.old.items) }
{
    if let Some(item) = found {
        items.push(item)?;
    }
    Ok(())
}

// Adds the header of a group to what its members show, if they show anything.
fn add_group(
    alloc: Global,
    d: &Drawing<'_>,
    place: Place<'_>,
    items: &mut Vec<Item>,
) -> Result<(), AllocError>
    requires sound { HasNoFaultIn d.now.dim place.bytes.now }
    ensures { OnOk result (reverse items.new.items
        ≡ with_group d.now.dim place.entry.number place.entry.depth place.entry.end (element_at d.now.dim place.entry.bytes.now) (reverse items.old.items)) }
{
    if head(place.bytes).deleted {
        cut_back(items, place.end);
        return Ok(());
    }
    if !begins_below(items, place.end) {
        return Ok(());
    }
    put_first(
        items,
        item(alloc, d.dim(), place.number, place.depth, place.bytes)?,
    )
}

// Puts the header of a run in the place of what its parts show.
fn add_run(
    alloc: Global,
    d: &Drawing<'_>,
    mask: Mask,
    place: Place<'_>,
    items: &mut Vec<Item>,
) -> Result<(), AllocError>
    requires sound { HasNoFaultIn d.now.dim place.bytes.now }
    ensures { OnOk result (reverse items.new.items
        ≡ shown_alone d.now.dim mask place.entry.number place.entry.depth (element_at d.now.dim place.entry.bytes.now)
        ++ past place.entry.end (reverse items.old.items)) }
{
    cut_back(items, place.end);
    put_first(items, shown_alone(alloc, d, mask, place)?)
}

// Adds an element to what the elements behind it show.
pub(crate) fn add(
    alloc: Global,
    d: &Drawing<'_>,
    mask: Mask,
    place: Place<'_>,
    items: &mut Vec<Item>,
) -> Result<(), AllocError>
    requires sound { HasNoFaultIn d.now.dim place.bytes.now }
    ensures { OnOk result (reverse items.new.items
        ≡ with_element d.now.dim mask place.entry.knot place.entry.number place.entry.depth place.entry.end (element_at d.now.dim place.entry.bytes.now)
        (reverse items.old.items)) }
{
    match place.knot {
        Knot::Leaf => put_first(items, shown_alone(alloc, d, mask, place)?),
        Knot::Group => add_group(alloc, d, place, items),
        Knot::Run => add_run(alloc, d, mask, place, items),
        Knot::Loose => Ok(()),
    }
}
