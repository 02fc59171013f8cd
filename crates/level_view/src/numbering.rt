// The numbers of what is shown, found from the last element back to the first. No item is made. The numbers stand in a
// list that grows towards the front of the drawing, so the least is its last.

ghost use Rattle.std.specs.Prelude.{◌≡◌, ◌<◌, ◌++◌, reverse, OnOk};
ghost use Rattle.dgn_drawing.specs.Faults.{HasNoFaultIn};
ghost use Rattle.dgn_drawing.specs.Reading.{element_at};
ghost use Rattle.level_view.specs.Numbers.{alone_if, has_item, is_alone, first_below, numbers_past, with_group_number, with_number};

use crate::place::Place;
use dgn_drawing::Mask;
use dgn_layout::{SHARED_CELL, is_silent};
use elem_head::head;
use nest_tree::Knot;
use std::alloc::AllocError;

// Whether an element of that type has an item.
fn has_item(kind: u8) -> bool
    requires { kind < 128 }
    ensures { result ≡ has_item kind }
{
    !is_silent(kind) && kind != SHARED_CELL
}

// Whether an element shows its item by itself: where it has one, unless it is marked deleted or the mask hides its level.
fn is_alone(_dim: u8, mask: Mask, b: &[u8]) -> bool
    requires { HasNoFaultIn _dim b.now }
    ensures { result ≡ is_alone mask (element_at _dim b.now) }
{
    let head = head(b);
    if head.deleted || !mask.shows(head.level) {
        return false;
    }
    has_item(head.kind)
}

// Whether the least of the numbers is below `end`.
fn first_below(numbers: &[u32], end: u32) -> bool
    ensures { result ≡ first_below end (reverse numbers.now) }
{
    match numbers.last() {
        Some(number) => *number < end,
        None => false,
    }
}

// Takes away the numbers below `end`.
fn cut_below(numbers: &mut Vec<u32>, end: u32)
    ensures { reverse numbers.new.items ≡ numbers_past end (reverse numbers.old.items) }
{
    while first_below(numbers, end) {
        numbers.pop();
    }
}

// Puts a number before the others, or none.
fn put_number(numbers: &mut Vec<u32>, number: u32, shown: bool) -> Result<(), AllocError>
    ensures { OnOk result (reverse numbers.new.items ≡ alone_if shown number ++ reverse numbers.old.items) }
{
    if shown {
        numbers.push(number)?;
    }
    Ok(())
}

// Adds the number of a group's header to those of what its members show, if they show anything.
fn add_group(_dim: u8, place: Place<'_>, numbers: &mut Vec<u32>) -> Result<(), AllocError>
    requires { HasNoFaultIn _dim place.bytes.now }
    ensures { OnOk result (reverse numbers.new.items
        ≡ with_group_number place.entry.number place.entry.end (element_at _dim place.entry.bytes.now) (reverse numbers.old.items)) }
{
    let head = head(place.bytes);
    if head.deleted {
        cut_below(numbers, place.end);
        return Ok(());
    }
    let shown = first_below(numbers, place.end) && has_item(head.kind);
    put_number(numbers, place.number, shown)
}

// Puts the number of a run's header in the place of those of what its parts show.
fn add_run(_dim: u8, mask: Mask, place: Place<'_>, numbers: &mut Vec<u32>) -> Result<(), AllocError>
    requires { HasNoFaultIn _dim place.bytes.now }
    ensures { OnOk result (reverse numbers.new.items ≡ alone_if (is_alone mask (element_at _dim place.entry.bytes.now)) place.entry.number
        ++ numbers_past place.entry.end (reverse numbers.old.items)) }
{
    cut_below(numbers, place.end);
    put_number(numbers, place.number, is_alone(_dim, mask, place.bytes))
}

// Adds the number of an element, where it is shown, to those of what the elements behind it show.
pub(crate) fn add_number(
    dim: u8,
    mask: Mask,
    place: Place<'_>,
    numbers: &mut Vec<u32>,
) -> Result<(), AllocError>
    requires { HasNoFaultIn dim place.bytes.now }
    ensures { OnOk result (reverse numbers.new.items
        ≡ with_number mask place.entry.knot place.entry.number place.entry.end (element_at dim place.entry.bytes.now) (reverse numbers.old.items)) }
{
    match place.knot {
        Knot::Leaf => {
            let shown = is_alone(dim, mask, place.bytes);
            put_number(numbers, place.number, shown)
        }
        Knot::Group => add_group(dim, place, numbers),
        Knot::Run => add_run(dim, mask, place, numbers),
        Knot::Loose => Ok(()),
    }
}
