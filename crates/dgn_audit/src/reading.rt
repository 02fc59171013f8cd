// The hulls of the elements of a part, found from the last element back to the first. Both lists grow towards the front of the
// drawing, so what is least stands last.

ghost use Rattle.std.specs.Prelude.{◌≡◌, ◌<◌, ◌≤◌, ◌∷◌, ◌++◌, length, reverse, vec_len, vec_capacity, Some, OnOk, IfOk, IfSome};
ghost use Rattle.elem_index.specs.Design.{elements};
ghost use Rattle.dgn_audit.specs.Hulls.{hull_join};
ghost use Rattle.dgn_audit.specs.Reading.{is_kept_read, finding_read};
ghost use Rattle.dgn_audit.specs.Findings.{findings_of};
ghost use Rattle.dgn_audit.specs.OpenBoxes.{box_for, without, with_hull, with_hulls, begins_below, past};
ghost use Rattle.dgn_audit.specs.NestedElements.{bounds_of};

use crate::finding::Finding;
use crate::hulls::{hull_of, is_fitted};
use crate::nested_element::{NestedElement, nested_at};
use crate::open_box::OpenBox;
use crate::reported::Reported;
use crate::stored::{same_box, stored_range};
use level_view::Drawing;
use nest_tree::Knot;
use range_code::{Box3, join};
use std::alloc::{AllocError, Global};

// The most boxes that are open at once: they are those of different headers above one element, and no element lies more
// than 3278 below a root (`no_element_lies_deep` of `nest_tree`).
const MOST_OPEN: usize = 3278;

// Takes away the box of header `n`, if it is the first one.
fn take_box(boxes: &mut Vec<OpenBox>, n: u32) -> Option<Box3>
    ensures found { result ≡ box_for n (reverse boxes.old.items) }
    ensures left { reverse boxes.new.items ≡ without n (reverse boxes.old.items) }
    ensures capacity { vec_capacity boxes.new ≡ vec_capacity boxes.old }
{
    match boxes.last() {
        Some(last) if last.header == n => {
            let hull = last.hull;
            boxes.pop();
            Some(hull)
        }
        _ => None,
    }
}

// Puts a box before the others, where there is room.
fn push_box(boxes: &mut Vec<OpenBox>, one: OpenBox)
    requires { vec_len boxes.old < vec_capacity boxes.old }
    ensures first { reverse boxes.new.items ≡ one ∷ reverse boxes.old.items }
    ensures capacity { vec_capacity boxes.new ≡ vec_capacity boxes.old }
{
    boxes.push_reserved(one);
}

// The least box that holds a box, and one that is held already, if there is one.
fn wider(hull: Box3, held: Option<Box3>) -> Box3
    ensures { Some result ≡ hull_join (Some hull) held }
{
    match held {
        Some(held) => join(hull, held),
        None => hull,
    }
}

// Makes the box of header `p` hold a box too.
fn add_to(boxes: &mut Vec<OpenBox>, p: u32, hull: Box3)
    requires { length (with_hull p hull (reverse boxes.old.items)) ≤ vec_capacity boxes.old }
    ensures held { reverse boxes.new.items ≡ with_hull p hull (reverse boxes.old.items) }
    ensures capacity { vec_capacity boxes.new ≡ vec_capacity boxes.old }
{
    let hull = wider(hull, take_box(boxes, p));
    push_box(boxes, OpenBox { header: p, hull });
}

// Makes the box of the header that an element stands below, if it does, hold a box too.
fn add_hull(boxes: &mut Vec<OpenBox>, parent: Option<u32>, hull: Box3)
    requires { length (with_hulls parent (Some hull) (reverse boxes.old.items)) ≤ vec_capacity boxes.old }
    ensures held { reverse boxes.new.items ≡ with_hulls parent (Some hull) (reverse boxes.old.items) }
    ensures capacity { vec_capacity boxes.new ≡ vec_capacity boxes.old }
{
    if let Some(p) = parent {
        add_to(boxes, p, hull);
    }
}

// Whether the least of what is told has a number below `end`.
fn begins_below(noted: &[Finding], end: u32) -> bool
    ensures { result ≡ begins_below end (reverse noted.now) }
{
    match noted.last() {
        Some(least) => least.number < end,
        None => false,
    }
}

// Takes away what is told of numbers below `end`.
fn cut_below(noted: &mut Vec<Finding>, end: u32)
    ensures { reverse noted.new.items ≡ past end (reverse noted.old.items) }
{
    while begins_below(noted, end) {
        noted.pop();
    }
}

// Whether an element with that stored range and that hull is kept.
fn is_kept(keep: Reported, nested: NestedElement<'_>, stored: Box3, hull: Box3) -> bool
    ensures { result ≡ is_kept_read keep nested.entry.knot nested.entry.view.kind stored hull }
{
    match keep {
        Reported::Fitted => is_fitted(nested.knot, nested.view),
        Reported::Differing => !same_box(stored, hull),
    }
}

// Tells of element `n`, where it is kept.
fn tell(
    d: &Drawing<'_>,
    keep: Reported,
    n: u32,
    nested: NestedElement<'_>,
    hull: Box3,
    noted: &mut Vec<Finding>,
) -> Result<(), AllocError>
    requires long_enough { 36 ≤ length nested.view.bytes.now }
    ensures { OnOk result (reverse noted.new.items
        ≡ finding_read keep d.now.dim nested.entry.knot n nested.entry.view.kind nested.entry.view.bytes.now hull ++ reverse noted.old.items) }
{
    let stored = stored_range(d, nested.view.bytes);
    if is_kept(keep, nested, stored, hull) {
        noted.push(Finding {
            number: n,
            axes: d.dim(),
            stored,
            hull,
        })?;
    }
    Ok(())
}

// The numbers of the first element of the part of element `n` and behind its last one, or of the whole drawing where none is
// named.
fn bounds(d: &Drawing<'_>, part: Option<u32>) -> (u32, u32)
    requires known { IfSome part (λ n. n < length (elements d.now)) }
    ensures { result ≡ bounds_of (elements d.now) part }
{
    let Some(n) = part else {
        return (0, d.count());
    };
    let Some(span) = d.span(n) else {
        unreachable!()
    };
    span
}

// What is told of the part of element `n`, or of the whole drawing where none is named, the last element first. A box is held
// for each header above the element that is being read of which a member with a hull has been read. The room for as many as
// can be open is taken once.
pub(crate) fn read_part(
    alloc: Global,
    d: &Drawing<'_>,
    part: Option<u32>,
    keep: Reported,
) -> Result<Vec<Finding>, AllocError>
    requires known { IfSome part (λ n. n < length (elements d.now)) }
    ensures { IfOk result (λ noted. reverse noted.items ≡ findings_of keep d.now.dim (elements d.now) part) }
{
    d.is_whole();
    let (first, end) = bounds(d, part);
    let mut boxes = Vec::with_capacity(alloc, MOST_OPEN)?;
    let mut noted = Vec::new(alloc);
    for n in (first..end).rev() {
        let nested = nested_at(d, n);
        let members = take_box(&mut boxes, n);
        if nested.view.deleted {
            cut_below(&mut noted, nested.end);
            continue;
        }
        if let Some(hull) = hull_of(d, nested.knot, nested.view, members) {
            add_hull(&mut boxes, nested.parent, hull);
            tell(d, keep, n, nested, hull, &mut noted)?;
        }
    }
    Ok(noted)
}
