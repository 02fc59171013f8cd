// Whether one element is what it says it is.

ghost use Rattle.std.specs.Prelude.{◌≡◌, ◌<◌, ◌≤◌, length, IsFalse};
ghost use Rattle.std.specs.Option.{SomeIff};
ghost use Rattle.elem_head.specs.Head.{size_of};
ghost use Rattle.dgn_layout.specs.Classes.{class_of, is_silent};
ghost use Rattle.dgn_layout.specs.Ends.{body_end as end_of};
ghost use Rattle.dgn_layout.specs.declared.types.Class.{Class};
ghost use Rattle.dgn_drawing.specs.Faults.{element_fault, HasNoFault};
ghost use Rattle.dgn_drawing.specs.Nesting.{is_counted, is_header};
ghost use Rattle.dgn_drawing.specs.Rows.{row_at, total_in};
ghost use Rattle.dgn_drawing.specs.WellFormed.{IsDimension};

use crate::body_fault::BodyFault;
use crate::row::Row;
use dgn_layout::{body_end, is_silent};
use elem_head::{attr_start, head};
use group_head::total;

/// Whether the bytes `b` of one whole element hold its body, in 2 or 3 dimensions, and its attribute
/// data begin neither before the body's end nor behind the element's.
///
/// Short comes exactly where they end before the body does, Attr exactly where they aren't Short and
/// break the rule on attribute data. A silent element has neither fault.
#[inline(always)]
pub fn check_elem(dim: u8, b: &[u8]) -> Result<(), BodyFault>
    requires dimension { IsDimension dim }
    requires element { length b.now ≡ size_of b.now }
    ensures { result ≡ element_fault dim b.now }
{
    let kind = head(b).kind;
    if is_silent(kind) {
        return Ok(());
    }
    let Some(end) = end_within(dim, kind, b) else {
        return Err(BodyFault::Short);
    };
    match attr_start(b) {
        Some(start) if start < end || b.len() < start => Err(BodyFault::Attr),
        _ => Ok(()),
    }
}

/// What the nesting looks at in the sound element `b`. The total is 0 where its class isn't counted.
pub fn row_of(b: &[u8]) -> Row
    requires { HasNoFault b.now }
    ensures { result ≡ row_at b.now }
{
    let head = head(b);
    Row {
        size: b.len() as u32,
        kind: head.kind,
        cbit: head.cbit,
        total: counted_total(head.kind, b),
    }
}

// The total of an element of a counted type, 0 for any other.
fn counted_total(kind: u8, b: &[u8]) -> u16
    requires kind { kind < 128 }
    requires total { class_of kind ≡ Class.Counted → 40 ≤ length b.now }
    ensures { result ≡ total_in (class_of kind) b.now }
{
    if is_counted(kind) {
        total(b).unwrap_or(0)
    } else {
        0
    }
}

/// Whether an element of type `kind` is a header that counts its members: whether its class is counted (`dgn_layout`).
pub fn is_counted(kind: u8) -> bool
    ensures { result ≡ is_counted (class_of kind) }
{
    matches!(kind, 2 | 7 | 12 | 14 | 18 | 19)
}

/// Whether elements of type `kind` can have others below them: whether their class is counted or a run (`dgn_layout`).
pub fn is_header(kind: u8) -> bool
    ensures { result ≡ is_header (class_of kind) }
{
    matches!(kind, 2 | 7 | 12 | 14 | 18 | 19 | 24 | 27 | 34)
}

// Where the body of an element ends, of a type that isn't silent. None exactly where the element ends before that.
#[inline(always)]
fn end_within(dim: u8, kind: u8, b: &[u8]) -> Option<usize>
    requires dimension { IsDimension dim }
    requires kind { kind < 128 }
    requires read { IsFalse (is_silent (class_of kind)) }
    ensures { SomeIff result (end_of dim kind b.now ≤ length b.now) (end_of dim kind b.now) }
{
    let end = if dim == 2 {
        body_end::<2>(kind, b)?
    } else {
        body_end::<3>(kind, b)?
    };
    if b.len() < end { None } else { Some(end) }
}
