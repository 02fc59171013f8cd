// What `audit` says: a line for each element whose stored range isn't its hull, and how many there are.

ghost use Rattle.dgn_listing.specs.Lines.{field_text, Appends};
ghost use Rattle.dgn_listing.specs.FindingTexts.{corners_text, finding_line, finding_lines, findings_text};

use crate::items::put_point;
use crate::pieces::{put, put_ending, put_field};
use dgn_audit::Finding;
use range_code::Box3;
use std::alloc::{AllocError, Global};

/// Appends what `audit` says of the findings: a line for each, in their order, and `audit K` with their number.
///
/// A line is the element's number, the low and the high corner of its stored range, and the low and the high corner of its
/// hull. Where there is no memory, `out` has grown by a front of that text.
pub fn write_findings(alloc: Global, out: &mut Vec<u8>, list: &[Finding]) -> Result<(), AllocError>
    ensures { Appends result (findings_text list.now) out.old.items out.new.items }
{
    put_finding_lines(out, list)?;
    put_ending(out, b"audit", list.len())
}

// Appends the lines of findings.
fn put_finding_lines(out: &mut Vec<u8>, list: &[Finding]) -> Result<(), AllocError>
    ensures { Appends result (finding_lines list.now) out.old.items out.new.items }
{
    for finding in list {
        put_finding(out, finding)?;
    }
    Ok(())
}

// Appends the line of a finding.
fn put_finding(out: &mut Vec<u8>, finding: &Finding) -> Result<(), AllocError>
    ensures { Appends result (finding_line finding.now) out.old.items out.new.items }
{
    put_its_number(out, finding.number)?;
    put_corners(out, finding.axes, &finding.stored)?;
    put(out, b" ")?;
    put_corners(out, finding.axes, &finding.hull)?;
    put(out, b"\n")
}

// Appends the number of an element, and a blank.
fn put_its_number(out: &mut Vec<u8>, n: u32) -> Result<(), AllocError>
    ensures { Appends result (field_text n) out.old.items out.new.items }
{
    put_field(out, u64::from(n))
}

// Appends the low and the high corner of a box.
fn put_corners(out: &mut Vec<u8>, axes: u8, r: &Box3) -> Result<(), AllocError>
    ensures { Appends result (corners_text axes r.now) out.old.items out.new.items }
{
    put_point(out, axes, &r.lo)?;
    put(out, b" ")?;
    put_point(out, axes, &r.hi)
}
