// Sides, segments and polygons at known places, the ends of the design plane among them.

use plane_geom::*;
use std::alloc::{AllocError, Global};
use std::test::Fail;

// The ends of the design plane on each axis.
const LOW: i32 = -2147483648;

const HIGH: i32 = 2147483647;

fn at(x: i32, y: i32) -> Pt {
    Pt { x, y }
}

#[test]
fn sides(rt: HostRuntime) {
    let rows = [
        (at(0, 0), at(10, 0), at(5, 1), 1),
        (at(0, 0), at(10, 0), at(5, -1), -1),
        (at(0, 0), at(10, 0), at(15, 0), 0),
        (at(3, 3), at(3, 3), at(0, 9), 0),
        (at(LOW, LOW), at(HIGH, HIGH), at(LOW, HIGH), 1),
        (at(LOW, LOW), at(HIGH, HIGH), at(HIGH, LOW), -1),
        (at(LOW, LOW), at(HIGH, HIGH), at(0, 1), 1),
    ];
    for (a, b, p, wanted) in rows {
        assert!(rt; side(a, b, p) == wanted);
    }
}

#[test]
fn segments(rt: HostRuntime) {
    let rows = [
        // In one line: overlapping, end to end by a corner, apart, and apart on a slope.
        (at(0, 0), at(10, 0), at(5, 0), at(15, 0), true),
        (at(0, 0), at(10, 0), at(10, 0), at(10, 5), true),
        (at(0, 0), at(10, 0), at(11, 0), at(15, 0), false),
        (at(0, 0), at(3, 3), at(4, 4), at(9, 9), false),
        // Points: on a segment, beside it, and two of them.
        (at(3, 3), at(3, 3), at(0, 0), at(6, 6), true),
        (at(3, 4), at(3, 4), at(0, 0), at(6, 6), false),
        (at(3, 3), at(3, 3), at(3, 3), at(3, 3), true),
        // The common point has no whole coordinates; boxes that meet without one.
        (at(0, 0), at(1, 1), at(0, 1), at(1, 0), true),
        (at(0, 0), at(10, 10), at(6, 5), at(9, 0), false),
        (at(LOW, LOW), at(HIGH, HIGH), at(0, 0), at(0, 0), true),
        (at(LOW, LOW), at(HIGH, HIGH), at(0, 1), at(0, 1), false),
    ];
    for (p, q, r, s, wanted) in rows {
        assert!(rt; touch(p, q, r, s) == wanted);
        assert!(rt; touch(s, r, q, p) == wanted);
    }
}

#[test]
fn points_within(rt: HostRuntime) {
    let square = [at(0, 0), at(10, 0), at(10, 10), at(0, 10)];
    // Inside, outside on either hand, then on the lower, the upper, the left and the right edge.
    let by_square = [
        (at(5, 5), true),
        (at(-5, 5), false),
        (at(15, 5), false),
        (at(5, 0), true),
        (at(5, 10), false),
        (at(0, 5), true),
        (at(10, 5), false),
    ];
    for (p, wanted) in by_square {
        assert!(rt; within(p, &square) == wanted);
    }
    // Level with the right corner inside and outside, with the lower corner and with the upper one.
    let diamond = [at(10, 0), at(20, 10), at(10, 20), at(0, 10)];
    let by_diamond = [
        (at(10, 10), true),
        (at(-5, 10), false),
        (at(0, 0), false),
        (at(0, 20), false),
    ];
    for (p, wanted) in by_diamond {
        assert!(rt; within(p, &diamond) == wanted);
    }
    let plane = [at(LOW, LOW), at(HIGH, LOW), at(HIGH, HIGH), at(LOW, HIGH)];
    for (p, wanted) in [(at(0, 0), true), (at(LOW, LOW), true), (at(HIGH, 0), false)] {
        assert!(rt; within(p, &plane) == wanted);
    }
    assert!(rt; !within(at(0, 0), &[]));
}

// A list of these points, put behind each other.
fn listed(alloc: Global, points: &[Pt]) -> Result<PtList, AllocError> {
    let mut list = PtList::new(alloc);
    for point in points {
        list.push(*point)?;
    }
    Ok(list)
}

// A list has the points that it was given, the first first.
#[test]
fn points_of_a_list(rt: HostRuntime) -> Result<(), Fail> {
    let points = [at(LOW, HIGH), at(0, 0), at(LOW, HIGH)];
    let list = listed(rt.alloc(), &points)?;
    assert!(rt; list.as_slice() == points.as_slice());
    Ok(())
}
