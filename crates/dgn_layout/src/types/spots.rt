// The coordinate fields of an element, one after the other.

ghost use Rattle.std.specs.Prelude.{◌≡◌, ◌+◌, ◌*◌, ◌<◌, ◌≤◌, ◌^◌, ◌++◌};
ghost use Rattle.std.specs.Iterator.{YieldsFirst, item_count};

use crate::spot::Spot;
use crate::types::Points;

/// The coordinate fields of an element that are still to come. A contract sees them as the list
/// `spots_left`.
#[derive(Debug, Drop)]
pub struct Spots<'a> {
    // Those at fixed places.
    fixed: &'a [Spot],
    // What is left of one point behind them: where its next field stands, the axis of that one, and how many
    // fields there are.
    at: u32,
    axis: u8,
    left: u8,
    // The points that are still to come behind it.
    points: Points,
    ghost axes: { axis + left ≤ 3 },
    ghost place: { at + 4 * left ≤ 2 ^ 20 },
}

impl<'a> Spots<'a> {
    ghost use Rattle.std.specs.Prelude.{[], length};
    ghost use Rattle.dgn_layout.specs.Spots.{points_spots};
    ghost use Rattle.dgn_layout.specs.SpotsLeft.{spots_left};

    /// How many coordinate fields are still to come.
    pub fn len(&self) -> usize
        ensures { result ≡ length (spots_left self.now) }
    {
        let points = self.points.count as usize * usize::from(self.points.axes);
        self.fixed.len() + usize::from(self.left) + points
    }

    // These at fixed places, and then these points.
    pub(crate) fn new(fixed: &'a [Spot], points: Points) -> Self
        ensures { spots_left result ≡ fixed.now ++ points_spots points.count points.axes points.start }
    {
        Spots {
            fixed,
            at: 0,
            axis: 0,
            left: 0,
            points,
        }
    }

    // Goes on to the next point, if there is one, where no field of this one is left.
    fn go_on(&mut self)
        requires { self.old.fixed.now ≡ [] }
        ensures fixed { self.new.fixed.now ≡ [] }
        ensures same { spots_left self.new ≡ spots_left self.old }
        ensures end { self.new.left ≡ 0 → spots_left self.new ≡ [] }
    {
        if self.left == 0 && self.points.count > 0 {
            self.at = self.points.start;
            self.axis = 0;
            self.left = self.points.axes;
            self.points.count -= 1;
            self.points.start += self.points.stride;
        }
    }
}

impl Iterator for Spots<'_> {
    ghost use Rattle.dgn_layout.specs.SpotsLeft.{spots_left};

    type Item = Spot;

    ghost next_gives = { YieldsFirst spots_left };

    ghost remaining = { item_count spots_left };

    #[tactic(auto, using(crate::proofs::PointsLeft::next_left))]
    fn next(&mut self) -> Option<Spot> {
        if let Some((spot, rest)) = self.fixed.split_first() {
            self.fixed = rest;
            return Some(*spot);
        }
        self.go_on();
        if self.left == 0 {
            return None;
        }
        let spot = Spot {
            at: self.at,
            axis: self.axis,
            offset: false,
        };
        self.at += 4;
        self.axis += 1;
        self.left -= 1;
        Some(spot)
    }
}
