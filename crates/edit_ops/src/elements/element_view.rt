ghost use Rattle.std.specs.Prelude.{◌≡◌, ◌+◌, ◌<◌, ◌≤◌, length};
ghost use Rattle.std.specs.List.{AllByRecursion, list_all};
ghost use Rattle.dgn_layout.specs.Spots.{HoldsPoints, spots_of};
ghost use Rattle.dgn_layout.specs.SpotsLeft.{spots_left};
ghost use Rattle.dgn_drawing.specs.SpotNumbers.{sum_at};
ghost use Rattle.dgn_drawing.specs.declared.limits.TheConstants.{MOST_DESIGN};
ghost use Rattle.range_code.specs.Plane.{is_on_plane};

use dgn_drawing::{Shift, spots_in, stays_on_plane};
use dgn_layout::types::Spots;
use level_view::Drawing;

/// What is read of an element.
#[derive(Clone, Copy)]
pub struct ElementView<'a> {
    /// The byte of the body with which it begins, from 0.
    pub place: usize,
    /// Its type, the low seven bits of byte 1.
    pub kind: u8,
    /// Whether it is marked deleted, the high bit of byte 1.
    pub deleted: bool,
    /// Its bytes.
    pub bytes: &'a [u8],

    /// A type is below 128.
    pub ghost kind_fits: { kind < 128 },
    /// It ends within the longest design file.
    pub ghost bounded: { place + length bytes.now ≤ MOST_DESIGN },
}

impl<'a> ElementView<'a> {
    /// Its coordinate fields in the drawing `d`, in the order of its bytes, in which each of them lies. Nothing is
    /// allocated.
    pub fn coordinates(self, d: &Drawing<'_>) -> Spots<'a>
        requires { HoldsPoints d.now.dim self.kind self.bytes.now (length self.bytes.now) }
        ensures spots { spots_left result ≡ spots_of d.now.dim self.entry.kind self.entry.bytes.now }
        ensures within { AllByRecursion (λ s. s.at + 4 ≤ length self.entry.bytes.now)
            (spots_of d.now.dim self.entry.kind self.entry.bytes.now) }
    {
        spots_in(d.dim(), self.kind, self.bytes)
    }

    /// Whether each of its coordinates stays on the design plane where a displacement is added to it.
    pub(crate) fn stays_on_plane(self, d: &Drawing<'_>, by: &Shift) -> bool
        requires { HoldsPoints d.now.dim self.kind self.bytes.now (length self.bytes.now) }
        ensures { result ≡ list_all (λ s. is_on_plane (sum_at by.now self.entry.bytes.now s))
            (spots_of d.now.dim self.entry.kind self.entry.bytes.now) }
    {
        stays_on_plane(d.dim(), self.kind, self.bytes, by)
    }
}
