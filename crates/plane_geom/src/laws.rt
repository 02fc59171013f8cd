//! Laws over the definitions that the contracts cite. Each function does nothing; it states one law and
//! is proved.

ghost use Rattle.plane_geom.specs.Laws.{TestTells, SegmentsExchange, EndsExchange, ApartIsUntouched, BesideIsUntouched, WithinIsInBoxes};

/// The test of two segments, as it computes, holds exactly where they have a common point.
pub fn the_test_tells()
    ensures { TestTells }
{}

/// Two segments touch exactly where they touch with the first and the second exchanged.
pub fn segments_exchange()
    ensures { SegmentsExchange }
{}

/// Two segments touch exactly where they touch with the ends of one of them exchanged.
pub fn ends_exchange()
    ensures { EndsExchange }
{}

/// No segment within a box touches one within a box that lies left of it, right of it, below it or
/// above it.
pub fn apart_is_untouched()
    ensures { ApartIsUntouched }
{}

/// No segment within a box touches one on whose line's one side all four corners of the box lie
/// strictly.
pub fn beside_is_untouched()
    ensures { BesideIsUntouched }
{}

/// A point within a polygon lies in each box that holds all its corners.
pub fn within_is_in_boxes()
    ensures { WithinIsInBoxes }
{}
