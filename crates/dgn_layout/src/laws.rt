//! Laws over the definitions that the contracts cite. Each function does nothing; it states one law and
//! is proved.

ghost use Rattle.dgn_layout.specs.Laws.{BodiesHoldPoints, SpotsRise, RisingSpotsAreApart, NoSpotsElsewhere};

/// An element that doesn't end before its body does holds its points.
pub fn bodies_hold_points()
    ensures { BodiesHoldPoints }
{}

/// The coordinate fields of an element that holds its points rise from byte 4 on: each begins where the
/// one before it ends or behind, and the last one ends where the element does or before.
pub fn spots_rise()
    ensures { SpotsRise }
{}

/// Fields that rise lie between the two places, and no byte is in two of them.
pub fn rising_spots_are_apart()
    ensures { RisingSpotsAreApart }
{}

/// An element of a class other than vertices, words and counted has no coordinate fields.
pub fn no_spots_elsewhere()
    ensures { NoSpotsElsewhere }
{}
