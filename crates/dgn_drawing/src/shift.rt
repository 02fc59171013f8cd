use std::marker::Model;

/// A displacement along the axes of a drawing, in units of resolution.
///
/// `axes` is 2 or 3. Each number of `by`, for x, y and z, is from -4294967295 to 4294967295, and that for
/// z is 0 where `axes` is 2.
#[derive(Debug, PartialEq, Eq, Drop)]
pub struct Shift {
    /// For how many axes it is given.
    pub axes: u8,
    /// How far it goes along x, y and z.
    pub by: [i64; 3],
}

impl Model for Shift {
    ghost use Rattle.dgn_drawing.specs.Values.{Displacement, IsShift};

    ghost Value = { Displacement };

    ghost view = { λ s. record { axes = s.axes; by = s.by } };

    ghost invariant = { λ s. IsShift (record { axes = s.axes; by = s.by }) };

    ghost inverse = { λ d. record { axes = d.axes; by = d.by } };
}
