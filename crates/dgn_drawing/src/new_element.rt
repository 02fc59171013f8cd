use crate::new_shape::NewShape;
use elem_head::types::Symb;
use std::marker::Model;

/// An element that is to be appended.
///
/// The level is below 64, the weight below 32, the style below 8; `axes` is 2 or 3. Where it is 2, the z of
/// each point is 0. A line has 2 points, a line string 2 to 101, a shape 3 to 101. A text has 1 to 255
/// characters, and its multipliers are at least 0.
#[derive(Debug, PartialEq, Eq, Drop)]
pub struct New {
    /// The level.
    pub level: u8,
    /// The look.
    pub symb: Symb,
    /// For how many axes it is given.
    pub axes: u8,
    /// What it is.
    pub shape: NewShape,
}

impl Model for New {
    ghost use Rattle.dgn_drawing.specs.NewElements.{NewElement, IsNew};

    ghost Value = { NewElement };

    ghost view = { λ s. record { level = s.level; symb = s.symb; axes = s.axes; shape = s.shape } };

    ghost invariant = { λ s. IsNew (record { level = s.level; symb = s.symb; axes = s.axes; shape = s.shape }) };

    ghost inverse = { λ n. record { level = n.level; symb = n.symb; axes = n.axes; shape = n.shape } };
}
