use std::marker::Model;

/// A change of an element's look. What isn't given is left as it is.
#[derive(Debug, PartialEq, Eq, Drop)]
pub struct SymbChange {
    /// The colour, an index of the colour table.
    pub color: Option<u8>,
    /// The weight, 0 to 31.
    pub weight: Option<u8>,
    /// The style, 0 to 7.
    pub style: Option<u8>,
}

impl Model for SymbChange {
    ghost use Rattle.dgn_drawing.specs.Values.{LookChange, IsLook};

    ghost Value = { LookChange };

    ghost view = { λ s. record { color = s.color; weight = s.weight; style = s.style } };

    ghost invariant = { λ s. IsLook (record { color = s.color; weight = s.weight; style = s.style }) };

    ghost inverse = { λ c. record { color = c.color; weight = c.weight; style = c.style } };
}
