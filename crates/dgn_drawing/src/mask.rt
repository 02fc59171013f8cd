ghost use Rattle.std.specs.Prelude.{◌≡◌, ◌<◌};
ghost use Rattle.dgn_drawing.specs.Shown.{shows};

/// Which levels a display shows: bit L shows level L.
#[derive(Clone, Copy, Debug, PartialEq, Eq)]
pub struct Mask(pub u64);

impl Mask {
    /// Whether it shows `level`, one of 0 to 63.
    pub fn shows(self, level: u8) -> bool
        requires { level < 64 }
        ensures { result ≡ shows self level }
    {
        (self.0 >> level) & 1 == 1
    }
}
