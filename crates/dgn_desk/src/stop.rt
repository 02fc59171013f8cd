ghost use Rattle.std.specs.Prelude.{◌≡◌};
ghost use Rattle.dgn_desk.specs.declared.stop.Stop.TheVariants as stops;

use std::alloc::AllocError;

/// Why a call of a desk didn't come to its end.
#[derive(Clone, Copy, Debug, PartialEq, Eq, Drop)]
pub enum Stop {
    /// The outside failed; the call's own count of faults rose.
    Failed,
    /// There was no memory.
    Memory,
}

impl From<AllocError> for Stop {
    ghost from_gives = { λ _ stop. stop ≡ stops.Memory };

    fn from(_: AllocError) -> Stop {
        Stop::Memory
    }
}
