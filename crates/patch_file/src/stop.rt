// Why reading stopped within a patch file.

ghost use Rattle.std.specs.Prelude.{◌≡◌};
ghost use Rattle.patch_file.specs.declared.stop.Stop.TheVariants.{Memory};

use std::alloc::{AllocError, AllocFailed};

#[derive(Debug, Drop)]
pub enum Stop {
    // A bad piece, from whose first byte on there are so many bytes.
    Bad(usize),
    Memory,
}

impl From<AllocError> for Stop {
    ghost from_gives = { λ _ e. e ≡ Memory };

    fn from(_error: AllocError) -> Stop {
        Stop::Memory
    }
}

impl<T: Drop> From<AllocFailed<T>> for Stop {
    ghost from_gives = { λ _ e. e ≡ Memory };

    fn from(_failed: AllocFailed<T>) -> Stop {
        Stop::Memory
    }
}
