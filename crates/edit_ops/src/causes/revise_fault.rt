ghost use Rattle.std.specs.Prelude.{◌≡◌};
ghost use Rattle.edit_ops.specs.declared.causes.revise_fault.ReviseFault.TheVariants as faults;

use crate::causes::revise_cause::ReviseCause;
use std::alloc::AllocError;

/// Why there is no plan of a revision.
#[derive(Clone, Copy, Debug, PartialEq, Eq)]
pub enum ReviseFault {
    /// The revision is refused, with the first cause that stands.
    Refused(ReviseCause),
    /// There was no memory for the plan.
    Memory,
}

impl From<AllocError> for ReviseFault {
    ghost from_gives = { λ _ fault. fault ≡ faults.Memory };

    fn from(_: AllocError) -> Self {
        ReviseFault::Memory
    }
}
