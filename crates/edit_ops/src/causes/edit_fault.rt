ghost use Rattle.std.specs.Prelude.{◌≡◌};
ghost use Rattle.edit_ops.specs.declared.causes.edit_fault.EditFault.TheVariants as faults;

use crate::causes::cause::Cause;
use std::alloc::AllocError;

/// Why there is no plan of an edit.
#[derive(Clone, Copy, Debug, PartialEq, Eq)]
pub enum EditFault {
    /// The edit is refused, with the first cause that stands.
    Refused(Cause),
    /// There was no memory for the plan.
    Memory,
}

impl From<AllocError> for EditFault {
    ghost from_gives = { λ _ fault. fault ≡ faults.Memory };

    fn from(_: AllocError) -> Self {
        EditFault::Memory
    }
}
