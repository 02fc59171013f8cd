use edit_ops::{Cause, EditFault};
use std::alloc::AllocError;

/// Why an edit of all that a fence chooses wasn't made. The session is as before.
#[derive(Clone, Copy, Debug, PartialEq, Eq)]
pub enum FenceEditFault {
    /// No fence is set.
    NoFence,
    /// It is refused: the first cause of the first tree that has one.
    Refused(Cause),
    /// There was no memory for it.
    Memory,
}

impl From<AllocError> for FenceEditFault {
    ghost use Rattle.std.specs.Prelude.{◌≡◌};
    ghost use Rattle.dgn_session.specs.declared.fence_edit_fault.FenceEditFault.TheVariants as faults;

    ghost from_gives = { λ _ fault. fault ≡ faults.Memory };

    fn from(_: AllocError) -> Self {
        FenceEditFault::Memory
    }
}

impl From<EditFault> for FenceEditFault {
    ghost use Rattle.std.specs.Prelude.{◌≡◌};
    ghost use Rattle.dgn_session.specs.Answers.{fault_of_all};

    ghost from_gives = { λ one fault. fault ≡ fault_of_all one };

    fn from(fault: EditFault) -> Self {
        match fault {
            EditFault::Refused(cause) => FenceEditFault::Refused(cause),
            EditFault::Memory => FenceEditFault::Memory,
        }
    }
}
