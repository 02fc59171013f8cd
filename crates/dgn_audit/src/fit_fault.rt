ghost use Rattle.std.specs.Prelude.{◌≡◌};
ghost use Rattle.dgn_audit.specs.FitCauses.{edit_fault};
ghost use Rattle.dgn_audit.specs.declared.fit_fault.FitFault.TheVariants as faults;

use crate::fit_cause::FitCause;
use edit_ops::{Cause, EditFault};
use std::alloc::AllocError;

/// Why there is no plan of a fit.
#[derive(Clone, Copy, Debug, PartialEq, Eq)]
pub enum FitFault {
    /// The fit is refused, with the first cause that stands.
    Refused(FitCause),
    /// There was no memory for the plan.
    Memory,
}

impl From<AllocError> for FitFault {
    ghost from_gives = { λ _ fault. fault ≡ faults.Memory };

    fn from(_: AllocError) -> Self {
        FitFault::Memory
    }
}

impl From<FitFault> for EditFault {
    ghost from_gives = { λ fit fault. fault ≡ edit_fault fit };

    /// The same fault of an edit, with the cause of the same name.
    fn from(fault: FitFault) -> Self {
        match fault {
            FitFault::Refused(FitCause::Unknown(n)) => EditFault::Refused(Cause::Unknown(n)),
            FitFault::Refused(FitCause::Broken(m)) => EditFault::Refused(Cause::Broken(m)),
            FitFault::Refused(FitCause::Deleted(m)) => EditFault::Refused(Cause::Deleted(m)),
            FitFault::Refused(FitCause::Locked(m)) => EditFault::Refused(Cause::Locked(m)),
            FitFault::Memory => EditFault::Memory,
        }
    }
}
