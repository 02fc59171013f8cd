use crate::second_fault::SecondFault;
use edit_ops::{Cause, EditFault};
use std::alloc::AllocError;

/// Why nothing is gathered from a second drawing.
#[derive(Clone, Copy, Debug, PartialEq, Eq)]
pub enum ImportFault {
    /// It doesn't open.
    Bad(SecondFault),
    /// It has another dimension than the drawing, or the displacement is given for other axes.
    Dimension,
    /// The displacement of a tree is refused: with Floating, Opaque or OffPlane, whose number counts in the second
    /// drawing.
    Refused(Cause),
    /// There was no memory for the trees.
    Memory,
}

impl From<AllocError> for ImportFault {
    ghost use Rattle.std.specs.Prelude.{◌≡◌};
    ghost use Rattle.dgn_import.specs.declared.import_fault.ImportFault.TheVariants as faults;

    ghost from_gives = { λ _ fault. fault ≡ faults.Memory };

    fn from(_: AllocError) -> Self {
        ImportFault::Memory
    }
}

impl From<EditFault> for ImportFault {
    ghost use Rattle.std.specs.Prelude.{◌≡◌};
    ghost use Rattle.dgn_import.specs.Answers.{fault_of_tree};

    ghost from_gives = { λ one fault. fault ≡ fault_of_tree one };

    fn from(fault: EditFault) -> Self {
        match fault {
            EditFault::Refused(cause) => ImportFault::Refused(cause),
            EditFault::Memory => ImportFault::Memory,
        }
    }
}
