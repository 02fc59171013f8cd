use std::alloc::AllocError;

/// Why nothing was selected.
#[derive(Clone, Copy, Debug, PartialEq, Eq)]
pub enum SelectFault {
    /// No fence is set.
    NoFence,
    /// There was no memory for the numbers.
    Memory,
}

impl From<AllocError> for SelectFault {
    ghost use Rattle.std.specs.Prelude.{◌≡◌};
    ghost use Rattle.dgn_session.specs.declared.select_fault.SelectFault.TheVariants as faults;

    ghost from_gives = { λ _ fault. fault ≡ faults.Memory };

    fn from(_: AllocError) -> Self {
        SelectFault::Memory
    }
}
