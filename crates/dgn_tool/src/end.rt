ghost use Rattle.std.specs.Prelude.{◌≡◌};
ghost use Rattle.dgn_desk.specs.declared.stop.Stop.TheVariants as stops;
ghost use Rattle.dgn_tool.specs.declared.end.End.TheVariants as ends;
ghost use Rattle.dgn_tool.specs.Ends.{end_of, status_of};

use crate::ending::Ending;
use crate::status::Status;
use dgn_desk::Stop;
use std::alloc::AllocError;

/// How a part of a run that reads ended the run: by an ending that was said, or by one of the three stops.
#[derive(Clone, Copy, Drop)]
pub enum End {
    // It was said how.
    Said(Ending),
    // Reading a file failed.
    ReadFault,
    // Writing a file or saying something failed, or there was no memory.
    Stopped(Stop),
}

impl End {
    /// That of a part that reads nothing.
    pub fn of(came: Result<Ending, Stop>) -> End
        ensures { result ≡ end_of came }
    {
        match came {
            Ok(ending) => End::Said(ending),
            Err(stop) => End::Stopped(stop),
        }
    }

    /// The status that tells it.
    pub fn status(self) -> Status
        ensures { result ≡ status_of self }
    {
        match self {
            End::Said(ending) => ending.status(),
            End::ReadFault => Status::ReadFault,
            End::Stopped(Stop::Failed) => Status::WriteFault,
            End::Stopped(Stop::Memory) => Status::Memory,
        }
    }
}

impl From<AllocError> for End {
    ghost from_gives = { λ _ end. end ≡ ends.Stopped stops.Memory };

    fn from(_: AllocError) -> End {
        End::Stopped(Stop::Memory)
    }
}
