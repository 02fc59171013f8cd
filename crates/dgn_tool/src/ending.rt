ghost use Rattle.std.specs.Prelude.{◌≡◌};
ghost use Rattle.dgn_tool.specs.Ended.{status_with};
ghost use Rattle.dgn_tool.specs.Ends.{status_said};

use crate::status::Status;

/// An ending that a run comes to which the words of a form began: all that it has to say is said.
#[derive(Clone, Copy, Drop)]
pub enum Ending {
    // All was done that was asked for.
    Done,
    // OUT or PATCH was written, and at least one command was refused.
    SomeRefused,
    // A line of the script is bad.
    BadScript,
    // IN is no design file.
    BadDesign,
    // A file has too many bytes, or a drawing would have.
    TooLong,
    // PATCH is no patch file.
    BadPatch,
    // An entry of the patch file doesn't stand.
    PatchRefused,
}

impl Ending {
    /// That of a run of which so many commands were refused.
    pub fn of_refused(refused: u64) -> Ending
        ensures { status_said result ≡ status_with refused }
    {
        if refused > 0 {
            Ending::SomeRefused
        } else {
            Ending::Done
        }
    }

    /// The status that says it.
    pub fn status(self) -> Status
        ensures { result ≡ status_said self }
    {
        match self {
            Ending::Done => Status::Done,
            Ending::SomeRefused => Status::SomeRefused,
            Ending::BadScript => Status::BadScript,
            Ending::BadDesign => Status::BadDesign,
            Ending::TooLong => Status::TooLong,
            Ending::BadPatch => Status::BadPatch,
            Ending::PatchRefused => Status::PatchRefused,
        }
    }
}
