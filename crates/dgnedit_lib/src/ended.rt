ghost use Rattle.std.specs.Prelude.{◌≡◌, ◌^◌, ◌<◌, length, false};
ghost use Rattle.dgn_tool.specs.Status.{number_of};
ghost use Rattle.dgnedit_lib.specs.Handing.{text_ended};

use dgn_tool::Status;

/// How a run ended, and how many bytes it hands out.
#[repr(C)]
#[derive(Clone, Copy, Debug, PartialEq, Eq, Drop)]
pub struct Ended {
    /// How many bytes of text there are.
    pub text_length: usize,
    /// How many bytes the file has that the run writes; 0 where it writes none.
    pub file_length: usize,
    /// The exit number of the program.
    pub status: u32,
    /// Whether the run writes a file.
    pub file_written: bool,
}

impl Ended {
    // With so many bytes of text, and no file.
    pub(crate) fn with_text(status: Status, text_length: usize) -> Ended
        ensures { result ≡ text_ended status text_length }
    {
        Ended {
            text_length,
            file_length: 0,
            status: u32::from(status.number()),
            file_written: false,
        }
    }
}
