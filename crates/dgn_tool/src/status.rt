ghost use Rattle.std.specs.Prelude.{◌≡◌};
ghost use Rattle.dgn_tool.specs.Status.{number_of};

/// How a run ended. Each has a number, the exit status of the program.
#[derive(Clone, Copy, Debug, PartialEq, Eq, Drop)]
pub enum Status {
    /// Every command was done, or every entry of the patch file put on, and OUT or PATCH was written; or IN was checked,
    /// or a drawing generated.
    Done,
    /// OUT or PATCH was written, and at least one command was refused.
    SomeRefused,
    /// The words are of no form.
    Usage,
    /// A line of the script is bad: it is no command of the language, or the fifth that asks for an import.
    BadScript,
    /// IN is no design file: an element or its beginning is at fault.
    BadDesign,
    /// Reading a file failed.
    ReadFault,
    /// Writing a file, or saying something, failed.
    WriteFault,
    /// There was no memory.
    Memory,
    /// IN or a file that an import names has more than 67108864 bytes, SCRIPT more than 1048576, or PATCH more than
    /// 134217728; or body and tail would have more than 67108864 after an entry of the patch file.
    TooLong,
    /// PATCH is no patch file: a piece of it is cut off or breaks its rule, or bytes stand behind the last entry.
    BadPatch,
    /// An entry of the patch file doesn't stand on what those before it made of the drawing.
    PatchRefused,
}

impl Status {
    /// The exit status: from 0 in the order of the list, but that 9 isn't used.
    pub fn number(self) -> u8
        ensures { result ≡ number_of self }
    {
        match self {
            Status::Done => 0,
            Status::SomeRefused => 1,
            Status::Usage => 2,
            Status::BadScript => 3,
            Status::BadDesign => 4,
            Status::ReadFault => 5,
            Status::WriteFault => 6,
            Status::Memory => 7,
            Status::TooLong => 8,
            Status::BadPatch => 10,
            Status::PatchRefused => 11,
        }
    }
}
