/// Why a second file doesn't open. Places are counted from the file's first byte.
#[derive(Clone, Copy, Debug, PartialEq, Eq)]
pub enum SecondFault {
    /// It doesn't begin as a design file does.
    NotDesign,
    /// The element that begins there isn't whole.
    Cut { at: u32 },
    /// The element that begins there ends before its body does.
    Short { at: u32 },
    /// The element that begins there has attribute data in a wrong place.
    Attr { at: u32 },
}
