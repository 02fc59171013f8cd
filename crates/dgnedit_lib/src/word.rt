/// A word of the command line: its bytes. C sees it as a slice, a pointer and a length.
#[repr(C)]
#[derive(Clone, Copy, Drop)]
pub struct Word<'a> {
    /// The bytes of the word. Where those of one aren't UTF-8, the words are of no form.
    pub bytes: &'a [u8],
}
