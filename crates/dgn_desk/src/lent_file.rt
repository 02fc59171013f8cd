/// A file that is lent to a run: its name and its bytes. C sees it as two slices, each a pointer and a length.
#[repr(C)]
#[derive(Clone, Copy, Drop)]
pub struct LentFile<'a> {
    /// Its name, any bytes; one that isn't UTF-8 is asked for by no run.
    pub name: &'a [u8],
    /// Its bytes.
    pub bytes: &'a [u8],
}
