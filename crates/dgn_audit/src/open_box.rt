use range_code::Box3;

// The box of those members of a header that have been read.
#[derive(Clone, Copy)]
pub(crate) struct OpenBox {
    // The number of the header.
    pub(crate) header: u32,
    // The box.
    pub(crate) hull: Box3,
}
