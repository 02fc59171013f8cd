/// How a fence chooses among trees, by the parts of each: the items that have segments.
#[derive(Clone, Copy, Debug, PartialEq, Eq)]
pub enum Mode {
    /// Trees of which all parts are inside.
    Inside,
    /// Trees of which some part overlaps.
    Overlap,
    /// Trees of which no part overlaps.
    Void,
}
