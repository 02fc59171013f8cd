/// What is wrong with one whole element.
#[derive(Clone, Copy, Debug, PartialEq, Eq)]
pub enum BodyFault {
    /// The element ends before its body does.
    Short,
    /// Its attribute data are said to begin before its body's end or behind its own end.
    Attr,
}
