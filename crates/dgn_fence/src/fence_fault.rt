/// Why there is no fence of some points.
#[derive(Clone, Copy, Debug, PartialEq, Eq)]
pub enum FenceFault {
    /// There are fewer than 3.
    Few,
    /// There are more than 256.
    Many,
    /// There is no memory for them.
    Memory,
}
