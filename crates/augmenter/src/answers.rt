/// What *better* answers where it is not refused.
///
/// Not an Option: the member is in the caller's row, which is memory that the caller lends.
#[derive(Clone, Copy, PartialEq, Eq, Debug)]
pub enum Answer {
    /// a cheaper member is written to the output row
    Found,
    /// no member is cheaper, and the output row is as it was
    Nothing,
}
