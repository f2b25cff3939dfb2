//! How far a text is read.

/// How far a text is read that is read in pieces.
#[derive(Clone, Copy, Debug, PartialEq, Eq)]
pub enum Progress {
    /// More may come.
    Reading,
    /// All of it is read.
    Ended,
    /// The outside failed.
    Failed,
    /// More bytes came than the limit.
    TooLong,
}
