//! What came through the channel.

/// What came through the channel.
pub enum Admission {
    /// A connection, which is open in this cell.
    Opened(usize),
    /// A connection that was not opened, and has ended.
    Refused,
    /// The end mark.
    EndMark,
    /// Nothing.
    Nothing,
}
