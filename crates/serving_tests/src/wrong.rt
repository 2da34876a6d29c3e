//! What a run is to be and was not.

/// What came that may not, or did not come.
#[derive(Clone, Copy, Debug, PartialEq, Eq, Drop)]
pub(crate) enum Wrong {
    /// An allocation failed.
    Memory,
    /// The broker is not to be connected to.
    Connects,
    /// Bytes are not taken.
    Sends,
    /// The stream ended, or nothing came for ten seconds.
    Silent,
    /// The stream did not end.
    Stays,
    /// A packet with another first byte than is to come: this.
    Packet(u8),
    /// A PUBACK with a Reason Code that may not be, or none with the one that is to come.
    Puback,
    /// Bytes that are none of those that are to come.
    Bytes,
    /// More jobs than were published.
    Job,
    /// Jobs did not come in time.
    Waits,
    /// Serving failed.
    Served,
    /// There is no report, or it does not add up.
    Report,
    /// The report has other counts than clients saw.
    Counts,
}
