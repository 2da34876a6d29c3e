//! How a job that a member was handed is settled.

/// What became of a job that a member was handed. It is for good.
#[derive(Clone, Copy, Debug, PartialEq, Eq)]
pub enum Fate {
    /// It was done: a PUBACK with a reason code below 0x80 (section 3.4.2.1).
    Acknowledged,
    /// It was refused: a PUBACK with a reason code of 0x80 or greater. Nobody else is handed it (section 4.8.2).
    Refused,
    /// It was not sent: it had expired, or was too long for the member's client. Nobody else is handed it (sections 3.3.2.3.3 and
    /// 3.1.2.11.4).
    Discarded,
}
