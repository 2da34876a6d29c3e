//! Messages: what a group passes on of a PUBLISH.
use bytes::Bytes;
use mqtt_packet::{RareProperties, Text};

/// How long a message may wait for a member (section 3.3.2.3.3).
#[derive(Clone, Copy, Debug, PartialEq, Eq)]
pub struct MessageExpiry {
    /// The Message Expiry Interval of the PUBLISH that it came in, in seconds.
    pub seconds: u32,
    /// The moment at which that came, in milliseconds.
    pub accepted_at: u64,
}

/// A message on its way from a publisher to a member. Its topic, its properties and its payload are shared with the packet that it came in and
/// with those in which it goes out.
#[derive(Debug, Drop, PartialEq)]
pub struct Message {
    /// The Topic Name (section 3.3.2.1).
    pub topic: Text,
    /// How long it may wait; `None` where it never expires.
    pub expiry: Option<MessageExpiry>,
    /// The properties that go with it from its publisher to its member unaltered (section 3.3.2.3).
    pub properties: RareProperties,
    /// The Application Message (section 3.3.3).
    pub payload: Bytes,
}
