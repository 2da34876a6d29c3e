//! What clients send and are sent, byte by byte.

/// A CONNECT of the client whose identifier ends in this digit.
pub(crate) fn connect(digit: u8) -> [u8; 17] {
    let mut bytes = *b"\x10\x0F\x00\x04MQTT\x05\x02\x00\x3C\x00\x00\x02w1";
    bytes[16] = digit;
    bytes
}

/// A CONNECT of the client w1, whose session lives for an hour after its connection.
pub(crate) const CONNECT_FOR_AN_HOUR: [u8; 22] =
    *b"\x10\x14\x00\x04MQTT\x05\x00\x00\x3C\x05\x11\x00\x00\x0E\x10\x00\x02w1";

/// A SUBSCRIBE to $share/g/job, and a PUBLISH to job.
pub(crate) const SUBSCRIBE: [u8; 20] = *b"\x82\x12\x00\x01\x00\x00\x0C$share/g/job\x01";

/// A SUBSCRIBE to $share/h/job and to $share/g/job, and the SUBACK where only the second is declared.
pub(crate) const SUBSCRIBE_TWO: [u8; 35] =
    *b"\x82\x21\x00\x01\x00\x00\x0C$share/h/job\x01\x00\x0C$share/g/job\x01";

pub(crate) const ONE_AUTHORIZED: [u8; 7] = *b"\x90\x05\x00\x01\x00\x87\x01";

pub(crate) const PUBLISH: [u8; 11] = *b"\x32\x09\x00\x03job\x00\x07\x00A";

/// The CONNACK of a new session, and that of one that is resumed.
pub(crate) const CONNACK: [u8; 14] = *b"\x20\x0C\x00\x00\x09\x24\x01\x25\x00\x27\x00\x01\x00\x00";

pub(crate) const RESUMED: [u8; 14] = *b"\x20\x0C\x01\x00\x09\x24\x01\x25\x00\x27\x00\x01\x00\x00";

/// The CONNACK that refuses a client, since the broker is busy.
pub(crate) const SERVER_BUSY: [u8; 5] = *b"\x20\x03\x00\x89\x00";

pub(crate) const SUBACK: [u8; 6] = *b"\x90\x04\x00\x01\x00\x01";

pub(crate) const PUBACK: [u8; 4] = *b"\x40\x02\x00\x07";

/// The job that is sent first, and the same sent again.
pub(crate) const JOB: [u8; 11] = *b"\x32\x09\x00\x03job\x00\x01\x00A";

pub(crate) const JOB_AGAIN: [u8; 11] = *b"\x3A\x09\x00\x03job\x00\x01\x00A";

/// The DISCONNECT of a close, and that of a takeover.
pub(crate) const CLOSED: [u8; 3] = *b"\xE0\x01\x8B";

pub(crate) const TAKEN_OVER: [u8; 3] = *b"\xE0\x01\x8E";
