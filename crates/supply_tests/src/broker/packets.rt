//! What a publisher and a member send.

/// A CONNECT of a client whose identifier has two bytes, a kind and a number.
pub(crate) fn connect(kind: u8, number: u8) -> [u8; 17] {
    let mut bytes = *b"\x10\x0F\x00\x04MQTT\x05\x02\x00\x3C\x00\x00\x02w0";
    bytes[15] = kind;
    bytes[16] = digit(number);
    bytes
}

/// A SUBSCRIBE to the share of the group of this number.
pub(crate) fn subscribe(group: u8) -> [u8; 19] {
    let mut bytes = *b"\x82\x11\x00\x01\x00\x00\x0B$share/g/t0\x01";
    bytes[17] = digit(group);
    bytes
}

/// A PUBLISH to the group of this number.
pub(crate) fn publish(group: u8) -> [u8; 10] {
    let mut bytes = *b"\x32\x08\x00\x02t0\x00\x01\x00A";
    bytes[5] = digit(group);
    bytes
}

/// The digit of a number below 8.
fn digit(number: u8) -> u8 {
    b'0' + number % 8
}

/// An acknowledgement of the PUBLISH with this identifier.
pub(crate) fn acknowledge(identifier: u16) -> [u8; 4] {
    let [high, low] = identifier.to_be_bytes();
    [0x40, 2, high, low]
}

/// A refusal of the PUBLISH with this identifier.
pub(crate) fn refuse(identifier: u16) -> [u8; 5] {
    let [high, low] = identifier.to_be_bytes();
    [0x40, 3, high, low, 0x80]
}

/// A DISCONNECT.
pub(crate) const DISCONNECT: &[u8] = b"\xE0\x00";
