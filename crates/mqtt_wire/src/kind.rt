//! The first byte of a packet: its type and its flags (sections 2.1.2 and 2.1.3).

ghost use Rattle.std.specs.Prelude.{◌≡◌};
ghost use Rattle.mqtt_wire.specs.Kinds.{kind_at, publish_at, qos_at};

use mqtt_packet::{ForeignKind, QoS};

/// The kinds of packet that are read, with the flags of a PUBLISH.
#[derive(Clone, Copy)]
pub(crate) enum Kind {
    Connect,
    Publish(PublishFlags),
    Puback,
    Subscribe,
    Unsubscribe,
    Pingreq,
    Disconnect,
    /// A kind that a client has no business to send.
    Foreign(ForeignKind),
}

/// The flags of a PUBLISH (section 3.3.1).
#[derive(Clone, Copy)]
pub(crate) struct PublishFlags {
    pub(crate) dup: bool,
    pub(crate) qos: QoS,
    pub(crate) retain: bool,
}

/// The kind that a first byte stands for; `None` where it stands for none.
pub(crate) fn kind_of(first: u8) -> Option<Kind>
    ensures { result ≡ kind_at first }
{
    match first {
        0x10 => Some(Kind::Connect),
        0x40 => Some(Kind::Puback),
        0x82 => Some(Kind::Subscribe),
        0xA2 => Some(Kind::Unsubscribe),
        0xC0 => Some(Kind::Pingreq),
        0xE0 => Some(Kind::Disconnect),
        0x20 => Some(Kind::Foreign(ForeignKind::Connack)),
        0x50 => Some(Kind::Foreign(ForeignKind::Pubrec)),
        0x62 => Some(Kind::Foreign(ForeignKind::Pubrel)),
        0x70 => Some(Kind::Foreign(ForeignKind::Pubcomp)),
        0x90 => Some(Kind::Foreign(ForeignKind::Suback)),
        0xB0 => Some(Kind::Foreign(ForeignKind::Unsuback)),
        0xD0 => Some(Kind::Foreign(ForeignKind::Pingresp)),
        0xF0 => Some(Kind::Foreign(ForeignKind::Auth)),
        _ => publish_kind(first),
    }
}

/// The PUBLISH that a first byte stands for: DUP in bit 3, QoS in bits 2 and 1, RETAIN in bit 0.
fn publish_kind(first: u8) -> Option<Kind>
    ensures { result ≡ publish_at first }
{
    if first / 16 != 3 {
        return None;
    }
    let qos = qos_of(first / 2 % 4)?;
    Some(Kind::Publish(PublishFlags {
        dup: first / 8 % 2 == 1,
        qos,
        retain: first % 2 == 1,
    }))
}

/// The quality of service of two bits; `None` for 3.
pub(crate) fn qos_of(bits: u8) -> Option<QoS>
    ensures { result ≡ qos_at bits }
{
    match bits {
        0 => Some(QoS::AtMostOnce),
        1 => Some(QoS::AtLeastOnce),
        2 => Some(QoS::ExactlyOnce),
        _ => None,
    }
}
