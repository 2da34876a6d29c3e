//! The answer to the first packet, as far as it asks no session (sections 3.1 and 3.2).
ghost use Rattle.std.specs.Prelude.{◌≡◌};
ghost use Rattle.conn_rules.specs.Connecting.{client_rights, connect_answer, first_answer, is_known, is_own_identifier, offer};

use crate::client_limits::ClientLimits;
use crate::terms::is_size_under;
use limits::MOST_BYTES;
use mqtt_packet::{Connect, ConnectRefusal, MaximumPacketSize, Offer, Packet, QoS};
use users::{ClientRights, SharedUsers};

/// The longest client identifier, in bytes.
const LONGEST_CLIENT_IDENTIFIER: usize = 128;

/// What becomes of a connection at its first packet.
#[derive(Clone, Copy, Debug, PartialEq, Eq)]
pub enum FirstAnswer {
    /// It is closed with no answer.
    Close,
    /// It is closed with a CONNACK that refuses.
    Refuse(ConnectRefusal),
    /// The client's session is looked for.
    Attach,
}

/// What becomes of a connection at its first packet: a CONNECT of version 5 (section 3.1.2.2) without a will (profile) may open it. Where users are given, it
/// is one of theirs, under an identifier that is not another's.
pub fn answer_to_first(limits: &ClientLimits, packet: &Packet) -> FirstAnswer
    ensures { result ≡ first_answer limits.now.users packet.now }
{
    match packet {
        Packet::Connect(connect) => answer_to_connect(limits, connect),
        Packet::OtherVersion(_) => FirstAnswer::Refuse(ConnectRefusal::UnsupportedProtocolVersion),
        Packet::WithWill => FirstAnswer::Refuse(ConnectRefusal::ImplementationSpecificError),
        _ => FirstAnswer::Close,
    }
}

/// What becomes of a connection at a CONNECT: the first refusal that applies, else the client's session is looked for.
pub fn answer_to_connect(limits: &ClientLimits, connect: &Connect) -> FirstAnswer
    ensures { result ≡ connect_answer limits.now.users connect.now }
{
    let properties = &connect.properties;
    if is_size_under(5, properties.maximum_packet_size) {
        return FirstAnswer::Close;
    }
    if is_size_under(64, properties.maximum_packet_size) {
        return FirstAnswer::Refuse(ConnectRefusal::ImplementationSpecificError);
    }
    if properties.authentication.is_some() {
        return FirstAnswer::Refuse(ConnectRefusal::BadAuthenticationMethod);
    }
    if connect.client_identifier.as_bytes().len() > LONGEST_CLIENT_IDENTIFIER {
        return FirstAnswer::Refuse(ConnectRefusal::ClientIdentifierNotValid);
    }
    if !is_known(limits, connect) {
        return FirstAnswer::Refuse(ConnectRefusal::BadUserNameOrPassword);
    }
    if !is_own_identifier(limits, connect) {
        return FirstAnswer::Refuse(ConnectRefusal::ClientIdentifierNotValid);
    }
    FirstAnswer::Attach
}

/// Whether a client is one of the users, where they are given: it has the name and the password of one (sections 3.1.3.5 and 3.1.3.6).
fn is_known(limits: &ClientLimits, connect: &Connect) -> bool
    ensures { result ≡ is_known limits.now.users connect.now }
{
    let Some(users) = &limits.users else {
        return true;
    };
    match (&connect.user_name, &connect.password) {
        (Some(name), Some(password)) => users.admits(name.as_bytes(), password.as_bytes()),
        _ => false,
    }
}

/// Whether the user of a client may connect under its Client Identifier, where users are given (section 3.1.3.1).
fn is_own_identifier(limits: &ClientLimits, connect: &Connect) -> bool
    ensures { result ≡ is_own_identifier limits.now.users connect.now }
{
    match (&limits.users, &connect.user_name) {
        (Some(users), Some(name)) => {
            users.may_connect_as(name.as_bytes(), connect.client_identifier.as_bytes())
        }
        (Some(_), None) => false,
        (None, _) => true,
    }
}

/// What a client of these users may do: where users are given, what its user may.
pub fn client_rights(users: Option<SharedUsers>, connect: &Connect) -> ClientRights
    ensures { result ≡ client_rights users connect.now }
{
    match (users, &connect.user_name) {
        (Some(users), Some(name)) => users.into_rights(name.as_bytes()),
        _ => ClientRights::all(),
    }
}

/// What the broker offers: QoS 1, no retained messages, packets of at most 65,536 bytes, and Subscription Identifiers
/// (section 3.2.2.3, profile).
pub fn offer() -> Offer
    ensures { result ≡ offer }
{
    Offer {
        maximum_qos: QoS::AtLeastOnce,
        retain_available: false,
        maximum_packet_size: MaximumPacketSize::new(MOST_BYTES),
        subscription_identifiers_available: true,
    }
}
