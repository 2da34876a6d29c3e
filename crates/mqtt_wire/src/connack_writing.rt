//! Writers of the properties of a CONNACK (section 3.2.2.3).

ghost use Rattle.mqtt_fields.specs.Buffers.{HasRoom, Appends};
ghost use Rattle.mqtt_fields.specs.PropertyLists.{bytes_if};
ghost use Rattle.mqtt_fields.specs.Sections.{properties};
ghost use Rattle.mqtt_wire.specs.Connacks.{connack_properties, expiry, keep_alive, offer_bytes, unless_available};

use crate::sizes::connack_properties_size;
use mqtt_fields::{
    put_byte, put_bytes, put_maximum_packet_size, put_text_if, put_u16, put_variable_byte_integer,
};
use mqtt_packet::{Acceptance, Offer, QoS};

/// Property Identifiers (table 2-4).
const SESSION_EXPIRY_INTERVAL: u8 = 0x11;

const ASSIGNED_CLIENT_IDENTIFIER: u8 = 0x12;

const SERVER_KEEP_ALIVE: u8 = 0x13;

const MAXIMUM_QOS: u8 = 0x24;

const RETAIN_AVAILABLE: u8 = 0x25;

const SUBSCRIPTION_IDENTIFIERS_AVAILABLE: u8 = 0x29;

/// Writes the section of a CONNACK that accepts (section 3.2.2.3).
pub(crate) fn put_connack_properties(out: &mut Vec<u8>, acceptance: &Acceptance)
    requires { HasRoom out.old (properties (connack_properties acceptance.now)) }
    ensures { Appends out.old (properties (connack_properties acceptance.now)) out.new }
{
    put_variable_byte_integer(out, 3, connack_properties_size(acceptance) as u32);
    put_session_expiry_interval(out, acceptance.session_expiry_interval);
    put_text_if(
        out,
        ASSIGNED_CLIENT_IDENTIFIER,
        &acceptance.assigned_client_identifier,
    );
    put_server_keep_alive(out, acceptance.server_keep_alive);
    put_offer(out, &acceptance.offer);
}

/// Writes the Session Expiry Interval, where it is there (section 3.2.2.3.2).
#[tactic(auto, using(crate::proofs::WritingLaws::four_bytes))]
fn put_session_expiry_interval(out: &mut Vec<u8>, value: Option<u32>)
    requires { HasRoom out.old (bytes_if expiry value) }
    ensures { Appends out.old (bytes_if expiry value) out.new }
{
    let Some(seconds) = value else {
        return;
    };
    put_byte(out, SESSION_EXPIRY_INTERVAL);
    put_bytes(out, &seconds.to_be_bytes());
}

/// Writes the Server Keep Alive, where it is there (section 3.2.2.3.14).
fn put_server_keep_alive(out: &mut Vec<u8>, value: Option<u16>)
    requires { HasRoom out.old (bytes_if keep_alive value) }
    ensures { Appends out.old (bytes_if keep_alive value) out.new }
{
    let Some(seconds) = value else {
        return;
    };
    put_byte(out, SERVER_KEEP_ALIVE);
    put_u16(out, seconds);
}

/// Writes what a server offers, and nothing of what a client takes to be offered anyway.
fn put_offer(out: &mut Vec<u8>, offer: &Offer)
    requires { HasRoom out.old (offer_bytes offer.now) }
    ensures { Appends out.old (offer_bytes offer.now) out.new }
{
    match offer.maximum_qos {
        QoS::AtMostOnce => put_bytes(out, &[MAXIMUM_QOS, 0]),
        QoS::AtLeastOnce => put_bytes(out, &[MAXIMUM_QOS, 1]),
        QoS::ExactlyOnce => {}
    }
    put_unless(out, RETAIN_AVAILABLE, offer.retain_available);
    put_maximum_packet_size(out, offer.maximum_packet_size);
    put_unless(
        out,
        SUBSCRIPTION_IDENTIFIERS_AVAILABLE,
        offer.subscription_identifiers_available,
    );
}

/// Writes that something is not available, where it is not.
fn put_unless(out: &mut Vec<u8>, identifier: u8, available: bool)
    requires { HasRoom out.old (unless_available identifier available) }
    ensures { Appends out.old (unless_available identifier available) out.new }
{
    if !available {
        put_bytes(out, &[identifier, 0]);
    }
}
