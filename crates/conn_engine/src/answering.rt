//! The answers to the packets of a client that has its session (chapter 3).
ghost use Rattle.std.specs.Prelude.{◌≡◌, MatchResult, true};
ghost use Rattle.mqtt_packet.specs.declared.packet.Packet.TheVariants as packets;
ghost use Rattle.conn_supply.specs.Ready.{IsSoundSession};
ghost use Rattle.conn_engine.specs.Answering.{Disconnects, Answers, FailsToAnswer};

use crate::phase::ConnectedClient;
use conn_supply::{
    HoldingPlace, NoMemory, Reply, Supply, acknowledge, publish, subscribe, unsubscribe,
};
use mqtt_packet::{Packet, ReasonCode, Subscribe, Unsubscribe};
use std::alloc::Global;

/// Answers a packet of the connection with this number, whose client has its session, and that came at this moment.
///
/// # Errors
///
/// Lack of memory. Nothing that the session holds is lost.
pub(crate) fn answer<P: HoldingPlace, S: Supply<P>>(
    supply: &mut S,
    alloc: Global,
    number: u16,
    connected: &mut ConnectedClient<P>,
    now: u64,
    packet: Packet,
) -> Result<Reply, NoMemory>
    requires sound { IsSoundSession P.has_out connected.old.session }
    requires visiting { S.visiting supply.old ≡ true }
    ensures answered { MatchResult result
        (λ reply. Answers S.call P.slot_of supply.old number connected.old now packet connected.new reply supply.new)
        (λ _. FailsToAnswer S.call P.slot_of supply.old number connected.old now packet connected.new supply.new) }
    ensures sound { IsSoundSession P.has_out connected.new.session }
    ensures visiting { S.visiting supply.new ≡ S.visiting supply.old }
{
    match packet {
        Packet::Publish(packet) => {
            publish(supply, alloc, number, &connected.rights, now, packet)
        }
        Packet::Puback(packet) => {
            let (identifier, code) = (packet.packet_identifier, packet.reason_code);
            drop(packet);
            acknowledge(supply, &mut connected.session, identifier, code);
            Ok(Reply::going_on(None))
        }
        Packet::Subscribe(packet) => join(supply, alloc, connected, packet),
        Packet::Unsubscribe(packet) => leave(supply, alloc, connected, packet),
        Packet::Pingreq => Ok(Reply::going_on(Some(Packet::Pingresp))),
        Packet::Disconnect(packet) => {
            let expiry = packet.properties.session_expiry_interval;
            drop(packet);
            Ok(disconnect(alloc, connected, expiry))
        }
        other => {
            drop(other);
            Ok(Reply::closing_with(alloc, ReasonCode::PROTOCOL_ERROR))
        }
    }
}

/// Answers a SUBSCRIBE.
fn join<P: HoldingPlace, S: Supply<P>>(
    supply: &mut S,
    alloc: Global,
    connected: &mut ConnectedClient<P>,
    packet: Subscribe,
) -> Result<Reply, NoMemory>
    requires { IsSoundSession P.has_out connected.old.session }
    ensures answered { MatchResult result
        (λ reply. Answers S.call P.slot_of supply.old 0 connected.old 0 (packets.Subscribe packet) connected.new reply supply.new)
        (λ _. FailsToAnswer S.call P.slot_of supply.old 0 connected.old 0 (packets.Subscribe packet) connected.new supply.new) }
    ensures sound { IsSoundSession P.has_out connected.new.session }
    ensures visiting { S.visiting supply.new ≡ S.visiting supply.old }
{
    let membership = connected.take_membership();
    let (membership, replied) = subscribe(
        supply,
        alloc,
        &connected.rights,
        membership,
        &mut connected.session.subscription,
        packet,
    );
    connected.put_membership(membership);
    replied
}

/// Answers an UNSUBSCRIBE.
fn leave<P: HoldingPlace, S: Supply<P>>(
    supply: &mut S,
    alloc: Global,
    connected: &mut ConnectedClient<P>,
    packet: Unsubscribe,
) -> Result<Reply, NoMemory>
    requires { IsSoundSession P.has_out connected.old.session }
    ensures answered { MatchResult result
        (λ reply. Answers S.call P.slot_of supply.old 0 connected.old 0 (packets.Unsubscribe packet) connected.new reply supply.new)
        (λ _. FailsToAnswer S.call P.slot_of supply.old 0 connected.old 0 (packets.Unsubscribe packet) connected.new supply.new) }
    ensures sound { IsSoundSession P.has_out connected.new.session }
    ensures visiting { S.visiting supply.new ≡ S.visiting supply.old }
{
    let membership = connected.take_membership();
    let (membership, replied) = unsubscribe(supply, alloc, membership, packet);
    connected.put_membership(membership);
    replied
}

/// Answers a DISCONNECT with this Session Expiry Interval (section 3.14).
fn disconnect<P: HoldingPlace>(
    alloc: Global,
    connected: &mut ConnectedClient<P>,
    expiry: Option<u32>,
) -> Reply
    requires { IsSoundSession P.has_out connected.old.session }
    ensures answered { Disconnects connected.old expiry connected.new result }
    ensures sound { IsSoundSession P.has_out connected.new.session }
{
    let Some(seconds) = expiry else {
        return Reply::closed(None);
    };
    if connected.terms.is_given_expiry(seconds) {
        return Reply::closing_with(alloc, ReasonCode::PROTOCOL_ERROR);
    }
    connected.session.expiry.seconds = connected.terms.granted_expiry(seconds);
    Reply::closed(None)
}
