//! Packets from hex digits, and what the rules answer to them.
use conn_rules::{
    ClientLimits, FirstAnswer, MaxInflight, Overrides, PublishAnswer, Terms, answer_to_first,
    answer_to_publish, overrides_of, subscribe_refusal, terms_of, unsubscribe_refusal,
};
use mqtt_fields::Fault;
use mqtt_packet::{Packet, ReasonCode};
use mqtt_wire::Splitter;
use std::alloc::Global;

/// The first packet of these bytes; `None` where there is none.
fn read(alloc: Global, bytes: &[u8]) -> Result<Option<Packet>, Fault> {
    let mut splitter = Splitter::new(alloc);
    splitter.feed(bytes)?;
    splitter.next()
}

/// The first packet of what hex digits say; `None` where there is none.
pub fn packet(alloc: Global, digits: &str) -> Result<Option<Packet>, Fault> {
    match hex::decode(alloc, digits) {
        Ok(bytes) => read(alloc, &bytes),
        Err(_) => Ok(None),
    }
}

/// What a client asked for under these limits, and what of it is not as it asked, where its packet is a CONNECT.
fn terms_in(packet: &Packet, limits: &ClientLimits) -> Option<(Terms, Overrides)> {
    match packet {
        Packet::Connect(connect) => {
            Some((terms_of(limits, connect), overrides_of(limits, connect)))
        }
        _ => None,
    }
}

/// What the client of the CONNECT that hex digits say asked for under these limits, and what of it is not as it asked; `None` where they say none.
pub fn asked_for(
    alloc: Global,
    digits: &str,
    limits: &ClientLimits,
) -> Result<Option<(Terms, Overrides)>, Fault> {
    match packet(alloc, digits) {
        Ok(Some(packet)) => {
            let terms = terms_in(&packet, limits);
            drop(packet);
            Ok(terms)
        }
        Ok(None) => Ok(None),
        Err(fault) => Err(fault),
    }
}

/// The answer to the first packet of these bytes, where all clients are served; `None` where there is none.
pub fn answer_to_bytes(alloc: Global, bytes: &[u8]) -> Result<Option<FirstAnswer>, Fault> {
    match read(alloc, bytes) {
        Ok(Some(packet)) => {
            let limits = ClientLimits::inflight_alone(MaxInflight::most());
            let first = answer_to_first(&limits, &packet);
            drop(packet);
            Ok(Some(first))
        }
        Ok(None) => Ok(None),
        Err(fault) => Err(fault),
    }
}

/// The answer to the first packet of what hex digits say; `None` where there is none.
pub fn first_answer(alloc: Global, digits: &str) -> Result<Option<FirstAnswer>, Fault> {
    match hex::decode(alloc, digits) {
        Ok(bytes) => answer_to_bytes(alloc, &bytes),
        Err(_) => Ok(None),
    }
}

/// What becomes of a packet, where it is a PUBLISH.
fn answer_to(packet: &Packet) -> Option<PublishAnswer> {
    match packet {
        Packet::Publish(publish) => Some(answer_to_publish(publish)),
        _ => None,
    }
}

/// What becomes of the PUBLISH that hex digits say; `None` where they say none.
pub fn published(alloc: Global, digits: &str) -> Result<Option<PublishAnswer>, Fault> {
    match packet(alloc, digits) {
        Ok(Some(packet)) => {
            let answer = answer_to(&packet);
            drop(packet);
            Ok(answer)
        }
        Ok(None) => Ok(None),
        Err(fault) => Err(fault),
    }
}

/// The Reason Code with which a SUBSCRIBE or an UNSUBSCRIBE closes the connection.
fn refusal_of(packet: &Packet) -> Option<ReasonCode> {
    match packet {
        Packet::Subscribe(subscribe) => subscribe_refusal(subscribe),
        Packet::Unsubscribe(unsubscribe) => unsubscribe_refusal(unsubscribe),
        _ => Some(ReasonCode::SUCCESS),
    }
}

/// That of the first packet of these bytes; success where there is none.
pub fn refusal(alloc: Global, bytes: &[u8]) -> Result<Option<ReasonCode>, Fault> {
    match read(alloc, bytes) {
        Ok(Some(packet)) => {
            let code = refusal_of(&packet);
            drop(packet);
            Ok(code)
        }
        Ok(None) => Ok(Some(ReasonCode::SUCCESS)),
        Err(fault) => Err(fault),
    }
}
