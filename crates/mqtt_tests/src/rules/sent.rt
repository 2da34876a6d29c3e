//! The packets that the broker sends, byte for byte.
use crate::asserting::{assert_same, assert_text};
use crate::rules::reading::packet;
use crate::written;
use bytes::Bytes;
use conn_rules::{
    HandOutTerms, Overrides, accepting, disconnect, interval_left, is_discarded, is_expired, job,
    puback, refusing, suback, unsuback,
};
use group_jobs::{Message, MessageExpiry};
use mqtt_fields::Fault;
use mqtt_packet::{
    ConnectRefusal, MaximumPacketSize, NonEmpty, Packet, PacketIdentifier, ReasonCode,
    SubscriptionIdentifier, Text,
};
use std::alloc::Global;
use std::test::Fail;

// The bytes of a packet, in hex digits.
fn sent(alloc: Global, packet: Packet) -> Result<String, Fail> {
    let bytes = written(alloc, packet)?;
    Ok(hex::encode(alloc, &bytes)?)
}

#[test]
fn connacks(rt: HostRuntime) -> Result<(), Fail> {
    let as_asked = Overrides {
        session_expiry_interval: None,
        keep_alive: None,
    };
    let present = sent(rt.alloc(), accepting(true, None, as_asked))?;
    assert_text(&rt, present.as_str(), "200c010009240125002700010000");
    let assigned = Text::parse(Bytes::from_static(b"auto-00000001"));
    let new = sent(rt.alloc(), accepting(false, assigned, as_asked))?;
    let wanted = "201c00001912000d6175746f2d3030303030303031240125002700010000";
    assert_text(&rt, new.as_str(), wanted);
    let limits = Overrides {
        session_expiry_interval: Some(3_600),
        keep_alive: Some(60),
    };
    let limited = sent(rt.alloc(), accepting(true, None, limits))?;
    let wanted = "20140100111100000e1013003c240125002700010000";
    assert_text(&rt, limited.as_str(), wanted);
    let refused = sent(rt.alloc(), refusing(ConnectRefusal::ServerBusy))?;
    assert_text(&rt, refused.as_str(), "2003008900");
    Ok(())
}

// The PUBACK of identifier 7 with a Reason Code.
fn acknowledged(alloc: Global, code: ReasonCode) -> Result<String, Fail> {
    let seven = PacketIdentifier::new(7).ok_or("7 is an identifier")?;
    sent(alloc, puback(alloc, seven, code))
}

// The DISCONNECT with a Reason Code.
fn closed(alloc: Global, code: ReasonCode) -> Result<String, Fail> {
    sent(alloc, disconnect(alloc, code))
}

#[test]
fn pubacks_and_disconnects(rt: HostRuntime) -> Result<(), Fail> {
    let taken = acknowledged(rt.alloc(), ReasonCode::SUCCESS)?;
    assert_text(&rt, taken.as_str(), "40020007");
    let full = acknowledged(rt.alloc(), ReasonCode::QUOTA_EXCEEDED)?;
    assert_text(&rt, full.as_str(), "4003000797");
    let normal = closed(rt.alloc(), ReasonCode::SUCCESS)?;
    assert_text(&rt, normal.as_str(), "e000");
    let taken_over = closed(rt.alloc(), ReasonCode::SESSION_TAKEN_OVER)?;
    assert_text(&rt, taken_over.as_str(), "e0018e");
    Ok(())
}

// Reason Codes of entries.
fn codes(alloc: Global, codes: &[ReasonCode]) -> Result<NonEmpty<ReasonCode>, Fault> {
    NonEmpty::from_vec(Vec::from_slice(alloc, codes)?).ok_or(Fault::Memory)
}

#[test]
fn subacks_and_unsubacks(rt: HostRuntime) -> Result<(), Fail> {
    let seven = PacketIdentifier::new(7).ok_or("7 is an identifier")?;
    let granted = [ReasonCode::GRANTED_QOS_1, ReasonCode::QUOTA_EXCEEDED];
    let subscribed = sent(rt.alloc(), suback(seven, codes(rt.alloc(), &granted)?))?;
    assert_text(&rt, subscribed.as_str(), "90050007000197");
    let left = [ReasonCode::SUCCESS, ReasonCode::NO_SUBSCRIPTION_EXISTED];
    let unsubscribed = sent(rt.alloc(), unsuback(seven, codes(rt.alloc(), &left)?))?;
    assert_text(&rt, unsubscribed.as_str(), "b0050007000011");
    Ok(())
}

// The message of a PUBLISH; none where it is another packet.
fn message(alloc: Global, digits: &str) -> Result<Option<Message>, Fault> {
    match packet(alloc, digits) {
        Ok(Some(Packet::Publish(publish))) => Ok(Some(Message {
            topic: publish.topic,
            expiry: None,
            properties: publish.properties,
            payload: publish.payload,
        })),
        Ok(other) => {
            drop(other);
            Ok(None)
        }
        Err(fault) => Err(fault),
    }
}

// The bytes of a PUBLISH as it goes out under identifier 1, with that Subscription Identifier.
fn passed_on(alloc: Global, digits: &str, dup: bool, subscription: u32) -> Result<Vec<u8>, Fail> {
    let one = PacketIdentifier::new(1).ok_or("1 is an identifier")?;
    let message = message(alloc, digits)?.ok_or("a PUBLISH")?;
    let subscription = SubscriptionIdentifier::new(subscription);
    let packet = job(0, dup, &message, subscription, one).or(Err(Fault::Memory))?;
    Ok(written(alloc, packet)?)
}

#[test]
fn jobs(rt: HostRuntime) -> Result<(), Fail> {
    let digits = "3A0D00016100070601010300016242";
    let rows = [
        (false, 0, "320d00016100010601010300016242"),
        (true, 0, "3a0d00016100010601010300016242"),
        (false, 5, "320f0001610001080101030001620b0542"),
        (true, 200, "3a100001610001090101030001620bc80142"),
    ];
    for (dup, subscription, wanted) in &rows {
        let bytes = passed_on(rt.alloc(), digits, *dup, *subscription)?;
        assert_text(&rt, hex::encode(rt.alloc(), &bytes)?.as_str(), *wanted);
    }
    Ok(())
}

// The PUBLISH of this message has 15 bytes, and 17 under a Subscription Identifier of one byte.
#[test]
fn messages_that_are_too_long(rt: HostRuntime) -> Result<(), Fail> {
    let message = message(rt.alloc(), "3A0D00016100070601010300016242")?.ok_or("a PUBLISH")?;
    let rows = [
        (0, 0, false),
        (0, 15, false),
        (0, 14, true),
        (5, 17, false),
        (5, 16, true),
        (5, 1, true),
    ];
    for (subscription, maximum, wanted) in &rows {
        let terms = HandOutTerms {
            at: 0,
            subscription: SubscriptionIdentifier::new(*subscription),
            maximum_packet_size: MaximumPacketSize::new(*maximum),
        };
        let discarded = is_discarded(&message, &terms).or(Err(Fault::Memory))?;
        assert_same(&rt, &discarded, wanted);
    }
    Ok(())
}

// A message that came at 2,000 with an interval of ten seconds, or of none, or with no interval.
#[test]
fn messages_that_expire(rt: HostRuntime) -> Result<(), Fail> {
    let ten = Some(MessageExpiry {
        seconds: 10,
        accepted_at: 2_000,
    });
    let zero = Some(MessageExpiry {
        seconds: 0,
        accepted_at: 2_000,
    });
    let longest = Some(MessageExpiry {
        seconds: u32::MAX,
        accepted_at: 2_000,
    });
    let rows = [
        (2_000, ten, false, Some(10)),
        (2_999, ten, false, Some(10)),
        (3_000, ten, false, Some(9)),
        (11_999, ten, false, Some(1)),
        (12_000, ten, true, Some(0)),
        (u64::MAX, ten, true, Some(0)),
        (0, ten, false, Some(10)),
        (2_000, zero, true, Some(0)),
        (4_294_967_296_999, longest, false, Some(1)),
        (4_294_967_297_000, longest, true, Some(0)),
        (u64::MAX, None, false, None),
    ];
    for (now, expiry, expired, left) in &rows {
        assert_same(&rt, &is_expired(*now, *expiry), expired);
        assert_same(&rt, &interval_left(*now, *expiry), left);
    }
    Ok(())
}
