//! What packets, faults and time bring about, in rows of bytes worked out by hand from the standard.
use crate::asserting::{assert_same, assert_same_at};
use crate::rules::reading::{answer_to_bytes, asked_for, first_answer, packet, published, refusal};
use conn_rules::{
    ClientLimits, EntryAnswer, ExpiryLimit, FirstAnswer, KeepAliveLimit, MaxInflight, Overrides,
    PublishAnswer, QueueCapacity, Terms, answer_to_entry, fate_of, fault_code, fault_refusal,
    is_late, is_overdue, puback_code,
};
use group_jobs::Fate;
use mqtt_fields::{Fault, StreamFault};
use mqtt_packet::{
    ConnectRefusal, MaximumPacketSize, Packet, PacketIdentifier, ReasonCode, Subscribe,
};
use std::alloc::Global;
use std::test::Fail;

// A CONNECT; those of clients that take at most 4, 63, 64 and 65,535 bytes; one with an Authentication Method; one of another
// version; one with a will.
const PLAIN: &str = "100F00044D5154540502003C0000027731";

const TAKES_4: &str = "101400044D5154540502003C05270000000400027731";

const TAKES_63: &str = "101400044D5154540502003C05270000003F00027731";

const TAKES_64: &str = "101400044D5154540502003C05270000004000027731";

const TAKES_65_535: &str = "101400044D5154540502003C05270000FFFF00027731";

const AUTHENTICATES: &str = "101300044D5154540502003C041500016100027731";

const OTHER_VERSION: &str = "1003000004";

const WITH_WILL: &str = "100800044D5154540504";

#[test]
fn first_packets(rt: HostRuntime) -> Result<(), Fail> {
    let unsuited = FirstAnswer::Refuse(ConnectRefusal::ImplementationSpecificError);
    let unknown = FirstAnswer::Refuse(ConnectRefusal::BadAuthenticationMethod);
    let older = FirstAnswer::Refuse(ConnectRefusal::UnsupportedProtocolVersion);
    let rows = [
        (PLAIN, FirstAnswer::Attach),
        (TAKES_4, FirstAnswer::Close),
        (TAKES_63, unsuited),
        (TAKES_64, FirstAnswer::Attach),
        (TAKES_65_535, FirstAnswer::Attach),
        (AUTHENTICATES, unknown),
        (OTHER_VERSION, older),
        (WITH_WILL, unsuited),
        ("C000", FirstAnswer::Close),
    ];
    for (digits, wanted) in &rows {
        assert_same_at(
            &rt,
            &first_answer(rt.alloc(), digits)?,
            &Some(*wanted),
            digits,
        );
    }
    Ok(())
}

// The CONNECT of a client whose identifier has 129 bytes.
fn longest(alloc: Global) -> Result<Vec<u8>, Fault> {
    let head = b"\x10\x8E\x01\x00\x04MQTT\x05\x02\x00\x3C\x00\x00\x81";
    let mut bytes = Vec::from_slice(alloc, head)?;
    bytes.resize(145, b'a')?;
    Ok(bytes)
}

#[test]
fn longest_identifier(rt: HostRuntime) -> Result<(), Fail> {
    let answer = answer_to_bytes(rt.alloc(), &longest(rt.alloc())?)?;
    let wanted = FirstAnswer::Refuse(ConnectRefusal::ClientIdentifierNotValid);
    assert_same(&rt, &answer, &Some(wanted));
    Ok(())
}

// Everything is as the client asked.
const AS_ASKED: Overrides = Overrides {
    session_expiry_interval: None,
    keep_alive: None,
};

// The Receive Maximum that the client of a CONNECT has under this limit.
fn receive_maximum(
    alloc: Global,
    digits: &str,
    max_inflight: MaxInflight,
) -> Result<Option<u16>, Fault> {
    match asked_for(alloc, digits, &ClientLimits::inflight_alone(max_inflight)) {
        Ok(Some((terms, _))) => Ok(Some(terms.receive_maximum)),
        Ok(None) => Ok(None),
        Err(fault) => Err(fault),
    }
}

#[test]
fn limits(rt: HostRuntime) -> Result<(), Fail> {
    for number in &[0, 257, 65_535] {
        assert!(rt; MaxInflight::new(*number).is_none());
    }
    for number in &[1, 256] {
        assert!(rt; MaxInflight::new(*number).is_some_and(|limit| limit.get() == *number));
    }
    assert_same(&rt, &MaxInflight::most().get(), &256);
    assert!(rt; ExpiryLimit::new(0).is_none() && KeepAliveLimit::new(0).is_none());
    for number in &[1, u32::MAX] {
        assert!(rt; ExpiryLimit::new(*number).is_some_and(|limit| limit.get() == *number));
    }
    for number in &[1, u16::MAX] {
        assert!(rt; KeepAliveLimit::new(*number).is_some_and(|limit| limit.get() == *number));
    }
    for number in &[0, 65_537, u32::MAX] {
        assert!(rt; QueueCapacity::new(*number).is_none());
    }
    for number in &[1, 65_536] {
        assert!(rt; QueueCapacity::new(*number).is_some_and(|capacity| capacity.get() == *number));
    }
    Ok(())
}

// The Receive Maximum of a CONNECT, none, 1 and 5, and what it comes to with the limits 256 and 2.
#[test]
fn least_of_receive_maximum_and_limit(rt: HostRuntime) -> Result<(), Fail> {
    let two = MaxInflight::new(2).ok_or("2 is a limit")?;
    let rows = [
        (PLAIN, 256, 2),
        ("101200044D5154540502003C0321000100027731", 1, 1),
        ("101200044D5154540502003C0321000500027731", 5, 2),
    ];
    for (digits, most, least) in &rows {
        let asked = receive_maximum(rt.alloc(), digits, MaxInflight::most())?;
        assert_same_at(&rt, &asked, &Some(*most), digits);
        let asked = receive_maximum(rt.alloc(), digits, two)?;
        assert_same_at(&rt, &asked, &Some(*least), digits);
    }
    Ok(())
}

#[test]
fn terms_of_clients(rt: HostRuntime) -> Result<(), Fail> {
    let plain = Terms {
        receive_maximum: 256,
        session_expiry_interval: 0,
        keep_alive: 60,
        maximum_packet_size: None,
        max_expiry: None,
    };
    let least = Terms {
        maximum_packet_size: MaximumPacketSize::new(64),
        ..plain
    };
    let many = Terms {
        maximum_packet_size: MaximumPacketSize::new(65_535),
        ..plain
    };
    let asked = Terms {
        receive_maximum: 2,
        session_expiry_interval: 5,
        ..plain
    };
    let asks = "101700044D5154540502003C08110000000521000200027731";
    let rows = [
        (PLAIN, plain),
        (TAKES_64, least),
        (TAKES_65_535, many),
        (asks, asked),
    ];
    let limits = ClientLimits::inflight_alone(MaxInflight::most());
    for (digits, wanted) in &rows {
        let asked = asked_for(rt.alloc(), digits, &limits)?;
        assert_same_at(&rt, &asked, &Some((*wanted, AS_ASKED)), digits);
    }
    assert!(rt; plain.is_given_expiry(1) && !plain.is_given_expiry(0));
    assert!(rt; !asked.is_given_expiry(1));
    Ok(())
}

// A CONNECT with its Session Expiry Interval and its Keep Alive, the limits of both, and what the broker uses in their place.
#[test]
fn within_limits(rt: HostRuntime) -> Result<(), Fail> {
    let never = "101400044D5154540502003C0511FFFFFFFF00027731";
    let five = "101400044D5154540502003C05110000000500027731";
    let no_keep_alive = "100F00044D515454050200000000027731";
    let rows = [
        (PLAIN, (0, 60), (Some(4), Some(60)), (None, None)),
        (five, (5, 60), (Some(5), Some(61)), (None, None)),
        (five, (5, 60), (Some(4), Some(59)), (Some(4), Some(59))),
        (never, (u32::MAX, 60), (None, None), (None, None)),
        (
            never,
            (u32::MAX, 60),
            (Some(3600), None),
            (Some(3600), None),
        ),
        (no_keep_alive, (0, 0), (None, None), (None, None)),
        (
            no_keep_alive,
            (0, 0),
            (None, Some(u16::MAX)),
            (None, Some(u16::MAX)),
        ),
    ];
    for (digits, asked, limits, overrides) in &rows {
        let limits = ClientLimits {
            max_expiry: limits.0.and_then(|seconds| ExpiryLimit::new(seconds)),
            max_keep_alive: limits.1.and_then(|seconds| KeepAliveLimit::new(seconds)),
            ..ClientLimits::inflight_alone(MaxInflight::most())
        };
        let wanted = Terms {
            receive_maximum: 256,
            session_expiry_interval: overrides.0.unwrap_or(asked.0),
            keep_alive: overrides.1.unwrap_or(asked.1),
            maximum_packet_size: None,
            max_expiry: limits.max_expiry,
        };
        let overrides = Overrides {
            session_expiry_interval: overrides.0,
            keep_alive: overrides.1,
        };
        let found = asked_for(rt.alloc(), digits, &limits)?;
        assert_same_at(&rt, &found, &Some((wanted, overrides)), digits);
    }
    Ok(())
}

// The expiry that a DISCONNECT asks for, the limit, and what the session is given.
#[test]
fn expiries_at_the_end(rt: HostRuntime) {
    let rows = [
        (u32::MAX, None, u32::MAX),
        (10, ExpiryLimit::new(10), 10),
        (11, ExpiryLimit::new(10), 10),
        (0, ExpiryLimit::new(10), 0),
    ];
    for (asked, max_expiry, given) in &rows {
        let terms = Terms {
            receive_maximum: 256,
            session_expiry_interval: 5,
            keep_alive: 60,
            maximum_packet_size: None,
            max_expiry: *max_expiry,
        };
        assert_same(&rt, &terms.granted_expiry(*asked), given);
    }
}

#[test]
fn publishes(rt: HostRuntime) -> Result<(), Fail> {
    let seven = PacketIdentifier::new(7).ok_or("7 is an identifier")?;
    let rows = [
        ("320900036A6F6200070041", PublishAnswer::Offer(seven)),
        ("320B0001610007050200000005", PublishAnswer::Offer(seven)),
    ];
    for (digits, wanted) in &rows {
        assert_same_at(&rt, &published(rt.alloc(), digits)?, &Some(*wanted), digits);
    }
    Ok(())
}

#[test]
fn publishes_that_close(rt: HostRuntime) -> Result<(), Fail> {
    let rows = [
        ("30050001610041", 0x83),
        ("3406000161000700", 0x9B),
        ("3306000161000700", 0x9A),
        ("3209000161000703230001", 0x94),
        ("32050000000700", 0x82),
        ("320600012B000700", 0x81),
    ];
    for (digits, code) in &rows {
        let wanted = PublishAnswer::Close(ReasonCode::new(*code));
        assert_same_at(&rt, &published(rt.alloc(), digits)?, &Some(wanted), digits);
    }
    Ok(())
}

#[test]
fn pubacks(rt: HostRuntime) -> Result<(), Fail> {
    for (groups, full, code) in &[(0, 0, 0x10), (2, 1, 0x97), (2, 2, 0x00)] {
        assert_same(&rt, &puback_code(*groups, *full).get(), code);
    }
    Ok(())
}

// The Reason Code with which a packet closes that has so many entries after its header, identifier and properties.
fn closes_with(
    alloc: Global,
    head: &[u8],
    count: u8,
    entry: &[u8],
) -> Result<Option<ReasonCode>, Fault> {
    let mut bytes = Vec::from_slice(alloc, head)?;
    for _ in 0..count {
        bytes.extend_from_slice(entry)?;
    }
    refusal(alloc, &bytes)
}

#[test]
fn entries_that_close(rt: HostRuntime) -> Result<(), Fail> {
    let unsuited = Some(ReasonCode::IMPLEMENTATION_SPECIFIC_ERROR);
    let wrong = Some(ReasonCode::PROTOCOL_ERROR);
    let plain = b"\0\x01a".as_slice();
    let local = b"\0\x01a\x05".as_slice();
    let shared = b"\0\x0A$share/g/a\x05".as_slice();
    let rows = [
        (b"\xA2\x63\0\x01\0", 32, plain, None),
        (b"\xA2\x66\0\x01\0", 33, plain, unsuited),
        (b"\x82\x7B\0\x01\0", 30, local, None),
        (b"\x82\x1D\0\x01\0", 2, shared, wrong),
    ];
    for (head, count, entry, wanted) in &rows {
        let code = closes_with(rt.alloc(), head.as_slice(), *count, entry)?;
        assert_same(&rt, &code, wanted);
    }
    Ok(())
}

// The Reason Code of an entry that is refused; `None` of one that asks to join a group.
fn code_of(answer: &EntryAnswer) -> Option<ReasonCode> {
    match answer {
        EntryAnswer::Refuse(code) => Some(*code),
        EntryAnswer::Join(_) => None,
    }
}

// The Reason Code of the last entry of a SUBSCRIBE.
fn code_of_last(subscribe: Subscribe) -> Option<ReasonCode> {
    let mut entries = subscribe.subscriptions.into_vec();
    let answer = answer_to_entry(entries.pop()?);
    code_of(&answer)
}

// The Reason Code of the one entry of a SUBSCRIBE; `None` where it asks to join a group.
fn entry(alloc: Global, digits: &str) -> Result<Option<ReasonCode>, Fault> {
    match packet(alloc, digits) {
        Ok(Some(Packet::Subscribe(subscribe))) => Ok(code_of_last(subscribe)),
        Ok(other) => {
            drop(other);
            Err(Fault::Stream(StreamFault::Malformed))
        }
        Err(fault) => Err(fault),
    }
}

#[test]
fn entries_of_a_subscribe(rt: HostRuntime) -> Result<(), Fail> {
    let unsuited = Some(ReasonCode::IMPLEMENTATION_SPECIFIC_ERROR);
    let invalid = Some(ReasonCode::TOPIC_FILTER_INVALID);
    let rows = [
        ("8212000100000C2473686172652F672F6A6F6201", None),
        ("8212000100000C2473686172652F672F6A6F6202", None),
        ("8212000100000C2473686172652F672F6A6F6200", unsuited),
        ("820700010000016101", unsuited),
        ("82080001000002612301", invalid),
        ("820E00010000082473686172652F6701", invalid),
        ("82090001020B0500016101", unsuited),
        ("82140001020B05000C2473686172652F672F6A6F6201", None),
    ];
    for (digits, wanted) in &rows {
        assert_same_at(&rt, &entry(rt.alloc(), digits)?, wanted, digits);
    }
    Ok(())
}

#[test]
fn faults(rt: HostRuntime) -> Result<(), Fail> {
    let rows = [
        (StreamFault::Malformed, 0x81, None),
        (
            StreamFault::Protocol,
            0x82,
            Some(ConnectRefusal::ProtocolError),
        ),
        (StreamFault::TooLarge, 0x95, None),
    ];
    for (fault, code, refusal) in &rows {
        assert_same(&rt, &fault_code(*fault).get(), code);
        assert_same(&rt, &fault_refusal(*fault), refusal);
    }
    Ok(())
}

#[test]
fn endings(rt: HostRuntime) -> Result<(), Fail> {
    assert!(rt; is_overdue(60, 90_000) && !is_overdue(60, 89_999));
    assert!(rt; !is_overdue(0, u64::MAX));
    assert!(rt; is_late(10_000) && !is_late(9_999));
    assert_same(&rt, &fate_of(ReasonCode::new(0x7F)), &Fate::Acknowledged);
    assert_same(&rt, &fate_of(ReasonCode::new(0x80)), &Fate::Refused);
    Ok(())
}
