//! Groups on one thread: what became of a few messages, and each refusal.

use crate::asserting::{assert_items, assert_same, assert_text};
use bytes::Bytes;
use group_jobs::{Envelope, Fate, Message, SharedMessage, Stamp};
use local_group::{LocalGroup, OfferError, TakeError};
use mqtt_packet::{RareProperties, Text};
use mqtt_topic::Share;
use std::alloc::Global;
use std::test::Fail;

/// A message of this payload.
pub fn message(alloc: Global, payload: &'static [u8]) -> Option<SharedMessage> {
    let topic = Text::parse(Bytes::from_static(b"job"))?;
    let message = Message {
        topic,
        expiry: None,
        properties: RareProperties::none(),
        payload: Bytes::from_static(payload),
    };
    SharedMessage::new(alloc, message).ok()
}

// Offers a message through a port, and tells its number or the number of the refusal.
fn offer(alloc: Global, group: &mut LocalGroup, port: u8, payload: &'static [u8]) -> Option<u64> {
    let message = message(alloc, payload)?;
    match group.offer(port % 64, message) {
        Ok(stamp) => Some(stamp.number),
        Err(refused) => {
            let is_handed_back = refused.message.payload.as_slice() == payload;
            let number = u64::from(refused.why.number());
            drop(refused);
            is_handed_back.then_some(number)
        }
    }
}

// What a member does with a message that it was handed.
#[derive(Clone, Copy)]
enum Does {
    Settle(Fate),
    GiveBack,
    Keep,
}

// Ends a hand-out, and tells its number and its first byte; none where the group does not know it.
fn end(group: &mut LocalGroup, envelope: Envelope, does: Does) -> Option<(u64, u8)> {
    let told = (
        envelope.stamp().number,
        envelope
            .message()
            .payload
            .as_slice()
            .first()
            .copied()
            .unwrap_or(0),
    );
    if !group.is_held(&envelope) {
        let _ = envelope.open();
        return None;
    }
    match does {
        Does::Settle(fate) => {
            group.settle(envelope, fate);
        }
        Does::GiveBack => group.give_back(envelope),
        Does::Keep => {
            let _ = envelope.open();
        }
    }
    Some(told)
}

// Hands the oldest message to a place, which ends the hand-out so.
fn take(group: &mut LocalGroup, place: u8, does: Does) -> Result<Option<(u64, u8)>, TakeError> {
    match group.take(place % 32)? {
        Some(envelope) => Ok(end(group, envelope, does)),
        None => Ok(None),
    }
}

// The same with what was given back.
fn take_back(
    group: &mut LocalGroup,
    place: u8,
    does: Does,
) -> Result<Option<(u64, u8)>, TakeError> {
    match group.take_back(place % 32)? {
        Some(envelope) => Ok(end(group, envelope, does)),
        None => Ok(None),
    }
}

// The report line of the group.
fn line(alloc: Global, group: &LocalGroup) -> Result<Vec<u8>, Fail> {
    let text = Text::parse(Bytes::from_static(b"$share/g/job")).ok_or("a text")?;
    let Ok(share) = Share::parse(text) else {
        return Err("a share".into());
    };
    Ok(group.report(alloc)?.line(alloc, &share)?)
}

#[test]
fn group_ledger(rt: HostRuntime) -> Result<(), Fail> {
    let mut group = LocalGroup::open(rt.alloc(), 0, 8)?;
    for number in 0..4u64 {
        assert_same(&rt, &offer(rt.alloc(), &mut group, 0, b"A"), &Some(number));
    }
    let acknowledged = Does::Settle(Fate::Acknowledged);
    assert_same(
        &rt,
        &take(&mut group, 0, acknowledged),
        &Ok(Some((0, b'A'))),
    );
    assert_same(
        &rt,
        &take(&mut group, 0, Does::GiveBack),
        &Ok(Some((1, b'A'))),
    );
    assert_same(&rt, &take(&mut group, 1, Does::Keep), &Ok(Some((2, b'A'))));
    group.close();
    group.close();
    assert_same(&rt, &group.events().len(), &10);
    assert_same(&rt, &offer(rt.alloc(), &mut group, 0, b"B"), &Some(401));
    assert_same(&rt, &take(&mut group, 0, Does::Keep), &Err(TakeError::Shut));
    assert_same(
        &rt,
        &take_back(&mut group, 0, Does::Keep),
        &Err(TakeError::Shut),
    );
    let report = line(rt.alloc(), &group)?;
    let wanted =
        b"$share/g/job accepted 4 acknowledged 1 refused 0 held 1 queued 1 returned 1 discarded 0\n";
    assert_items(&rt, report.as_slice(), wanted.as_slice());
    Ok(())
}

#[test]
fn full_queue(rt: HostRuntime) -> Result<(), Fail> {
    let mut group = LocalGroup::open(rt.alloc(), 0, 1)?;
    assert_same(&rt, &offer(rt.alloc(), &mut group, 0, b"A"), &Some(0));
    assert_same(&rt, &offer(rt.alloc(), &mut group, 1, b"B"), &Some(501));
    assert_same(
        &rt,
        &take(&mut group, 31, Does::Settle(Fate::Refused)),
        &Ok(Some((0, b'A'))),
    );
    assert_same(&rt, &take(&mut group, 31, Does::Keep), &Ok(None));
    assert_same(&rt, &offer(rt.alloc(), &mut group, 1, b"B"), &Some(0));
    let report = line(rt.alloc(), &group)?;
    let wanted =
        b"$share/g/job accepted 2 acknowledged 0 refused 1 held 0 queued 1 returned 0 discarded 0\n";
    assert_items(&rt, report.as_slice(), wanted.as_slice());
    Ok(())
}

// A discarded message is counted so, and goes to no other place.
#[test]
fn discarded_message(rt: HostRuntime) -> Result<(), Fail> {
    let mut group = LocalGroup::open(rt.alloc(), 0, 1)?;
    assert_same(&rt, &offer(rt.alloc(), &mut group, 0, b"A"), &Some(0));
    let discarded = Does::Settle(Fate::Discarded);
    assert_same(&rt, &take(&mut group, 7, discarded), &Ok(Some((0, b'A'))));
    assert_same(&rt, &take(&mut group, 8, Does::Keep), &Ok(None));
    assert_same(&rt, &take_back(&mut group, 8, Does::Keep), &Ok(None));
    let report = line(rt.alloc(), &group)?;
    let wanted =
        b"$share/g/job accepted 1 acknowledged 0 refused 0 held 0 queued 0 returned 0 discarded 1\n";
    assert_items(&rt, report.as_slice(), wanted.as_slice());
    Ok(())
}

// What was given back goes to another place, and first back, first out.
#[test]
fn returned_out_of_order(rt: HostRuntime) -> Result<(), Fail> {
    let mut group = LocalGroup::open(rt.alloc(), 3, 8)?;
    assert_same(&rt, &take_back(&mut group, 0, Does::Keep), &Ok(None));
    assert_same(&rt, &offer(rt.alloc(), &mut group, 2, b"A"), &Some(0));
    assert_same(&rt, &offer(rt.alloc(), &mut group, 2, b"B"), &Some(1));
    assert_same(
        &rt,
        &take(&mut group, 0, Does::GiveBack),
        &Ok(Some((0, b'A'))),
    );
    assert_same(
        &rt,
        &take(&mut group, 1, Does::GiveBack),
        &Ok(Some((1, b'B'))),
    );
    let acknowledged = Does::Settle(Fate::Acknowledged);
    assert_same(
        &rt,
        &take_back(&mut group, 1, acknowledged),
        &Ok(Some((0, b'A'))),
    );
    assert_same(
        &rt,
        &take_back(&mut group, 0, Does::Keep),
        &Ok(Some((1, b'B'))),
    );
    Ok(())
}

#[test]
fn strangers_are_not_held(rt: HostRuntime) -> Result<(), Fail> {
    let stamp = Stamp {
        group: 0,
        port: 0,
        number: 0,
    };
    let message = message(rt.alloc(), b"A").ok_or("a message")?;
    let mut group = LocalGroup::open(rt.alloc(), 0, 8)?;
    let stranger = Envelope::new(stamp, 0, message);
    assert!(rt; end(&mut group, stranger, Does::Keep).is_none());
    Ok(())
}

#[test]
fn errors(rt: HostRuntime) -> Result<(), Fail> {
    let told = format!(in rt.alloc();
        "{}, {}, {}, {}",
        OfferError::Shut,
        OfferError::LifeSpent,
        OfferError::Full,
        OfferError::Memory
    )?;
    assert_text(
        &rt,
        told.as_str(),
        "the group is closed, the port has accepted all messages of its life, the queue is full, out of memory",
    );
    assert_same(&rt, &OfferError::LifeSpent.number(), &502);
    assert_same(&rt, &OfferError::Memory.number(), &503);
    let told = format!(in rt.alloc(); "{}, {}", TakeError::Shut, TakeError::Memory)?;
    assert_text(&rt, told.as_str(), "the group is closed, out of memory");
    assert_same(&rt, &TakeError::Memory.number(), &503);
    Ok(())
}
