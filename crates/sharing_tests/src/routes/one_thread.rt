//! Two workers on one thread: what the one binds the other learns, what it is told of it knows, and the ninth share finds no slot.
ghost use Rattle.std.specs.Prelude.{◌≡◌};

use crate::asserting::assert_same;
use bytes::Bytes;
use mqtt_packet::Text;
use mqtt_topic::{Share, Slots, TopicName};
use shared_routes::{BindError, KnownRoutes, NewShares, SharedRoutes};
use std::alloc::Global;
use std::test::Fail;

/// Nine shares, each of a topic of its own, but for the last, which has all topics.
pub(crate) const SHARES: [&str; 9] = [
    "$share/g/a",
    "$share/g/b",
    "$share/g/c",
    "$share/g/d",
    "$share/g/e",
    "$share/g/f",
    "$share/g/g",
    "$share/g/#",
    "$share/h/#",
];

/// The share of this text.
pub(crate) fn share(text: &'static str) -> Option<Share> {
    Share::parse(Text::parse(Bytes::from_static(text.as_bytes()))?).ok()
}

/// The slot at which a worker binds the share of this text.
pub(crate) fn bound(
    alloc: Global,
    known: &mut KnownRoutes<'_>,
    text: &'static str,
) -> Option<Result<u8, BindError>>
    ensures { known.new.table ≡ known.old.table }
{
    Some(known.bind(alloc, share(text)?))
}

/// The slot that a worker knows for the share of this text.
fn found(known: &KnownRoutes<'_>, text: &'static str) -> Option<u8> {
    known.find(&share(text)?)
}

/// The slots to which a name is routed, as far as a worker knows.
fn routed(known: &KnownRoutes<'_>, name: &'static str) -> Option<Slots> {
    let name = TopicName::parse(Text::parse(Bytes::from_static(name.as_bytes()))?).ok()?;
    Some(known.matching(&name))
}

#[test]
fn what_one_binds_another_learns(rt: HostRuntime) -> Result<(), Fail> {
    let routes = SharedRoutes::new(rt.alloc(), NewShares::Bound);
    let mut one = KnownRoutes::new(rt.alloc(), &routes)?;
    let mut other = KnownRoutes::new(rt.alloc(), &routes)?;
    for (slot, text) in SHARES.iter().take(8).enumerate() {
        assert_same(
            &rt,
            &bound(rt.alloc(), &mut one, *text),
            &Some(Ok(slot as u8)),
        );
    }
    assert_same(&rt, &found(&other, SHARES[7]), &None);
    other.refresh();
    assert_same(&rt, &found(&other, SHARES[7]), &Some(7));
    let slots = routed(&other, "c").ok_or("it is a name")?;
    assert!(rt; slots.len() == 2 && slots.contains(2) && slots.contains(7));
    Ok(())
}

#[test]
fn what_it_was_told_of_it_knows(rt: HostRuntime) -> Result<(), Fail> {
    let routes = SharedRoutes::new(rt.alloc(), NewShares::Bound);
    let mut one = KnownRoutes::new(rt.alloc(), &routes)?;
    let mut other = KnownRoutes::new(rt.alloc(), &routes)?;
    assert_same(&rt, &bound(rt.alloc(), &mut one, SHARES[0]), &Some(Ok(0)));
    assert_same(&rt, &bound(rt.alloc(), &mut one, SHARES[1]), &Some(Ok(1)));
    one.publish(&mut other);
    assert_same(&rt, &found(&other, SHARES[1]), &None);
    other.refresh();
    assert_same(&rt, &found(&other, SHARES[1]), &Some(1));
    other.publish(&mut one);
    assert_same(&rt, &bound(rt.alloc(), &mut other, SHARES[2]), &Some(Ok(2)));
    Ok(())
}

#[test]
fn a_share_has_one_slot(rt: HostRuntime) -> Result<(), Fail> {
    let routes = SharedRoutes::new(rt.alloc(), NewShares::Bound);
    let mut one = KnownRoutes::new(rt.alloc(), &routes)?;
    let mut other = KnownRoutes::new(rt.alloc(), &routes)?;
    assert_same(&rt, &bound(rt.alloc(), &mut one, SHARES[3]), &Some(Ok(0)));
    assert_same(&rt, &bound(rt.alloc(), &mut other, SHARES[4]), &Some(Ok(1)));
    assert_same(&rt, &bound(rt.alloc(), &mut other, SHARES[3]), &Some(Ok(0)));
    assert_same(&rt, &bound(rt.alloc(), &mut one, SHARES[4]), &Some(Ok(1)));
    Ok(())
}

#[test]
fn the_ninth_share_finds_no_slot(rt: HostRuntime) -> Result<(), Fail> {
    let routes = SharedRoutes::new(rt.alloc(), NewShares::Bound);
    let mut one = KnownRoutes::new(rt.alloc(), &routes)?;
    let mut other = KnownRoutes::new(rt.alloc(), &routes)?;
    for text in SHARES.iter().take(8) {
        let _ = bound(rt.alloc(), &mut one, *text);
    }
    assert_same(
        &rt,
        &bound(rt.alloc(), &mut other, SHARES[8]),
        &Some(Err(BindError::NoSlot)),
    );
    assert_same(&rt, &bound(rt.alloc(), &mut other, SHARES[0]), &Some(Ok(0)));
    Ok(())
}

#[test]
fn only_what_is_declared_is_bound(rt: HostRuntime) -> Result<(), Fail> {
    let routes = SharedRoutes::new(rt.alloc(), NewShares::Refused);
    let mut one = KnownRoutes::new(rt.alloc(), &routes)?;
    let mut other = KnownRoutes::new(rt.alloc(), &routes)?;
    let declared = share(SHARES[0]).ok_or("it is a share")?;
    assert!(rt; one.declare(rt.alloc(), declared) == Ok(0));
    other.refresh();
    assert_same(&rt, &bound(rt.alloc(), &mut other, SHARES[0]), &Some(Ok(0)));
    assert_same(
        &rt,
        &bound(rt.alloc(), &mut other, SHARES[1]),
        &Some(Err(BindError::NotDeclared)),
    );
    assert_same(&rt, &found(&other, SHARES[1]), &None);
    Ok(())
}

#[test]
fn a_refusal_says_why(rt: HostRuntime) -> Result<(), Fail> {
    for (refusal, text, number) in [
        (BindError::NoSlot, "no slot is free", 205),
        (BindError::Memory, "out of memory", 206),
        (BindError::NotDeclared, "the share is not declared", 207),
    ] {
        let told = format!(in rt.alloc(); "{refusal}")?;
        assert!(rt; told.as_str() == text && refusal.number() == number);
    }
    Ok(())
}
