//! A row of calls, of which each that memory refuses is made again, so that the report is the same whichever allocation fails: four
//! offers; a place takes two messages, of which it settles one and gives one back; another takes one; the group closes.

use crate::asserting::{assert_items, assert_same};
use crate::local::groups::message;
use dispatch_core::Job;
use group_jobs::{Envelope, Fate, Report, SharedMessage};
use local_group::{LocalGroup, OfferError};
use std::alloc::Global;
use std::test::Fail;

// A group with room for eight messages; where that was refused, once more.
fn open_again(alloc: Global) -> Option<LocalGroup> {
    match LocalGroup::open(alloc, 0, 8) {
        Ok(group) => Some(group),
        Err(_) => LocalGroup::open(alloc, 0, 8).ok(),
    }
}

// A message; where that was refused, once more.
fn message_again(alloc: Global) -> Option<SharedMessage> {
    match message(alloc, b"A") {
        Some(message) => Some(message),
        None => message(alloc, b"A"),
    }
}

// Offers a message; where memory was refused, once more, what was handed back. Tells its number.
fn offer_again(alloc: Global, group: &mut LocalGroup) -> Option<u64> {
    let message = message_again(alloc)?;
    match group.offer(0, message) {
        Ok(stamp) => Some(stamp.number),
        Err(refused) if refused.why == OfferError::Memory => {
            match group.offer(0, refused.message) {
                Ok(stamp) => Some(stamp.number),
                Err(refused) => {
                    drop(refused);
                    None
                }
            }
        }
        Err(refused) => {
            drop(refused);
            None
        }
    }
}

// Takes a message; where that was refused, once more.
fn take_again(group: &mut LocalGroup, place: u8) -> Option<Envelope> {
    match group.take(place % 32) {
        Ok(taken) => taken,
        Err(_) => group.take(place % 32).ok()?,
    }
}

// Settles what the group has out with this envelope, and else lets it go.
fn settle(group: &mut LocalGroup, envelope: Envelope) {
    if group.is_held(&envelope) {
        group.settle(envelope, Fate::Acknowledged);
    } else {
        let _ = envelope.open();
    }
}

// Gives back what the group has out with this envelope, and else lets it go.
fn give_back(group: &mut LocalGroup, envelope: Envelope) {
    if group.is_held(&envelope) {
        group.give_back(envelope);
    } else {
        let _ = envelope.open();
    }
}

// The report; where that was refused, once more.
fn report_again(alloc: Global, group: &LocalGroup) -> Option<Report> {
    match group.report(alloc) {
        Ok(report) => Some(report),
        Err(_) => group.report(alloc).ok(),
    }
}

// The row, and its report.
fn row(alloc: Global) -> Option<Report> {
    let mut group = open_again(alloc)?;
    for _ in 0..4u8 {
        offer_again(alloc, &mut group)?;
    }
    let first = take_again(&mut group, 0)?;
    settle(&mut group, first);
    let second = take_again(&mut group, 0)?;
    give_back(&mut group, second);
    let third = take_again(&mut group, 1)?;
    let _ = third.open();
    group.close();
    report_again(alloc, &group)
}

#[test]
fn refused_calls_made_again(rt: HostRuntime) -> Result<(), Fail> {
    let report = row(rt.alloc()).ok_or("a report")?;
    assert_same(&rt, &report.accepted.first().copied(), &Some(4));
    assert_same(&rt, &report.settled.acknowledged.len(), &1);
    assert!(rt;
        report
            .settled
            .acknowledged
            .contains(Job { port: 0, number: 0 })
    );
    assert!(rt; report.settled.refused.is_empty());
    assert!(rt; report.settled.discarded.is_empty());
    assert_items(
        &rt,
        report.held.as_slice(),
        &[Job { port: 0, number: 2 }][..],
    );
    assert_items(
        &rt,
        report.queued.as_slice(),
        &[Job { port: 0, number: 3 }][..],
    );
    assert_items(
        &rt,
        report.returned.as_slice(),
        &[Job { port: 0, number: 1 }][..],
    );
    drop(report);
    Ok(())
}
