//! Messages, ledgers, reports and the texts of errors.
use crate::asserting::assert_text;
use bytes::Bytes;
use group_jobs::{JobError, Message, SharedMessage};
use group_queue::{NotTaken, OfferError, Place, Port, SharedGroup};
use mqtt_packet::{PublishProperties, RareProperties, Text};
use std::alloc::Global;
use std::fmt::Display;
use std::process::Abort;

/// A message on the topic `job` with this payload.
pub fn message(alloc: Global, payload: &'static [u8]) -> Option<SharedMessage> {
    let topic = Text::parse(Bytes::from_static(b"job"))?;
    let mut properties = PublishProperties::new(alloc);
    properties.payload_format_indicator = Some(1);
    let message = Message {
        topic,
        expiry: None,
        properties: RareProperties::new(alloc, properties).ok()?,
        payload: Bytes::from_static(payload),
    };
    SharedMessage::new(alloc, message).ok()
}

fn crosses_threads<T: Send>() {}

fn is_shared_by_threads<T: Sync>() {}

#[test]
fn what_threads_may_do_with_it() {
    is_shared_by_threads::<SharedGroup<'static>>();
    crosses_threads::<SharedGroup<'static>>();
    crosses_threads::<Port>();
    crosses_threads::<Place>();
    crosses_threads::<SharedMessage>();
    is_shared_by_threads::<SharedMessage>();
}

/// An error has this text.
fn assert_told<E: Display>(rt: &impl Abort, alloc: Global, error: &E, wanted: &str) {
    let text = format!(in alloc; "{error}").ok().expect(rt, "memory");
    assert_text(rt, text.as_str(), wanted);
}

/// A refusal that hands a message back.
fn refused(alloc: Global) -> Option<NotTaken> {
    Some(NotTaken {
        message: message(alloc, b"A")?,
        error: OfferError::Full,
    })
}

#[test]
fn errors_have_texts(rt: HostRuntime) {
    let full = "the queue is full";
    assert_told(&rt, rt.alloc(), &OfferError::Full, full);
    let refused = refused(rt.alloc()).expect(&rt, "a message");
    assert_told(&rt, rt.alloc(), &refused, full);
    drop(refused);
    let spent = "the numbers of the port are used up";
    assert_told(&rt, rt.alloc(), &OfferError::LifeSpent, spent);
    assert_told(&rt, rt.alloc(), &JobError::Memory, "out of memory");
}
