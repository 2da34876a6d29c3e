//! Calls of a worker without connections. Each that memory refuses is made again.
ghost use Rattle.std.specs.Prelude.{◌≡◌, ◌∷◌, [], true, MatchOption};

use bytes::Bytes;
use conn_supply::{HoldingPlace, Supply};
use group_jobs::{Envelope, Fate, Message, SharedMessage};
use mqtt_packet::{RareProperties, Text};
use std::alloc::Global;

/// A message on the topic `job`.
pub(crate) fn message(alloc: Global) -> Option<SharedMessage> {
    let topic = Text::parse(Bytes::from_static(b"job"))?;
    let message = Message {
        topic,
        expiry: None,
        properties: RareProperties::none(),
        payload: Bytes::from_static(b"A"),
    };
    SharedMessage::new(alloc, message).ok()
}

/// Offers a message to the first group; its number.
fn offer_once<P: HoldingPlace, S: Supply<P>>(alloc: Global, supply: &mut S) -> Option<u64>
    requires { S.visiting supply.old ≡ true }
    ensures { S.visiting supply.new ≡ true }
{
    match message(alloc) {
        Some(message) => match supply.offer(0, 0, message) {
            Ok(stamp) => Some(stamp.number),
            Err(_) => None,
        },
        None => None,
    }
}

/// The same; where that was refused, once more.
pub(crate) fn offer<P: HoldingPlace, S: Supply<P>>(alloc: Global, supply: &mut S) -> Option<u64>
    requires { S.visiting supply.old ≡ true }
    ensures { S.visiting supply.new ≡ true }
{
    match offer_once::<P, S>(alloc, supply) {
        Some(number) => Some(number),
        None => offer_once::<P, S>(alloc, supply),
    }
}

/// Takes a message at a place at which none is out.
fn take_once<P: HoldingPlace, S: Supply<P>>(supply: &mut S, place: &mut P) -> Option<Envelope>
    requires visiting { S.visiting supply.old ≡ true }
    requires none { P.has_out place.old [] }
    ensures visiting { S.visiting supply.new ≡ true }
    ensures out { MatchOption result (P.has_out place.new []) (λ envelope. P.has_out place.new (envelope ∷ [])) }
{
    match supply.take(place) {
        Ok(Some(envelope)) => Some(envelope),
        Ok(None) => None,
        Err(_) => None,
    }
}

/// The same; where there was none, once more.
pub(crate) fn take<P: HoldingPlace, S: Supply<P>>(supply: &mut S, place: &mut P) -> Option<Envelope>
    requires visiting { S.visiting supply.old ≡ true }
    requires none { P.has_out place.old [] }
    ensures visiting { S.visiting supply.new ≡ true }
    ensures out { MatchOption result (P.has_out place.new []) (λ envelope. P.has_out place.new (envelope ∷ [])) }
{
    match take_once(supply, place) {
        Some(envelope) => Some(envelope),
        None => take_once(supply, place),
    }
}

/// The one message that is out at a place is settled.
fn settle<P: HoldingPlace, S: Supply<P>>(
    supply: &mut S,
    place: &mut P,
    envelope: Envelope,
    fate: Fate,
)
    requires { P.has_out place.old (envelope ∷ []) }
    ensures visiting { S.visiting supply.new ≡ S.visiting supply.old }
    ensures none { P.has_out place.new [] }
{
    supply.settle(place, envelope, fate);
}

/// Takes a message and acknowledges it; its number.
pub(crate) fn acknowledge<P: HoldingPlace, S: Supply<P>>(
    supply: &mut S,
    place: &mut P,
) -> Option<u64>
    requires visiting { S.visiting supply.old ≡ true }
    requires none { P.has_out place.old [] }
    ensures visiting { S.visiting supply.new ≡ true }
    ensures none { P.has_out place.new [] }
{
    match take(supply, place) {
        Some(envelope) => {
            let number = envelope.stamp().number;
            settle(supply, place, envelope, Fate::Acknowledged);
            Some(number)
        }
        None => None,
    }
}

/// The one message that is out at a place is given back. Where that was refused, it comes back.
fn give_once<P: HoldingPlace, S: Supply<P>>(
    supply: &mut S,
    place: &mut P,
    envelope: Envelope,
) -> Option<Envelope>
    requires { P.has_out place.old (envelope ∷ []) }
    ensures visiting { S.visiting supply.new ≡ S.visiting supply.old }
    ensures out { MatchOption result (P.has_out place.new []) (λ back. P.has_out place.new (back ∷ [])) }
{
    match supply.give_back(place, envelope) {
        Ok(()) => None,
        Err(back) => Some(back),
    }
}

/// The same; where that was refused, once more, and then the message is refused.
fn give_back<P: HoldingPlace, S: Supply<P>>(supply: &mut S, place: &mut P, envelope: Envelope)
    requires { P.has_out place.old (envelope ∷ []) }
    ensures visiting { S.visiting supply.new ≡ S.visiting supply.old }
    ensures none { P.has_out place.new [] }
{
    match give_once(supply, place, envelope) {
        None => {}
        Some(back) => match give_once(supply, place, back) {
            None => {}
            Some(back) => settle(supply, place, back, Fate::Refused),
        },
    }
}

/// Takes a message and gives it back; its number.
pub(crate) fn return_one<P: HoldingPlace, S: Supply<P>>(
    supply: &mut S,
    place: &mut P,
) -> Option<u64>
    requires visiting { S.visiting supply.old ≡ true }
    requires none { P.has_out place.old [] }
    ensures visiting { S.visiting supply.new ≡ true }
    ensures none { P.has_out place.new [] }
{
    match take(supply, place) {
        Some(envelope) => {
            let number = envelope.stamp().number;
            give_back(supply, place, envelope);
            Some(number)
        }
        None => None,
    }
}
