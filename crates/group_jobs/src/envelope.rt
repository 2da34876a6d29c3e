//! Envelopes: messages in a member's hands.
ghost use Rattle.std.specs.Prelude.{◌≡◌, ◌<◌, ◌^◌};
ghost use Rattle.group_jobs.specs.Stamps.{envelope_of, under, identifier_of};

use crate::shared_message::SharedMessage;
use crate::stamp::Stamp;
use mqtt_packet::SubscriptionIdentifier;
use std::marker::Model;

/// A message that was handed out, with its stamp, the number of the place that holds it, and the Subscription Identifier under which
/// its client is sent it (section 3.3.2.3.8). It can't be dropped: the group that handed it out takes it back, settled, given back,
/// or in the list of what is held at the end. Only the groups are to
/// call [`Envelope::new`] and [`Envelope::open`], which no type enforces: what is private is private to a crate.
///
/// Contracts see it as a `Held`.
pub struct Envelope {
    stamp: Stamp,
    place: u8,
    // The number of the Subscription Identifier, or 0 where there is none. An envelope is moved some ten times on its way, and is no bigger for it.
    subscription: u32,
    message: SharedMessage,
}

impl Model for Envelope {
    ghost use Rattle.std.specs.Prelude.{◌<◌, ◌^◌};
    ghost use Rattle.group_jobs.specs.Stamps.{Held, identifier_of};

    ghost Value = { Held };

    ghost view = { λ e. record { stamp = e.stamp; place = e.place; message = e.message; subscription = identifier_of e.subscription } };

    ghost invariant = { λ e. e.subscription < 2 ^ 28 };
}

impl Envelope {
    /// An envelope, for a group, which makes one for each hand-out; it has no Subscription Identifier yet. A group can't tell one that was made elsewhere from its own
    /// where the stamp is that of a message that the place has out; else it is a stranger to it.
    pub fn new(stamp: Stamp, place: u8, message: SharedMessage) -> Envelope
        ensures { result ≡ envelope_of stamp place message }
    {
        Envelope {
            stamp,
            place,
            subscription: 0,
            message,
        }
    }

    /// The envelope under that Subscription Identifier, or under none.
    pub fn under(self, subscription: Option<SubscriptionIdentifier>) -> Envelope
        ensures { result ≡ under subscription self }
    {
        let Envelope {
            stamp,
            place,
            subscription: _,
            message,
        } = self;
        Envelope {
            stamp,
            place,
            subscription: number_of(subscription),
            message,
        }
    }

    /// Which message it is.
    pub fn stamp(&self) -> Stamp
        ensures { result ≡ self.now.stamp }
    {
        self.stamp
    }

    /// The place that holds it, from 0 to 31.
    pub fn place(&self) -> u8
        ensures { result ≡ self.now.place }
    {
        self.place
    }

    /// The message, to be shared.
    pub fn message(&self) -> &SharedMessage
        ensures { result.now ≡ self.now.message }
    {
        &self.message
    }

    /// The Subscription Identifier of the subscription for which it was handed out, if that has one.
    pub fn subscription(&self) -> Option<SubscriptionIdentifier>
        ensures { result ≡ self.now.subscription }
    {
        SubscriptionIdentifier::new(self.subscription)
    }

    /// Takes the envelope apart, for the group that it goes back to.
    pub fn open(self) -> (Stamp, SharedMessage)
        ensures { result ≡ (self.stamp, self.message) }
    {
        let Envelope {
            stamp,
            place: _,
            subscription: _,
            message,
        } = self;
        (stamp, message)
    }
}

/// The number of that Subscription Identifier, and 0, which is none's, where there is none.
fn number_of(subscription: Option<SubscriptionIdentifier>) -> u32
    ensures number { identifier_of result ≡ subscription }
    ensures range { result < 2 ^ 28 }
{
    match subscription {
        Some(identifier) => identifier.get(),
        None => 0,
    }
}
