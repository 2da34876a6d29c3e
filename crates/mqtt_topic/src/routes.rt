//! The table of routes: which share is bound to which slot.

ghost use Rattle.std.specs.Prelude.{◌≡◌, [], ◌<◌, ◌≤◌, length, position, All, IfOk, IfSome};
ghost use Rattle.limits.specs.Limits.{most_groups};
ghost use Rattle.mqtt_topic.specs.Routes.{slot_of, routed, byte_of, sets_of, places_of, AreDistinct, BindAnswers};

use crate::error::TopicError;
use crate::share::Share;
use crate::slots::Slots;
use crate::topic_name::TopicName;
use limits::MOST_GROUPS;
use std::alloc::Global;
use std::marker::Model;

/// The most shares that are bound.
const MOST_ROUTES: usize = MOST_GROUPS as usize;

/// Up to eight shares, each bound to a slot from 0 to 7 for good.
#[derive(Debug, Drop)]
pub struct Routes {
    shares: Vec<Share>,
}

impl Model for Routes {
    ghost use Rattle.std.specs.Prelude.{List, length, ◌≤◌};
    ghost use Rattle.limits.specs.Limits.{most_groups};
    ghost use Rattle.mqtt_topic.specs.Names.{Share};
    ghost use Rattle.mqtt_topic.specs.Routes.{AreDistinct};

    ghost Value = { List Share };

    ghost view = { λ routes. routes.shares.items };

    ghost invariant = { λ routes. (length routes.shares.items ≤ most_groups) × AreDistinct routes.shares.items };
}

impl Routes {
    /// A table in which nothing is bound.
    pub fn new(alloc: Global) -> Routes
        ensures { result ≡ [] }
    {
        Routes {
            shares: Vec::new(alloc),
        }
    }

    /// Binds the share: the slot that it is bound to already, or the least free one. Refusals: 205 where all eight slots are
    /// bound to other shares, 206 where memory is refused; then nothing has changed.
    pub fn bind(&mut self, share: Share) -> Result<u8, TopicError>
        ensures answer { BindAnswers self.old share result self.new }
        ensures small { IfOk result (λ slot. slot < most_groups) }
    {
        if let Some(slot) = self.find(&share) {
            return Ok(slot);
        }
        let slot = self.shares.len();
        if slot == MOST_ROUTES {
            return Err(TopicError::NoSlot);
        }
        self.shares.push(share)?;
        Ok(slot as u8)
    }

    /// The slot that the share is bound to; `None` where it is bound to none.
    pub fn find(&self, share: &Share) -> Option<u8>
        ensures value { result ≡ slot_of share.now.text self.now }
        ensures small { IfSome result (λ slot. slot < most_groups) }
    {
        let text = share.text();
        let slot = place_of(self.shares.as_slice(), text)?;
        Some(slot as u8)
    }

    /// The bound shares, the one of slot n at place n: eight at most, and no two of one text.
    pub fn shares(&self) -> &[Share]
        ensures value { result.now ≡ self.now }
        ensures few { length result.now ≤ most_groups }
        ensures distinct { AreDistinct result.now }
    {
        self.shares.as_slice()
    }

    /// The bound slots whose filter matches the name. It takes no memory.
    pub fn matching(&self, name: &TopicName) -> Slots
        ensures value { result ≡ places_of 0 (routed name.now self.now) }
        ensures small { All (λ slot. slot < most_groups) result }
    {
        Slots::from_byte(byte_of(self.shares.as_slice(), name))
    }
}

/// The set of the slots whose share's filter matches the name, as a byte.
fn byte_of(shares: &[Share], name: &TopicName) -> u8
    requires { length shares.now ≤ most_groups }
    ensures value { result ≡ byte_of (routed name.now shares.now) }
    ensures bound { result < sets_of (length shares.now) }
{
    match shares {
        [] => 0,
        [share, others @ ..] => u8::from(share.matches(name)) + 2 * byte_of(others, name),
    }
}

/// Where the share of that text stands.
fn place_of(shares: &[Share], text: &[u8]) -> Option<usize>
    ensures { result ≡ slot_of text.now shares.now }
{
    shares.iter().position(|share| share.text() == text)
}
