//! What a user may do.
ghost use Rattle.std.specs.Prelude.{◌≡◌, bytes_eq, OnOk};
ghost use Rattle.std.specs.List.{list_any};
ghost use Rattle.users.specs.Granting.{with_right};
ghost use Rattle.users.specs.Rights.{all_rights, is_given_share, is_given_topic, is_limited, may_publish, may_use, may_work, owns_client};

use crate::right::Right;
use mqtt_packet::Text;
use mqtt_topic::{Filter, Share, TopicName};
use std::alloc::{AllocError, Global};
use std::marker::Model;

/// What a user may do: publish to the topics that one of these filters matches, work for these shares, and connect under these client identifiers.
#[derive(Drop)]
pub(crate) struct Rights {
    pub(crate) publish: Vec<Filter>,
    pub(crate) work: Vec<Share>,
    pub(crate) clients: Vec<Text>,
}

impl Model for Rights {
    ghost use Rattle.std.specs.Prelude.{map};
    ghost use Rattle.users.specs.Table.{Rights};

    ghost Value = { Rights };

    ghost view = { λ r. record { publish = r.publish.items; work = map (λ share. share.text) r.work.items; clients = r.clients.items } };
}

impl Rights {
    /// Those of a user of whom nothing is said.
    pub(crate) fn all(alloc: Global) -> Rights
        ensures { result ≡ all_rights }
    {
        Rights {
            publish: Vec::new(alloc),
            work: Vec::new(alloc),
            clients: Vec::new(alloc),
        }
    }

    /// Adds a right.
    ///
    /// # Errors
    ///
    /// An allocation failed.
    pub(crate) fn add(&mut self, right: Right) -> Result<(), AllocError>
        ensures { OnOk result (self.new ≡ with_right self.old right) }
    {
        match right {
            Right::Publish(filter) => self.publish.push(filter)?,
            Right::Work(share) => self.work.push(share)?,
            Right::Client(client) => self.clients.push(client)?,
        }
        Ok(())
    }

    /// Whether topics to publish to, or shares to work for, are given.
    fn is_limited(&self) -> bool
        ensures { result ≡ is_limited self.now }
    {
        !self.publish.is_empty() || !self.work.is_empty()
    }

    /// Whether the user may publish to a topic. It takes no memory.
    #[tactic(auto, unfolding(crate::specs::Rights::may_publish))]
    pub(crate) fn may_publish(&self, topic: &TopicName) -> bool
        ensures { result ≡ may_publish self.now topic.now }
    {
        !self.is_limited() || self.is_given_topic(topic)
    }

    /// Whether one of the filters matches the topic.
    fn is_given_topic(&self, topic: &TopicName) -> bool
        ensures { result ≡ is_given_topic self.now topic.now }
    {
        self.publish.iter().any(|filter| filter.matches(topic))
    }

    /// Whether the user may work for a share. It takes no memory.
    #[tactic(auto, unfolding(crate::specs::Rights::may_work))]
    pub(crate) fn may_work(&self, share: &Share) -> bool
        ensures { result ≡ may_work self.now share.now.text }
    {
        !self.is_limited() || self.is_given_share(share)
    }

    /// Whether a share is among the shares.
    #[tactic(auto, using(crate::proofs::Allowed::any_mapped))]
    fn is_given_share(&self, share: &Share) -> bool
        ensures { result ≡ is_given_share self.now share.now.text }
    {
        is_among(self.work.as_slice(), share.text())
    }

    /// Whether a client identifier is among those of the user.
    pub(crate) fn owns_client(&self, client: &[u8]) -> bool
        ensures { result ≡ owns_client self.now client.now }
    {
        self.clients.iter().any(|own| own.as_bytes() == client)
    }

    /// Whether a client identifier is one of the user's, where it has any.
    pub(crate) fn may_use(&self, client: &[u8]) -> bool
        ensures { result ≡ may_use self.now client.now }
    {
        self.clients.is_empty() || self.owns_client(client)
    }
}

/// Whether a share of that text is among the shares.
fn is_among(shares: &[Share], text: &[u8]) -> bool
    ensures { result ≡ list_any (λ share. bytes_eq text.now share.text) shares.now }
{
    shares.iter().any(|share| text == share.text())
}
