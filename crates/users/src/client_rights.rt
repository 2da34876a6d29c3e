//! What one client may do.
ghost use Rattle.std.specs.Prelude.{◌≡◌, MatchOption};
ghost use Rattle.users.specs.Layout.{rights_at};
ghost use Rattle.users.specs.Rights.{all_rights, may_publish, may_work};

use crate::rights::Rights;
use crate::shared::SharedUsers;
use mqtt_topic::{Share, TopicName};
use std::marker::Model;

/// A user, by its place in a table of users.
#[derive(Drop)]
struct Place {
    users: SharedUsers,
    index: usize,
}

/// What a client may do: what the user may do as which it has connected, or everything.
///
/// It is an owner of the table of users, and no question to it takes memory. Contracts see it as `Rights`.
#[derive(Drop)]
pub struct ClientRights {
    place: Option<Place>,
}

impl Model for ClientRights {
    ghost use Rattle.users.specs.Table.{Rights};
    ghost use Rattle.users.specs.Places.{rights_there};

    ghost Value = { Rights };

    ghost view = { λ r. rights_there r.place };
}

impl ClientRights {
    /// Those of a client of whom nothing is said: it may do everything.
    pub fn all() -> ClientRights
        ensures { result ≡ all_rights }
    {
        ClientRights { place: None }
    }

    /// Those of the user at a place of a table.
    pub(crate) fn at(users: SharedUsers, index: usize) -> ClientRights
        ensures { result ≡ rights_at users index }
    {
        ClientRights {
            place: Some(Place { users, index }),
        }
    }

    /// The rights, where some are kept.
    fn kept(&self) -> Option<&Rights>
        ensures { MatchOption result (self.now ≡ all_rights) (λ rights. self.now ≡ rights.now) }
    {
        let place = self.place.as_ref()?;
        place.users.rights_at(place.index)
    }

    /// Whether the client may publish to the topic of this name: each topic, where the user is given none and no share, and else those that one of
    /// the user's filters matches. The time that it takes grows with those filters.
    #[tactic(auto, using(crate::proofs::Allowed::everything_may_be_published))]
    pub fn may_publish(&self, topic: &TopicName) -> bool
        ensures { result ≡ may_publish self.now topic.now }
    {
        match self.kept() {
            Some(rights) => rights.may_publish(topic),
            None => true,
        }
    }

    /// Whether the client may work for this share: for each one, where the user is given none and no topic, and else for those that it is given. The
    /// time that it takes grows with those shares.
    #[tactic(auto, using(crate::proofs::Allowed::every_share_may_be_worked_for))]
    pub fn may_work(&self, share: &Share) -> bool
        ensures { result ≡ may_work self.now share.now.text }
    {
        match self.kept() {
            Some(rights) => rights.may_work(share),
            None => true,
        }
    }
}
