//! What a broker begins with.
ghost use Rattle.std.specs.Prelude.{◌≡◌, ◌<◌, ◌≤◌, ◌↔◌, IfSome, IsSome};
ghost use Rattle.conn_rules.specs.Setups.{most_capacity};

use crate::client_limits::MaxInflight;
use limits::MOST_WAITING;
use mqtt_topic::Routes;
use std::marker::Model;

/// How many messages may wait in the queue of a group: 1 to 65,536 (profile).
#[derive(Clone, Copy, Debug, PartialEq, Eq)]
pub struct QueueCapacity {
    messages: u32,
}

impl Model for QueueCapacity {
    ghost use Rattle.std.specs.Prelude.{ℕ, ◌<◌, ◌≤◌};
    ghost use Rattle.conn_rules.specs.Setups.{most_capacity};

    ghost Value = { ℕ };

    ghost view = { λ capacity. capacity.messages };

    ghost invariant = { λ capacity. (0 < capacity.messages) × (capacity.messages ≤ most_capacity) };

    ghost inverse = { λ number. record { messages = number } };
}

impl QueueCapacity {
    /// The capacity of that number; `None` for 0, and for one above 65,536.
    pub fn new(messages: u32) -> Option<QueueCapacity>
        ensures value { IfSome result (λ capacity. capacity ≡ messages) }
        ensures found { IsSome result ↔ ((0 < messages) × (messages ≤ most_capacity)) }
    {
        if messages == 0 || messages > MOST_WAITING {
            return None;
        }
        Some(QueueCapacity { messages })
    }

    /// Its number, from 1 to 65,536.
    pub fn get(self) -> u32
        ensures value { result ≡ self }
        ensures within { (0 < result) × (result ≤ most_capacity) }
    {
        self.messages
    }
}

/// What a broker begins with.
#[derive(Drop)]
pub struct Setup {
    /// How many messages may wait in the queue of each group.
    pub capacity: QueueCapacity,
    /// How many messages a client has unacknowledged at most, whatever its Receive Maximum.
    pub max_inflight: MaxInflight,
    /// The shares that are bound, each to the slot of its group.
    pub groups: Routes,
}
