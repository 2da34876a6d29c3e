//! What the broker grants a client at most, whatever it asks for, and which clients it serves (profile).
ghost use Rattle.std.specs.Prelude.{◌≡◌, ◌<◌, ◌≤◌, ◌↔◌, IfOk, IfSome, IsSome};
ghost use Rattle.limits.specs.Limits.{most_unacknowledged};
ghost use Rattle.conn_rules.specs.Connecting.{inflight_alone};

use limits::MOST_UNACKNOWLEDGED;
use std::alloc::AllocError;
use std::marker::Model;
use users::SharedUsers;

/// How many PUBLISH packets the broker sends a client at most that it has not acknowledged, whatever its Receive Maximum: 1 to 256 (profile).
#[derive(Clone, Copy, Debug, PartialEq, Eq)]
pub struct MaxInflight {
    packets: u16,
}

impl Model for MaxInflight {
    ghost use Rattle.std.specs.Prelude.{ℕ, ◌<◌, ◌≤◌};
    ghost use Rattle.limits.specs.Limits.{most_unacknowledged};

    ghost Value = { ℕ };

    ghost view = { λ limit. limit.packets };

    ghost invariant = { λ limit. (0 < limit.packets) × (limit.packets ≤ most_unacknowledged) };

    ghost inverse = { λ number. record { packets = number } };
}

impl MaxInflight {
    /// The limit of that number; `None` for 0, and for one above 256.
    pub fn new(packets: u16) -> Option<MaxInflight>
        ensures value { IfSome result (λ limit. limit ≡ packets) }
        ensures found { IsSome result ↔ ((0 < packets) × (packets ≤ most_unacknowledged)) }
    {
        if packets == 0 || usize::from(packets) > MOST_UNACKNOWLEDGED {
            return None;
        }
        Some(MaxInflight { packets })
    }

    /// The highest limit: 256, as many as a session holds.
    pub fn most() -> MaxInflight
        ensures { result ≡ most_unacknowledged }
    {
        MaxInflight {
            packets: MOST_UNACKNOWLEDGED as u16,
        }
    }

    /// Its number, from 1 to 256.
    pub fn get(self) -> u16
        ensures value { result ≡ self }
        ensures within { (0 < result) × (result ≤ most_unacknowledged) }
    {
        self.packets
    }
}

/// For how many seconds a session outlives its connection at most, whatever its client asks for: 1 or more (profile). The highest, 2^32 - 1, limits nothing: such a session
/// ends by no time.
#[derive(Clone, Copy, Debug, PartialEq, Eq)]
pub struct ExpiryLimit {
    seconds: u32,
}

impl Model for ExpiryLimit {
    ghost use Rattle.std.specs.Prelude.{ℕ, ◌<◌};

    ghost Value = { ℕ };

    ghost view = { λ limit. limit.seconds };

    ghost invariant = { λ limit. 0 < limit.seconds };

    ghost inverse = { λ number. record { seconds = number } };
}

impl ExpiryLimit {
    /// The limit of so many seconds; `None` for 0.
    pub fn new(seconds: u32) -> Option<ExpiryLimit>
        ensures value { IfSome result (λ limit. limit ≡ seconds) }
        ensures found { IsSome result ↔ (0 < seconds) }
    {
        if seconds == 0 {
            return None;
        }
        Some(ExpiryLimit { seconds })
    }

    /// Its seconds, from 1 on.
    pub fn get(self) -> u32
        ensures value { result ≡ self }
        ensures some { 0 < result }
    {
        self.seconds
    }
}

/// How many seconds a keep alive has at most, whatever its client asks for: 1 or more (profile).
#[derive(Clone, Copy, Debug, PartialEq, Eq)]
pub struct KeepAliveLimit {
    seconds: u16,
}

impl Model for KeepAliveLimit {
    ghost use Rattle.std.specs.Prelude.{ℕ, ◌<◌};

    ghost Value = { ℕ };

    ghost view = { λ limit. limit.seconds };

    ghost invariant = { λ limit. 0 < limit.seconds };

    ghost inverse = { λ number. record { seconds = number } };
}

impl KeepAliveLimit {
    /// The limit of so many seconds; `None` for 0.
    pub fn new(seconds: u16) -> Option<KeepAliveLimit>
        ensures value { IfSome result (λ limit. limit ≡ seconds) }
        ensures found { IsSome result ↔ (0 < seconds) }
    {
        if seconds == 0 {
            return None;
        }
        Some(KeepAliveLimit { seconds })
    }

    /// Its seconds, from 1 on.
    pub fn get(self) -> u16
        ensures value { result ≡ self }
        ensures some { 0 < result }
    {
        self.seconds
    }
}

/// What the broker grants a client at most, whatever it asks for, and which clients it serves (profile).
#[derive(Drop)]
pub struct ClientLimits {
    /// How many PUBLISH packets it has unacknowledged.
    pub max_inflight: MaxInflight,
    /// For how many seconds its session outlives its connection, if that is limited.
    pub max_expiry: Option<ExpiryLimit>,
    /// The seconds of its keep alive, if they are limited: a client that wants no keep alive is given one then.
    pub max_keep_alive: Option<KeepAliveLimit>,
    /// Whose clients are served: those of these users alone, if they are given, and else all.
    pub users: Option<SharedUsers>,
}

impl ClientLimits {
    /// This limit, and no other; all clients are served.
    pub fn inflight_alone(max_inflight: MaxInflight) -> ClientLimits
        ensures { result ≡ inflight_alone max_inflight }
    {
        ClientLimits {
            max_inflight,
            max_expiry: None,
            max_keep_alive: None,
            users: None,
        }
    }

    /// The same limits, for one owner more. It takes no memory.
    ///
    /// # Errors
    ///
    /// The users have as many owners as can be counted, 2^63.
    pub fn share(&self) -> Result<ClientLimits, AllocError>
        ensures { IfOk result (λ shared. shared ≡ self.now) }
    {
        let users = match &self.users {
            Some(users) => Some(users.share()?),
            None => None,
        };
        Ok(ClientLimits {
            max_inflight: self.max_inflight,
            max_expiry: self.max_expiry,
            max_keep_alive: self.max_keep_alive,
            users,
        })
    }
}
