//! The numbers of connections.
ghost use Rattle.std.specs.Prelude.{◌≡◌, ◌<◌, ◌≤◌, IfOk, IfErr, ⊤};
ghost use Rattle.limits.specs.Limits.{most_ports};

use client_table::CLIENTS;
use std::marker::Model;
use thiserror::Error;

/// 802: a server has no connection of this number.
#[derive(Clone, Copy, Debug, PartialEq, Eq, Error)]
#[error("the connections of a server have the numbers from 0 to 63")]
pub struct OutOfRange;

/// The number of a connection of a server, below [`CLIENTS`].
#[derive(Clone, Copy, Debug, PartialEq, Eq)]
pub struct ConnectionNumber {
    number: u8,
}

impl Model for ConnectionNumber {
    ghost use Rattle.std.specs.Prelude.{ℕ, ◌<◌};
    ghost use Rattle.limits.specs.Limits.{most_ports};

    ghost Value = { ℕ };

    ghost view = { λ n. n.number };

    ghost invariant = { λ n. n.number < most_ports };

    ghost inverse = { λ number. record { number = number } };
}

impl ConnectionNumber {
    /// The least number, 0.
    pub const FIRST: ConnectionNumber = ConnectionNumber { number: 0 };

    /// A number of a connection.
    ///
    /// # Errors
    ///
    /// 802 [`OutOfRange`] for a number from [`CLIENTS`] on.
    pub fn new(number: u8) -> Result<ConnectionNumber, OutOfRange>
        ensures ok { IfOk result (λ known. known ≡ number) }
        ensures in_range { IfOk result (λ _. number < most_ports) }
        ensures out_of_range { IfErr result (λ _. 64 ≤ number) }
    {
        if usize::from(number) < CLIENTS {
            Ok(ConnectionNumber { number })
        } else {
            Err(OutOfRange)
        }
    }

    /// The number, below [`CLIENTS`].
    pub fn get(self) -> u8
        ensures value { result ≡ self }
        ensures known { result < most_ports }
    {
        self.number
    }
}
