//! Where connections in memory come from.
ghost use Rattle.std.specs.Prelude.{◌≡◌, None, IfOk};
ghost use Rattle.transport.specs.Counting.{no_counts};

use scripted_transport::Scripted;
use std::alloc::{AllocError, Global};
use transport::{Arrival, Source};

/// What clients do on their connections.
pub(crate) trait Client {
    /// The connection of the client of this number.
    fn connect(&self, alloc: Global, number: u8) -> Result<Scripted, AllocError>
        ensures { IfOk result (λ scripted. scripted.counts ≡ no_counts) };
}

/// The connections of so many clients, one after the other, that of the highest number first.
#[derive(Drop)]
pub(crate) struct Arriving<C> {
    alloc: Global,
    client: C,
    left: u8,
    arrivals: u64,
}

impl<C: Client> Arriving<C> {
    /// Those of the clients from 1 to this number.
    pub(crate) fn new(alloc: Global, client: C, count: u8) -> Arriving<C> {
        Arriving {
            alloc,
            client,
            left: count,
            arrivals: 0,
        }
    }
}

impl<C: Client> Source<Scripted> for Arriving<C> {
    ghost tally = { λ a. record { failures = 0; arrivals = a.arrivals } };

    ghost arrived = { λ a. None };

    fn next(&mut self) -> Arrival<Scripted> {
        if self.left == 0 {
            return Arrival::End;
        }
        match self.client.connect(self.alloc, self.left) {
            Ok(connection) => {
                self.left -= 1;
                self.arrivals += 1;
                Arrival::Came(connection)
            }
            Err(_) => Arrival::End,
        }
    }

    fn failures(&self) -> u64 {
        0
    }

    fn arrivals(&self) -> u64 {
        self.arrivals
    }
}
