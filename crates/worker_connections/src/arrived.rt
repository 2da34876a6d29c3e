//! A connection that came, on its way to a worker.
ghost use Rattle.std.specs.Prelude.{◌≡◌};
ghost use Rattle.transport.specs.Counting.{no_counts};

use conn_rules::ClientLimits;
use std::marker::Model;
use transport::Transport;

/// A connection that came, of which nothing was asked yet, and what its client is granted at most. Contracts see it as an `ArrivedState`.
#[derive(Drop)]
pub struct Arrived<T: Transport> {
    transport: T,
    limits: ClientLimits,
}

impl<T: Transport> Model for Arrived<T> {
    ghost use Rattle.std.specs.Prelude.{◌≡◌};
    ghost use Rattle.transport.specs.Counting.{no_counts};
    ghost use Rattle.worker_connections.specs.Arrivals.{ArrivedState};

    ghost Value = { ArrivedState T };

    ghost view = { λ a. record { transport = a.transport; limits = a.limits } };

    ghost invariant = { λ a. T.counts a.transport ≡ no_counts };
}

impl<T: Transport> Arrived<T> {
    /// A connection that came.
    pub fn new(transport: T, limits: ClientLimits) -> Arrived<T>
        requires { T.counts transport ≡ no_counts }
        ensures { result ≡ record { transport = transport; limits = limits } }
    {
        Arrived { transport, limits }
    }

    /// Its transport, and what its client is granted at most.
    pub fn into_parts(self) -> (T, ClientLimits)
        ensures same { self ≡ record { transport = result.0; limits = result.1 } }
        ensures fresh { T.counts result.0 ≡ no_counts }
    {
        let Arrived { transport, limits } = self;
        (transport, limits)
    }
}
