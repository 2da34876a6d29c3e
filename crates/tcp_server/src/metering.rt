//! What a worker counts, as its metrics have it.
use metrics::{SharedCounts, WorkerCounts};
use shared_routes::KnownRoutes;
use worker_connections::Tallies;

/// The part of one worker in the metrics of its broker.
#[derive(Drop)]
pub(crate) struct MetricsPart<'a> {
    // Where it puts what it counts; `None` where there are no metrics.
    place: Option<&'a SharedCounts>,
    opened: u64,
    turns: u64,
    calls: u64,
    // How many shares it has put down, from the first slot on.
    shares: u8,
}

impl<'a> MetricsPart<'a> {
    /// The part of a worker that has counted nothing.
    pub(crate) fn of(place: Option<&'a SharedCounts>) -> MetricsPart<'a> {
        MetricsPart {
            place,
            opened: 0,
            turns: 0,
            calls: 0,
            shares: 0,
        }
    }

    /// Its worker took up a connection.
    pub(crate) fn count_opened(&mut self) {
        self.opened = self.opened.saturating_add(1);
    }

    /// Its worker waited, and a call of another one ended the wait, or not.
    pub(crate) fn count_turn(&mut self, called: bool) {
        self.turns = self.turns.saturating_add(1);
        self.calls = self.calls.saturating_add(u64::from(called));
    }

    /// Puts down what its worker has counted, and whether it drains.
    pub(crate) fn tell(&mut self, told: &Tallies<'_>, drains: bool) {
        if let Some(place) = self.place {
            self.shares = tell_shares(place, told.routes, self.shares);
            place.store(&WorkerCounts {
                supply: *told.supply,
                served: *told.served,
                answers: *told.answers,
                connected: told.connected,
                opened: self.opened,
                turns: self.turns,
                calls: self.calls,
                draining: u64::from(drains),
            });
        }
    }
}

/// Puts down the share of the slot behind those that are put down already, if it is known to be bound. How many are put down then; where an allocation fails, it waits
/// for the next time, as the others do.
fn tell_shares(place: &SharedCounts, routes: &KnownRoutes<'_>, shares: u8) -> u8 {
    match routes.share(shares) {
        Some(share) => match place.store_share(shares, share) {
            Ok(()) => shares.saturating_add(1),
            Err(_) => shares,
        },
        None => shares,
    }
}
