//! The metrics of a broker, told while it waits for connections.
ghost use Rattle.std.specs.Prelude.{◌≡◌, None};
ghost use Rattle.transport.specs.Counting.{ComesNew, MayCome, after_arrival};

use crate::client_stream::ClientStream;
use crate::lobby::Lobby;
use metrics::{MetricsServer, MetricsService};
use std::marker::Model;
use std::rt::Clock as SystemClock;
use std::sync::Wait;
use std::time::Instant;
use tcp_edge::Socket;
use transport::{Arrival, Source};

/// The metrics of a broker: who is asked for them, and by what that answers.
#[derive(Drop)]
pub(crate) struct Metrics<'a, R> {
    pub(crate) server: MetricsServer,
    pub(crate) service: MetricsService<'a, R>,
}

impl<'a, R: Wait + SystemClock> Metrics<'a, R> {
    /// Answers requests, as far as that is possible without waiting; none where the clock can't be read. For how many milliseconds nobody need call again, if that is known.
    fn go_on(&mut self) -> Option<u64> {
        let now = Instant::now(self.service.rt).ok()?;
        Some(self.server.go_on(&mut self.service, now))
    }
}

/// A lobby, which goes on with who asks for the metrics of its broker, where it has any, each time that it is asked.
///
/// Contracts see it as the tally of the lobby.
#[derive(Drop)]
pub(crate) struct BesideMetrics<'a, R> {
    pub(crate) lobby: Lobby<'a, R>,
    pub(crate) metrics: Option<Metrics<'a, R>>,
}

impl<'a, R> Model for BesideMetrics<'a, R> {
    ghost use Rattle.transport.specs.declared.counts.Tally.{Tally};

    ghost Value = { Tally };

    ghost view = { λ b. b.lobby };
}

impl<'a, R: Wait + SystemClock> BesideMetrics<'a, R> {
    /// Goes on with who asks for metrics.
    fn answer(&mut self)
        ensures { self.new ≡ self.old }
    {
        if let Some(metrics) = &mut self.metrics {
            metrics.service.turned_away = self.lobby.turned_away();
            if let Some(patience) = metrics.go_on() {
                self.lobby.wait_at_most(patience);
            }
        }
    }
}

impl<'a, R: Wait + SystemClock> Source<Socket<ClientStream>> for BesideMetrics<'a, R> {
    ghost tally = { λ b. b };

    ghost arrived = { λ _. None };

    fn next(&mut self) -> Arrival<Socket<ClientStream>>
        requires { MayCome self.old }
        ensures tally { self.new ≡ after_arrival result self.old }
        ensures new { ComesNew (λ socket. socket.counts) result }
    {
        self.answer();
        self.lobby.next()
    }

    fn failures(&self) -> u64 {
        self.lobby.failures()
    }

    fn arrivals(&self) -> u64 {
        self.lobby.arrivals()
    }
}
