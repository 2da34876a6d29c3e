//! A worker waits at a reactor for its sockets, and looks at the clock of its broker.
ghost use Rattle.std.specs.Prelude.{◌≡◌, None};

use crate::client_stream::ClientStream;
use crate::drain::DrainPart;
use crate::elapsed::Elapsed;
use crate::logging::LogPart;
use crate::metering::MetricsPart;
use std::rt::Clock as SystemClock;
use std::sync::Wait;
use std::time::Duration;
use tcp_edge::{Alarm, Reactor, Socket};
use transport::Crossing;
use worker_connections::{Notice, Poller, Tallies, Woken};

/// A reactor, as a worker waits there, a clock, and the worker's parts in a drain, in the metrics and in the log.
#[derive(Drop)]
pub(crate) struct SocketPoller<'a, R> {
    reactor: Reactor,
    clock: Elapsed<'a, R>,
    drain: DrainPart<'a>,
    metrics: MetricsPart<'a>,
    log: LogPart<'a>,
}

impl<'a, R: SystemClock> SocketPoller<'a, R> {
    /// A worker waits at this reactor, and has this clock and these parts in a drain, in the metrics and in the log.
    pub(crate) fn new(
        reactor: Reactor,
        clock: Elapsed<'a, R>,
        drain: DrainPart<'a>,
        metrics: MetricsPart<'a>,
        log: LogPart<'a>,
    ) -> SocketPoller<'a, R> {
        SocketPoller {
            reactor,
            clock,
            drain,
            metrics,
            log,
        }
    }
}

/// It lets every worker pass.
impl<'a, R: SystemClock> Crossing for SocketPoller<'a, R> {
    ghost refuses = { λ _ _ _. ⊥ };

    fn cross(&self, _worker: u32, _turn: u32) -> bool {
        true
    }
}

impl<'a, R: SystemClock> Poller<Socket<ClientStream>> for SocketPoller<'a, R> {
    type Alarm = Alarm;

    ghost poller_calls = { λ _. None };

    fn register(&mut self, transport: &mut Socket<ClientStream>) -> Option<usize> {
        self.metrics.count_opened();
        let number = self.reactor.register(transport).ok();
        if self.log.is_on() {
            self.log.opened(number, transport.wire().peer());
        }
        number
    }

    fn close(&mut self, number: Option<usize>, transport: Socket<ClientStream>) {
        let mut transport = transport;
        if let Some(number) = number {
            if self.reactor.has(number) {
                let _refused = self.reactor.unwatch(number, &mut transport);
            }
        }
    }

    fn notice(&mut self, number: usize, notice: &Notice<'_>) {
        match notice {
            Notice::Connected {
                client,
                session_present,
            } => self.log.connected(number, client, *session_present),
            Notice::Ended { served, last } => self.log.ended(number, *served, *last),
        }
    }

    fn wait<W: Wait>(&mut self, rt: &W, at_most: u64, told: &Tallies<'_>) -> Woken {
        self.drain.tell(told.supply.unsettled());
        self.metrics.tell(told, self.drain.drains());
        let called = self
            .reactor
            .wait(rt, Duration::from_millis(at_most))
            .unwrap_or(false);
        self.metrics.count_turn(called);
        let now = self.clock.now();
        self.log.look(told.supply, now);
        self.log.bound(told.routes);
        Woken {
            called,
            now,
            drains: self.drain.look(),
        }
    }

    fn take_ready(&mut self) -> Option<usize> {
        match self.reactor.take_ready() {
            Some(ready) => Some(ready.number),
            None => None,
        }
    }
}
