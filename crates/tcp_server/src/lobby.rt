//! A listener that waits for connections, and keeps those apart whose first packet has not come yet.
ghost use Rattle.std.specs.Prelude.{◌≡◌, None};
ghost use Rattle.transport.specs.Counting.{ComesNew, MayCome, after_arrival};

use crate::addresses::Addresses;
use crate::client_stream::ClientStream;
use crate::turned_away::TurnedAwayLog;
use crate::waiting::{MOST_IN_LOBBY, WaitingRoom};
use broker_log::Log;
use metrics::TurnedAway;
use mio::net::TcpStream;
use std::alloc::Global;
use std::marker::Model;
use std::net::Net;
use std::rt::Clock as SystemClock;
use std::time::{Duration, Instant};
use tcp_edge::{ReactorError, Socket, TcpSource};
use transport::{Arrival, Source, Tally};

/// For how many milliseconds a call waits at most, unless it is told otherwise.
const PATIENCE: u64 = 100;

/// A source over a listener. It gives a connection once its first packet is there, or 4,096 bytes of that, or a fault, or once it has ended; until then it keeps it, and reads nothing of
/// it. One that has not come so far in ten seconds is closed (section 3.1.4), and so is the one that came first, where more than [`MOST_IN_LOBBY`] wait. Those whose first packet has come are
/// given in the order in which they came. Where there is nothing to give, a call waits for up to 100 milliseconds, or for as many as it was told, and looks again.
///
/// Contracts see it as its tally.
#[derive(Drop)]
pub(crate) struct Lobby<'a, R> {
    rt: &'a R,
    listener: TcpSource,
    room: WaitingRoom,
    // How many connections each address has, where they are bounded.
    addresses: Option<Addresses>,
    turned_away: TurnedAway,
    log: TurnedAwayLog<'a>,
    opened: Instant,
    patience: u64,
    tally: Tally,
}

impl<'a, R> Model for Lobby<'a, R> {
    ghost use Rattle.transport.specs.declared.counts.Tally.{Tally};

    ghost Value = { Tally };

    ghost view = { λ l. l.tally };
}

impl<'a, R: Net + SystemClock> Lobby<'a, R> {
    /// A lobby of this listener, in which nobody is. Where the connections of each address are bounded, one that is too many for its address is closed as it comes. How many it closes it
    /// says to this log.
    ///
    /// # Errors
    ///
    /// [`ReactorError::Memory`], [`ReactorError::TooFewDescriptors`], [`ReactorError::System`]. The listener is dropped then.
    pub(crate) fn open(
        rt: &'a R,
        alloc: Global,
        mut listener: TcpSource,
        addresses: Option<Addresses>,
        log: &'a Log,
    ) -> Result<Lobby<'a, R>, ReactorError> {
        let room = WaitingRoom::open(rt, alloc, &mut listener)?;
        let opened = Instant::now(rt).map_err(|_| ReactorError::System)?;
        Ok(Lobby {
            rt,
            listener,
            room,
            addresses,
            turned_away: TurnedAway::NONE,
            log: TurnedAwayLog::of(log, alloc),
            opened,
            patience: PATIENCE,
            tally: Tally::NONE,
        })
    }
}

impl<'a, R: SystemClock> Lobby<'a, R> {
    /// A call waits for so many milliseconds at most from now on.
    pub(crate) fn wait_at_most(&mut self, patience: u64)
        ensures { self.new ≡ self.old }
    {
        self.patience = patience;
    }

    /// How many connections it closed.
    pub(crate) fn turned_away(&self) -> TurnedAway {
        self.turned_away
    }

    /// How many milliseconds went by since it was opened.
    fn now(&self) -> u64 {
        match self.opened.elapsed(self.rt) {
            Ok(elapsed) => u64::try_from(elapsed.as_millis()).unwrap_or(u64::MAX),
            Err(_) => 0,
        }
    }

    /// Gives the one that came first of those whose first packet has come; where there is none, takes in those that came.
    fn look(&mut self) -> Arrival<Socket<ClientStream>>
        ensures same { self.new ≡ self.old }
        ensures new { ComesNew (λ socket. socket.counts) result }
    {
        if let Some(socket) = self.room.take_ready() {
            return Arrival::Came(socket);
        }
        let now = self.now();
        let has_failed = take_in(
            &mut self.listener,
            &mut self.room,
            &mut self.addresses,
            &mut self.turned_away,
            now,
        );
        if has_failed {
            return Arrival::Failed;
        }
        count(&mut self.turned_away.late, self.room.close_late(now));
        self.log.look(&self.turned_away, now);
        match self.room.take_ready() {
            Some(socket) => Arrival::Came(socket),
            None => Arrival::Idle,
        }
    }
}

impl<'a, R: SystemClock> Source<Socket<ClientStream>> for Lobby<'a, R> {
    ghost tally = { λ l. l };

    ghost arrived = { λ _. None };

    fn next(&mut self) -> Arrival<Socket<ClientStream>>
        requires { MayCome self.old }
        ensures tally { self.new ≡ after_arrival result self.old }
        ensures new { ComesNew (λ socket. socket.counts) result }
    {
        let arrival = match self.look() {
            Arrival::Idle => {
                self.room.wait(Duration::from_millis(self.patience));
                self.look()
            }
            other => other,
        };
        self.tally.count_arrival(&arrival);
        arrival
    }

    fn failures(&self) -> u64 {
        self.tally.failures
    }

    fn arrivals(&self) -> u64 {
        self.tally.arrivals
    }
}

/// Takes in those that came, until there is none, there is no place left, or the listener fails; whether it has failed.
fn take_in(
    listener: &mut TcpSource,
    room: &mut WaitingRoom,
    addresses: &mut Option<Addresses>,
    turned_away: &mut TurnedAway,
    now: u64,
) -> bool {
    for _ in 0..MOST_IN_LOBBY {
        let Some(place) = room.place_for_one() else {
            return false;
        };
        match next_of(listener) {
            Arrival::Came(socket) => match admit(addresses, socket.into_wire()) {
                Some(stream) => {
                    let has_closed = room.keep(place, stream, now);
                    count(&mut turned_away.for_newcomer, u64::from(has_closed));
                }
                None => count(&mut turned_away.of_address, 1),
            },
            Arrival::Idle | Arrival::End => return false,
            Arrival::Failed => return true,
        }
    }
    false
}

/// Counts so many more.
fn count(sum: &mut u64, more: u64) {
    *sum = sum.saturating_add(more);
}

/// The stream of a client, unless its address has as many connections as it may, or is gone; then it is closed.
fn admit(addresses: &mut Option<Addresses>, stream: TcpStream) -> Option<ClientStream> {
    let claim = match addresses {
        Some(addresses) => Some(addresses.claim(stream.peer_addr().ok()?.ip())?),
        None => None,
    };
    Some(ClientStream::new(stream, claim))
}

/// What the listener gives next; a failure where it has given or failed as often as can be counted.
fn next_of(listener: &mut TcpSource) -> Arrival<Socket<TcpStream>> {
    if listener.failures() == u64::MAX || listener.arrivals() == u64::MAX {
        return Arrival::Failed;
    }
    listener.next()
}
