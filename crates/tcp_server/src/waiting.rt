//! Connections whose first packet has not come yet, each in a place.
ghost use Rattle.std.specs.Prelude.{◌≡◌, IfSome};
ghost use Rattle.transport.specs.Counting.{no_counts};

use crate::client_stream::ClientStream;
use crate::first_packet::FirstLook;
use conn_rules::CONNECT_TIMEOUT;
use limits::MOST_CONNECTIONS;
use mio::event::Source as MioSource;
use mio::{Events, Interest, Poll, Token};
use std::alloc::{AllocFailed, Global};
use std::net::Net;
use std::time::Duration;
use tcp_edge::{ReactorError, Socket, TcpSource};

/// How many connections whose first packet has not come there are at most: a quarter of all that a broker has. Where there are as many, the one that came first is closed for
/// a newcomer, unless its first packet has come by then.
pub(crate) const MOST_IN_LOBBY: usize = MOST_CONNECTIONS as usize / 4;

/// What one wait can tell of: the listener, and each connection that waits.
const MOST_EVENTS: usize = MOST_IN_LOBBY + 1;

/// The token of the listener; the connection in place n has the token n.
const LISTENER: usize = MOST_IN_LOBBY;

/// A connection whose first packet had not come when it was looked at last. Nothing of it was read. It is watched until it is given, or closed.
#[derive(Drop)]
struct Waiting {
    stream: ClientStream,
    // How many came before it.
    order: u64,
    // When it came, in milliseconds since the lobby was opened.
    came: u64,
    // Its first packet has come, or what came is none, or it has ended.
    is_ready: bool,
}

/// The places, and where who waits in them, and the listener, are watched.
#[derive(Drop)]
pub(crate) struct WaitingRoom {
    poll: Poll,
    events: Events,
    places: Vec<Option<Waiting>>,
    first_look: FirstLook,
    // How many came.
    taken_in: u64,
}

impl WaitingRoom {
    /// One in which nobody is. It watches this listener too.
    ///
    /// # Errors
    ///
    /// [`ReactorError::Memory`], [`ReactorError::TooFewDescriptors`], [`ReactorError::System`].
    pub(crate) fn open<R: Net>(
        rt: &R,
        alloc: Global,
        listener: &mut TcpSource,
    ) -> Result<WaitingRoom, ReactorError> {
        let events = Events::with_capacity(alloc, MOST_EVENTS).map_err(|_| ReactorError::Memory)?;
        let places = nobody(alloc).map_err(|_| ReactorError::Memory)?;
        let first_look = FirstLook::new(alloc).map_err(|_| ReactorError::Memory)?;
        let poll = Poll::new(rt).map_err(|e| ReactorError::of(&e))?;
        let answer = poll
            .registry()
            .register(listener, Token(LISTENER), Interest::READABLE);
        answer.map_err(|_| ReactorError::System)?;
        Ok(WaitingRoom {
            poll,
            events,
            places,
            first_look,
            taken_in: 0,
        })
    }

    /// Waits until somebody may have come, or until the first packet of one that waits may have, or for so long; and notes whose has.
    pub(crate) fn wait(&mut self, most: Duration) {
        if self.poll.poll(&mut self.events, Some(most)).is_ok() {
            note_ready(&self.events, &mut self.places, &mut self.first_look);
        }
    }

    /// The place for one more: one in which nobody is, or else that of the one that came first of those whose first packet has not come. `None` where that one's has come by now: it is
    /// given first.
    pub(crate) fn place_for_one(&mut self) -> Option<usize> {
        if let Some(free) = self.places.iter().position(|seat| seat.is_none()) {
            return Some(free);
        }
        let place = first_of(&self.places, false)?;
        if is_found_ready(&mut self.places, place, &mut self.first_look) {
            None
        } else {
            Some(place)
        }
    }

    /// Keeps a connection in this place until its first packet has come; one that the system does not watch is closed. Whether another one was closed for it.
    pub(crate) fn keep(&mut self, place: usize, stream: ClientStream, now: u64) -> bool {
        let mut newcomer = Waiting {
            stream,
            order: self.taken_in,
            came: now,
            is_ready: false,
        };
        self.taken_in = self.taken_in.wrapping_add(1);
        let answer = self
            .poll
            .registry()
            .register(&mut newcomer.stream, Token(place), Interest::READABLE);
        match self.places.get_mut(place) {
            Some(seat) if answer.is_ok() => seat.replace(newcomer).is_some(),
            _ => false,
        }
    }

    /// The one that came first of those whose first packet has come; nothing of it was read yet. It is watched no more.
    pub(crate) fn take_ready(&mut self) -> Option<Socket<ClientStream>>
        ensures { IfSome result (λ socket. socket.counts ≡ no_counts) }
    {
        let place = first_of(&self.places, true)?;
        let mut stream = self.places.get_mut(place)?.take()?.stream;
        let _refused = self.poll.registry().deregister(&mut stream);
        Some(Socket::new(stream))
    }

    /// Closes those whose first packet has not come in ten seconds, and is not found now. How many they are.
    pub(crate) fn close_late(&mut self, now: u64) -> u64 {
        close_all_late(&mut self.places, &mut self.first_look, now)
    }
}

/// The places, all free.
fn nobody(alloc: Global) -> Result<Vec<Option<Waiting>>, AllocFailed<Option<Waiting>>> {
    let mut places = Vec::new(alloc);
    for _ in 0..MOST_IN_LOBBY {
        places.push(None)?;
    }
    Ok(places)
}

/// Notes whose first packet has come, or who has ended, of those of whom the last wait told something.
fn note_ready(events: &Events, places: &mut [Option<Waiting>], look: &mut FirstLook) {
    for event in events.iter() {
        if let Some(Some(one)) = places.get_mut(event.token().0) {
            one.is_ready = one.is_ready || event.is_read_closed() || look.has_come(&one.stream);
        }
    }
}

/// The place of the one that came first, of those whose first packet has come, or of the others.
fn first_of(places: &[Option<Waiting>], is_ready: bool) -> Option<usize> {
    let mut first: Option<(usize, u64)> = None;
    for place in 0..places.len() {
        match places.get(place) {
            Some(Some(one)) if one.is_ready == is_ready => {
                first = match first {
                    Some((_, order)) if order < one.order => first,
                    _ => Some((place, one.order)),
                };
            }
            _ => {}
        }
    }
    first.map(|(place, _)| place)
}

/// Whether somebody is in this place whose first packet has come since it was looked at last; it is noted then.
fn is_found_ready(places: &mut [Option<Waiting>], place: usize, look: &mut FirstLook) -> bool {
    match places.get_mut(place) {
        Some(Some(one)) => {
            one.is_ready = look.has_come(&one.stream);
            one.is_ready
        }
        _ => false,
    }
}

/// Closes those whose first packet has not come in ten seconds, and is not found now. How many they are.
fn close_all_late(places: &mut [Option<Waiting>], look: &mut FirstLook, now: u64) -> u64 {
    let mut closed = 0u64;
    for place in 0..places.len() {
        if is_late(places.get(place), now) && !is_found_ready(places, place, look) {
            if let Some(seat) = places.get_mut(place) {
                *seat = None;
                closed = closed.saturating_add(1);
            }
        }
    }
    closed
}

/// Whether the first packet of the connection in a place was not found in ten seconds.
fn is_late(seat: Option<&Option<Waiting>>, now: u64) -> bool {
    match seat {
        Some(Some(one)) => !one.is_ready && now.saturating_sub(one.came) >= CONNECT_TIMEOUT,
        _ => false,
    }
}
