//! A worker that sends back what comes on its connections, until so many have come and gone.
use mio::net::TcpStream;
use std::alloc::{AllocError, Global};
use std::process::Abort;
use std::sync::Wait;
use std::time::Duration;
use tcp_edge::{MOST_SOURCES, Reactor, Socket, TcpSource};
use transport::{Arrival, Got, Put, Source, Transport};

/// How often the worker waits at most: a run that takes longer has failed.
const ROUNDS: u32 = 200_000;

/// How many connections came, and ended.
#[derive(Clone, Copy, Debug, PartialEq, Eq)]
pub struct Served {
    pub came: usize,
    pub ended: usize,
}

/// A connection, and what it was not sent yet of the last read.
#[derive(Drop)]
struct Room {
    socket: Socket<TcpStream>,
    rest: Vec<u8>,
}

/// What a read gives.
pub fn read<T: Transport>(rt: &impl Abort, transport: &mut T, buffer: &mut [u8; 4096]) -> Got {
    if transport.failures() == u64::MAX || transport.ends() == u64::MAX {
        panic!(rt; "too often");
    }
    transport.read(buffer)
}

/// What a write of these bytes takes.
pub fn write<T: Transport>(rt: &impl Abort, transport: &mut T, bytes: &[u8]) -> Put {
    if transport.failures() == u64::MAX || transport.ends() == u64::MAX || bytes.is_empty() {
        panic!(rt; "too often");
    }
    transport.write(bytes)
}

impl Room {
    /// Sends the rest, as far as it goes now. Whether nothing is left of it.
    fn send_rest(&mut self, rt: &impl Abort) -> Option<bool> {
        for _ in 0..4096 {
            if self.rest.is_empty() {
                break;
            }
            match write(rt, &mut self.socket, &self.rest) {
                Put::Wrote(count) => {
                    let left = self.rest.len().saturating_sub(count);
                    if count <= self.rest.len() {
                        self.rest.copy_within(count.., 0);
                    }
                    self.rest.truncate(left);
                }
                Put::Idle => return Some(false),
                Put::Failed => return None,
            }
        }
        Some(self.rest.is_empty())
    }

    /// Sends back what came, until nothing more came or goes. Whether the connection goes on.
    fn echo(&mut self, rt: &impl Abort) -> bool {
        let mut buffer = [0; 4096];
        for _ in 0..u64::MAX {
            match self.send_rest(rt) {
                Some(true) => {}
                Some(false) => return true,
                None => return false,
            }
            match read(rt, &mut self.socket, &mut buffer) {
                Got::Bytes(count) => {
                    if count > buffer.len()
                        || self.rest.extend_from_slice(&buffer[..count]).is_err()
                    {
                        panic!(rt; "out of memory");
                    }
                }
                Got::Idle => return true,
                Got::End => return false,
                Got::Failed => return false,
            }
        }
        false
    }
}

/// Takes a connection in, where there is room.
fn take_in(
    rt: &impl Abort,
    alloc: Global,
    reactor: &mut Reactor,
    rooms: &mut Vec<Option<Room>>,
    mut socket: Socket<TcpStream>,
) {
    let Ok(number) = reactor.register(&mut socket) else {
        panic!(rt; "no number");
    };
    let Some(place) = rooms.get_mut(number) else {
        panic!(rt; "no room");
    };
    let room = Room {
        socket,
        rest: Vec::new(alloc),
    };
    if place.replace(room).is_some() {
        panic!(rt; "a number that is taken");
    }
}

/// Takes in those who wait at the door. How many.
fn take_all(
    rt: &impl Abort,
    alloc: Global,
    reactor: &mut Reactor,
    rooms: &mut Vec<Option<Room>>,
    source: &mut TcpSource,
) -> usize {
    let mut came = 0usize;
    for _ in 0..u64::MAX {
        if source.failures() == u64::MAX || source.arrivals() == u64::MAX {
            panic!(rt; "too often");
        }
        match source.next() {
            Arrival::Came(socket) => {
                take_in(rt, alloc, reactor, rooms, socket);
                came = came.saturating_add(1);
            }
            Arrival::Idle => return came,
            Arrival::End => panic!(rt; "no end"),
            Arrival::Failed => panic!(rt; "the source failed"),
        }
    }
    came
}

/// Goes on with the connection of this number. How many ended.
fn go_on(
    rt: &impl Abort,
    reactor: &mut Reactor,
    rooms: &mut Vec<Option<Room>>,
    number: usize,
) -> usize {
    let Some(place) = rooms.get_mut(number) else {
        return 0;
    };
    let goes_on = match place.as_mut() {
        None => return 0,
        Some(room) => room.echo(rt),
    };
    if goes_on {
        return 0;
    }
    match place.take() {
        None => 0,
        Some(room) => {
            let Room {
                mut socket,
                rest: _rest,
            } = room;
            if !reactor.has(number) || reactor.unwatch(number, &mut socket).is_err() {
                panic!(rt; "it was not watched");
            }
            1
        }
    }
}

/// Serves all that the last wait told of.
fn serve_ready(
    rt: &impl Abort,
    alloc: Global,
    reactor: &mut Reactor,
    rooms: &mut Vec<Option<Room>>,
    source: &mut TcpSource,
    served: &mut Served,
) {
    for _ in 0..u64::MAX {
        match reactor.take_ready() {
            None => return,
            Some(ready) if ready.number == 0 => {
                let came = take_all(rt, alloc, reactor, rooms, source);
                served.came = served.came.saturating_add(came);
            }
            Some(ready) => {
                let ended = go_on(rt, reactor, rooms, ready.number);
                served.ended = served.ended.saturating_add(ended);
            }
        }
    }
}

/// A room for each number, and nobody in it.
fn free_rooms(alloc: Global) -> Result<Vec<Option<Room>>, AllocError> {
    let mut rooms = Vec::with_capacity(alloc, MOST_SOURCES)?;
    'rooms: for _ in 0..MOST_SOURCES {
        rooms.push_reserved(None);
    }
    Ok(rooms)
}

/// Sends back what comes, until so many connections have come and ended.
pub fn serve<R: Wait + Abort>(
    rt: &R,
    alloc: Global,
    mut reactor: Reactor,
    mut source: TcpSource,
    count: usize,
) -> Served {
    let mut served = Served { came: 0, ended: 0 };
    let Ok(mut rooms) = free_rooms(alloc) else {
        panic!(rt; "out of memory");
    };
    if reactor.register(&mut source) != Ok(0) {
        panic!(rt; "the door has another number");
    }
    for _ in 0..ROUNDS {
        if served.ended >= count {
            break;
        }
        if reactor.wait(rt, Duration::from_millis(100)).is_err() {
            panic!(rt; "no wait");
        }
        serve_ready(
            rt,
            alloc,
            &mut reactor,
            &mut rooms,
            &mut source,
            &mut served,
        );
    }
    served
}
