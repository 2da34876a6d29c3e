//! A connection that waits by itself: for a worker that has no other.
ghost use Rattle.std.specs.Prelude.{◌≡◌, ◌≤◌, ◌<◌, length, IfOk, OnOk};
ghost use Rattle.tcp_edge.specs.Sockets.{KeepsSocket, KeepsSocketTwice, ReceivesPatiently, SendsPatiently};
ghost use Rattle.tcp_edge.specs.Outcomes.{raised};
ghost use Rattle.transport.specs.Counting.{MayGoOn, after_got, after_put};
ghost use Rattle.transport.specs.Streams.{GivesWithin, TakesWithin, after_read, after_write};

use crate::reactor::ReactorError;
use crate::socket::Socket;
use crate::wire::{IoOutcome, Wire};
use mio::event::Source;
use mio::{Events, Interest, Poll, Token};
use std::alloc::Global;
use std::marker::Model;
use std::net::Net;
use std::time::Duration;
use transport::{Got, Put, Transport};

/// How long a read or a write waits at most, in milliseconds.
pub const PATIENCE: u64 = 100;

// Waits until one socket may be read, or until it may be written.
#[derive(Drop)]
struct Watch {
    poll: Poll,
    events: Events,
}

impl Watch {
    // Has a socket waited for.
    fn open<W: Source>(
        net: &impl Net,
        alloc: Global,
        socket: &mut Socket<W>,
        interest: Interest,
    ) -> Result<Watch, ReactorError>
        ensures { OnOk result (KeepsSocket W.keeps socket.old socket.new) }
    {
        let events = Events::with_capacity(alloc, 1).map_err(|_| ReactorError::Memory)?;
        let poll = Poll::new(net).map_err(|_| ReactorError::System)?;
        let answer = poll.registry().register(socket, Token(0), interest);
        answer.map_err(|_| ReactorError::System)?;
        Ok(Watch { poll, events })
    }

    // Waits until the socket is ready, or for `PATIENCE`, or for less, as at a signal.
    fn pause(&mut self) {
        let _refused = self
            .poll
            .poll(&mut self.events, Some(Duration::from_millis(PATIENCE)));
    }
}

/// A socket whose reads and writes wait. Where nothing came yet, a read waits for up to [`PATIENCE`] milliseconds and looks again;
/// where nothing can be written yet, a write waits as long and tries once more. What comes meanwhile does not end a write's wait: so 600
/// idle writes take 60 seconds, but for signals.
///
/// Contracts see it as its socket.
#[derive(Drop)]
pub struct Patient<W> {
    socket: Socket<W>,
    to_read: Watch,
    to_write: Watch,
}

impl<W> Model for Patient<W> {
    ghost use Rattle.tcp_edge.specs.Sockets.{SocketState};

    ghost Value = { SocketState W };

    ghost view = { λ p. p.socket };
}

impl<W: Source + Drop> Patient<W> {
    /// Has a socket wait in its reads and writes.
    ///
    /// # Errors
    ///
    /// [`ReactorError::Memory`], [`ReactorError::System`]. The socket is dropped then.
    pub fn new(
        net: &impl Net,
        alloc: Global,
        mut socket: Socket<W>,
    ) -> Result<Patient<W>, ReactorError>
        ensures { IfOk result (λ patient. KeepsSocketTwice W.keeps socket patient) }
    {
        let to_read = Watch::open(net, alloc, &mut socket, Interest::READABLE)?;
        let to_write = Watch::open(net, alloc, &mut socket, Interest::WRITABLE)?;
        Ok(Patient {
            socket,
            to_read,
            to_write,
        })
    }
}

impl<W: Wire> Transport for Patient<W> {
    ghost counts = { λ s. s.counts };

    ghost refusals = { λ s. s.refused };

    ghost given = { λ s. W.came s.wire };

    ghost accepted = { λ s. W.went s.wire };

    /// Waits for up to [`PATIENCE`] milliseconds.
    fn read(&mut self, buffer: &mut [u8]) -> Got
        requires goes_on { MayGoOn self.old.counts }
        requires room { 0 < length buffer.old }
        ensures within { GivesWithin result buffer.new }
        ensures given { W.came self.new.wire ≡ after_read (W.came self.old.wire) result buffer.new }
        ensures accepted { W.went self.new.wire ≡ W.went self.old.wire }
        ensures counts { self.new.counts ≡ after_got result self.old.counts }
        ensures refusals { self.old.refused ≤ self.new.refused }
        ensures same { self.new.refused ≡ self.old.refused }
        ensures asked { ReceivesPatiently W.receives self.old.wire result self.new.wire }
    {
        let first = self.socket.ask(buffer);
        if first == IoOutcome::NotNow {
            self.to_read.pause();
            self.socket.read(buffer)
        } else {
            self.socket.settle_read(first)
        }
    }

    /// Waits for up to [`PATIENCE`] milliseconds.
    fn write(&mut self, bytes: &[u8]) -> Put
        requires goes_on { MayGoOn self.old.counts }
        requires some { 0 < length bytes.now }
        ensures within { TakesWithin result bytes.now }
        ensures given { W.came self.new.wire ≡ W.came self.old.wire }
        ensures accepted { W.went self.new.wire ≡ after_write (W.went self.old.wire) result bytes.now }
        ensures counts { self.new.counts ≡ after_put result self.old.counts }
        ensures refusals { self.old.refused ≤ self.new.refused }
        ensures refused { result ≡ Put.Idle → self.old.refused < self.new.refused }
        ensures raised { self.new.refused ≡ raised result self.old.refused }
        ensures asked { SendsPatiently W.sends self.old.refused self.old.wire result self.new.wire }
    {
        let first = self.socket.offer(bytes);
        if first == IoOutcome::NotNow {
            self.to_write.pause();
            self.socket.write(bytes)
        } else {
            self.socket.settle_write(first)
        }
    }

    fn failures(&self) -> u64 {
        self.socket.failures()
    }

    fn ends(&self) -> u64 {
        self.socket.ends()
    }

    fn idles(&self) -> u64 {
        self.socket.idles()
    }
}
