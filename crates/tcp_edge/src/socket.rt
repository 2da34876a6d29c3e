//! A transport over a stream that never waits.
ghost use Rattle.std.specs.Prelude.{◌≡◌, ◌≤◌, ◌<◌, length};
ghost use Rattle.tcp_edge.specs.Sockets.{Receives, Sends, new_socket};
ghost use Rattle.tcp_edge.specs.Outcomes.{CountsWithin, got_of, passed_on, put_of, raised};
ghost use Rattle.transport.specs.Counting.{MayGoOn, after_got, after_put};
ghost use Rattle.transport.specs.Streams.{GivesWithin, TakesWithin, after_read, after_write};

use crate::wire::{IoOutcome, Wire};
use mio::event::Source;
use mio::{Interest, Registry, Token};
use std::io;
use std::marker::Model;
use transport::{Counts, Got, Put, Transport};

/// A transport over a stream that never waits. Each read and each write is one call of the stream; what that does not take at once is
/// idle, and nothing is kept back.
///
/// Contracts see it as a `SocketState`: the stream, the counts, and how often a write was idle.
#[derive(Drop)]
pub struct Socket<W> {
    wire: W,
    counts: Counts,
    refused: u64,
}

impl<W> Model for Socket<W> {
    ghost use Rattle.tcp_edge.specs.Sockets.{SocketState};

    ghost Value = { SocketState W };

    ghost view = { λ s. record { wire = s.wire; counts = s.counts; refused = s.refused } };
}

impl<W> Socket<W> {
    /// A socket over a stream, of which nothing was asked yet.
    pub fn new(wire: W) -> Socket<W>
        ensures { result ≡ new_socket wire }
    {
        Socket {
            wire,
            counts: Counts::NONE,
            refused: 0,
        }
    }

    /// The stream.
    pub fn wire(&self) -> &W
        ensures { result.now ≡ self.now.wire }
    {
        &self.wire
    }

    /// The stream, without the socket.
    pub fn into_wire(self) -> W
        ensures { result ≡ self.wire }
    {
        self.wire
    }
}

impl<W: Wire> Socket<W> {
    /// Asks the stream for bytes, and counts nothing yet.
    pub(crate) fn ask(&mut self, buffer: &mut [u8]) -> IoOutcome
        ensures within { CountsWithin result buffer.new }
        ensures came { W.came self.new.wire ≡ passed_on (W.came self.old.wire) result buffer.new }
        ensures went { W.went self.new.wire ≡ W.went self.old.wire }
        ensures asked { W.receives self.old.wire result self.new.wire }
        ensures counts { self.new.counts ≡ self.old.counts }
        ensures refused { self.new.refused ≡ self.old.refused }
        ensures room { length buffer.new ≡ length buffer.old }
    {
        self.wire.receive(buffer)
    }

    /// What a read gives, where the stream came to this. Counts it.
    pub(crate) fn settle_read(&mut self, outcome: IoOutcome) -> Got
        requires { MayGoOn self.old.counts }
        ensures got { result ≡ got_of outcome }
        ensures counts { self.new.counts ≡ after_got result self.old.counts }
        ensures wire { self.new.wire ≡ self.old.wire }
        ensures refused { self.new.refused ≡ self.old.refused }
    {
        let got = got_from(outcome);
        self.counts.count_got(got);
        got
    }

    /// Offers bytes to the stream, and counts nothing yet.
    pub(crate) fn offer(&mut self, bytes: &[u8]) -> IoOutcome
        ensures within { CountsWithin result bytes.now }
        ensures came { W.came self.new.wire ≡ W.came self.old.wire }
        ensures went { W.went self.new.wire ≡ passed_on (W.went self.old.wire) result bytes.now }
        ensures asked { W.sends self.old.wire result self.new.wire }
        ensures counts { self.new.counts ≡ self.old.counts }
        ensures refused { self.new.refused ≡ self.old.refused }
    {
        self.wire.send(bytes)
    }

    /// What a write takes, where the stream came to this. Counts it.
    pub(crate) fn settle_write(&mut self, outcome: IoOutcome) -> Put
        requires { MayGoOn self.old.counts }
        ensures put { result ≡ put_of outcome self.old.refused }
        ensures counts { self.new.counts ≡ after_put result self.old.counts }
        ensures wire { self.new.wire ≡ self.old.wire }
        ensures refused { self.new.refused ≡ raised result self.old.refused }
    {
        let put = put_from(outcome, self.refused);
        self.counts.count_put(put);
        if put == Put::Idle {
            self.refused += 1;
        }
        put
    }
}

/// What a read gives.
fn got_from(outcome: IoOutcome) -> Got
    ensures { result ≡ got_of outcome }
{
    match outcome {
        IoOutcome::Count(0) => Got::End,
        IoOutcome::Count(count) => Got::Bytes(count),
        IoOutcome::NotNow => Got::Idle,
        IoOutcome::Broken => Got::Failed,
    }
}

/// What a write takes, after so many that were idle.
fn put_from(outcome: IoOutcome, refused: u64) -> Put
    ensures { result ≡ put_of outcome refused }
{
    match outcome {
        IoOutcome::Count(0) => Put::Failed,
        IoOutcome::Count(count) => Put::Wrote(count),
        IoOutcome::NotNow if refused < u64::MAX => Put::Idle,
        IoOutcome::NotNow => Put::Failed,
        IoOutcome::Broken => Put::Failed,
    }
}

impl<W: Wire> Transport for Socket<W> {
    ghost counts = { λ s. s.counts };

    ghost refusals = { λ s. s.refused };

    ghost given = { λ s. W.came s.wire };

    ghost accepted = { λ s. W.went s.wire };

    fn read(&mut self, buffer: &mut [u8]) -> Got
        requires goes_on { MayGoOn self.old.counts }
        requires room { 0 < length buffer.old }
        ensures within { GivesWithin result buffer.new }
        ensures given { W.came self.new.wire ≡ after_read (W.came self.old.wire) result buffer.new }
        ensures accepted { W.went self.new.wire ≡ W.went self.old.wire }
        ensures counts { self.new.counts ≡ after_got result self.old.counts }
        ensures refusals { self.old.refused ≤ self.new.refused }
        ensures same { self.new.refused ≡ self.old.refused }
        ensures asked { Receives W.receives self.old.wire result self.new.wire }
    {
        let outcome = self.ask(buffer);
        self.settle_read(outcome)
    }

    fn write(&mut self, bytes: &[u8]) -> Put
        requires goes_on { MayGoOn self.old.counts }
        requires some { 0 < length bytes.now }
        ensures within { TakesWithin result bytes.now }
        ensures given { W.came self.new.wire ≡ W.came self.old.wire }
        ensures accepted { W.went self.new.wire ≡ after_write (W.went self.old.wire) result bytes.now }
        ensures counts { self.new.counts ≡ after_put result self.old.counts }
        ensures refusals { self.old.refused ≤ self.new.refused }
        ensures refused { result ≡ Put.Idle → self.old.refused < self.new.refused }
        ensures raised { self.new.refused ≡ raised result self.old.refused }
        ensures asked { Sends W.sends self.old.refused self.old.wire result self.new.wire }
    {
        let outcome = self.offer(bytes);
        self.settle_write(outcome)
    }

    fn failures(&self) -> u64 {
        self.counts.failures
    }

    fn ends(&self) -> u64 {
        self.counts.ends
    }

    fn idles(&self) -> u64 {
        self.counts.idles
    }
}

impl<W: Source> Source for Socket<W> {
    ghost use Rattle.tcp_edge.specs.Sockets.{KeepsSocket};

    ghost keeps = { KeepsSocket W.keeps };

    fn register(
        &mut self,
        registry: &Registry,
        token: Token,
        interests: Interest,
    ) -> io::Result<()> {
        self.wire.register(registry, token, interests)
    }

    fn reregister(
        &mut self,
        registry: &Registry,
        token: Token,
        interests: Interest,
    ) -> io::Result<()> {
        self.wire.reregister(registry, token, interests)
    }

    fn deregister(&mut self, registry: &Registry) -> io::Result<()> {
        self.wire.deregister(registry)
    }
}
