//! One client of the metrics.
use http_server::{Connection, Service};
use mio::net::TcpStream;
use std::io;
use std::io::{ErrorKind, Read};
use std::net::Shutdown;
use std::time::{Duration, Instant};

/// For how many seconds a client may neither send nor take a byte.
const PATIENCE: u64 = 10;

/// For how many seconds what a client still sends is read, once it is answered nothing more: where a connection is closed with input unread, the client may lose the last answer.
const LAST_PATIENCE: u64 = 1;

/// The client is gone, or all that it is to be sent was sent.
struct Gone;

/// Where the connection of a client stands.
#[derive(Clone, Copy, Debug, PartialEq, Eq)]
enum Phase {
    /// Its requests are answered.
    Serving,
    /// It is answered nothing more, and what it sends is dropped.
    Closing,
    /// It is to be closed.
    Done,
}

/// A client, of which no call waits.
#[derive(Drop)]
pub(crate) struct Peer {
    stream: TcpStream,
    connection: Connection,
    phase: Phase,
    /// When it last sent or took a byte; from the end of its answers on, that moment.
    latest: Instant,
}

impl Peer {
    pub(crate) fn new(stream: TcpStream, connection: Connection, now: Instant) -> Peer {
        Peer {
            stream,
            connection,
            phase: Phase::Serving,
            latest: now,
        }
    }

    /// Whether it is to be closed.
    pub(crate) fn is_done(&self) -> bool {
        self.phase == Phase::Done
    }

    /// Reads once, answers, and writes once. Whether bytes went, so that there may be more to do at once.
    pub(crate) fn go_on<S: Service>(&mut self, service: &mut S, now: Instant) -> bool {
        let outcome = match self.phase {
            Phase::Serving => self.serve(service, now),
            Phase::Closing => self.drop_input(),
            Phase::Done => Err(Gone),
        };
        match outcome {
            Ok(moved) => {
                self.look_at_clock(moved, now);
                moved
            }
            Err(Gone) => {
                self.phase = Phase::Done;
                false
            }
        }
    }

    fn serve<S: Service>(&mut self, service: &mut S, now: Instant) -> Result<bool, Gone> {
        let received = self.receive()?;
        self.connection.advance(service);
        let sent = self.send()?;
        if self.connection.is_done() {
            self.begin_to_close(now)?;
        }
        Ok(received || sent)
    }

    fn receive(&mut self) -> Result<bool, Gone> {
        if !self.connection.wants_read() {
            return Ok(false);
        }
        let count = count_of(self.connection.read_from(&mut self.stream))?;
        Ok(count > 0)
    }

    fn send(&mut self) -> Result<bool, Gone> {
        if !self.connection.wants_write() {
            return Ok(false);
        }
        let count = count_of(self.connection.write_to(&mut self.stream))?;
        Ok(count > 0)
    }

    /// Ends the stream to the client.
    fn begin_to_close(&mut self, now: Instant) -> Result<(), Gone> {
        self.phase = Phase::Closing;
        self.latest = now;
        self.stream.shutdown(Shutdown::Write).map_err(|_| Gone)
    }

    /// Reads what the client still sends, until it ends its stream.
    fn drop_input(&mut self) -> Result<bool, Gone> {
        let mut dropped = [0; 4_096];
        match self.stream.read(&mut dropped) {
            Ok(0) => Err(Gone),
            outcome => Ok(count_of(outcome)? > 0),
        }
    }

    /// Closes a client that has neither sent nor taken a byte for too long.
    fn look_at_clock(&mut self, moved: bool, now: Instant) {
        let patience = match self.phase {
            Phase::Serving => PATIENCE,
            _ => LAST_PATIENCE,
        };
        if moved && self.phase == Phase::Serving {
            self.latest = now;
        } else if now.saturating_duration_since(self.latest) > Duration::from_secs(patience) {
            self.phase = Phase::Done;
        }
    }
}

/// How many bytes went; none where the system is not ready.
fn count_of(outcome: io::Result<usize>) -> Result<usize, Gone> {
    match outcome {
        Ok(count) => Ok(count),
        Err(error) if matches!(error.kind(), ErrorKind::WouldBlock | ErrorKind::Interrupted) => {
            Ok(0)
        }
        Err(_) => Err(Gone),
    }
}
